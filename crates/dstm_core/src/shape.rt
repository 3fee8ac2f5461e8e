ghost use Rattle.std.specs.Prelude.{◌≡◌, ◌<◌, ◌≤◌, ◌*◌, ◌↔◌, IsTrue};
ghost use Rattle.dstm_core.specs.Words.{place, word_count, IsValid};
ghost use Rattle.dstm_core.specs.Words.Word.{ObjectWord, StatusWord, RankWord, OwnerWord, OldWord, LowWord, HighWord, CallersWord, NumbersWord, StampsWord};

/// How an attempt meets an enemy, another attempt that has an object open for writing.
#[derive(Clone, Copy, Debug, PartialEq, Eq)]
pub enum Manager {
    /// Waits a while and then aborts the enemy.
    Polite,
    /// Lets the attempt that has done more go first.
    Karma,
    /// Like Karma, with waits that grow.
    Polka,
    /// Lets the older transaction go first.
    Greedy,
}

/// The greatest number of objects.
pub const MAX_OBJECTS: u32 = 1_048_576;

/// The greatest number of callers.
pub const MAX_CALLERS: u32 = 64;

/// The greatest number of attempts per caller.
pub const MAX_ATTEMPTS: u32 = 65_536;

/// The greatest number of locators per caller.
pub const MAX_LOCATORS: u32 = 2_097_152;

/// The greatest number of words.
pub const MAX_WORDS: u64 = 268_435_456;

/// The greatest rank to which an attempt rises as it opens objects.
pub const MAX_RANK: u64 = 1_023;

/// How large a table is, and how its callers behave.
#[derive(Clone, Copy, Debug, PartialEq, Eq)]
pub struct Shape {
    pub objects: u32,
    pub callers: u32,
    /// The attempts of each caller. Attempt i of caller c is `c * attempts + i`.
    pub attempts: u32,
    /// The locators of each caller. Locator i of caller c is `c * locators + i`.
    pub locators: u32,
    pub manager: Manager,
    /// Objects that are only read are opened for writing too.
    pub all_write: bool,
}

impl Shape {
    /// Each number is in its range, and there are not too many words.
    pub fn is_valid(&self) -> bool
        ensures { IsTrue result ↔ IsValid self.now }
    {
        self.objects <= MAX_OBJECTS
            && 1 <= self.callers
            && self.callers <= MAX_CALLERS
            && 1 <= self.attempts
            && self.attempts <= MAX_ATTEMPTS
            && self.objects <= self.locators
            && self.locators <= MAX_LOCATORS
            && self.words() <= MAX_WORDS
    }

    /// The number of words of a table.
    pub fn words(&self) -> u64
        requires { self.now.callers ≤ MAX_CALLERS }
        ensures { result ≡ word_count self.now }
    {
        self.new_base() + 2 * self.all_locators() + 3
    }

    /// The place of object `o`.
    pub fn object(&self, o: u32) -> u64
        requires valid { IsValid self.now }
        requires below { o < self.now.objects }
        ensures { result ≡ place self.now (ObjectWord o) }
    {
        u64::from(o)
    }

    /// The place of the status of attempt `a`.
    pub fn status(&self, a: u32) -> u64
        requires valid { IsValid self.now }
        requires below { a < self.now.callers * self.now.attempts }
        ensures { result ≡ place self.now (StatusWord a) }
    {
        u64::from(self.objects) + u64::from(a)
    }

    /// The place of the rank of attempt `a`.
    pub fn rank(&self, a: u32) -> u64
        requires valid { IsValid self.now }
        requires below { a < self.now.callers * self.now.attempts }
        ensures { result ≡ place self.now (RankWord a) }
    {
        u64::from(self.objects) + self.all_attempts() + u64::from(a)
    }

    /// The place of the owner of locator `l`.
    pub fn owner(&self, l: u32) -> u64
        requires valid { IsValid self.now }
        requires below { l < self.now.callers * self.now.locators }
        ensures { result ≡ place self.now (OwnerWord l) }
    {
        self.owner_base() + u64::from(l)
    }

    /// The place of the old version of locator `l`.
    pub fn old_cell(&self, l: u32) -> u64
        requires valid { IsValid self.now }
        requires below { l < self.now.callers * self.now.locators }
        ensures { result ≡ place self.now (OldWord l) }
    {
        self.owner_base() + self.all_locators() + u64::from(l)
    }

    /// The place of the low part of the new version of locator `l`.
    pub fn new_cell(&self, l: u32) -> u64
        requires valid { IsValid self.now }
        requires below { l < self.now.callers * self.now.locators }
        ensures { result ≡ place self.now (LowWord l) }
    {
        self.new_base() + u64::from(l)
    }

    /// The place of the high part of the new version of locator `l`.
    pub fn high_cell(&self, l: u32) -> u64
        requires valid { IsValid self.now }
        requires below { l < self.now.callers * self.now.locators }
        ensures { result ≡ place self.now (HighWord l) }
    {
        self.new_base() + self.all_locators() + u64::from(l)
    }

    /// The place of the word that counts the callers.
    pub fn callers_place(&self) -> u64
        requires { IsValid self.now }
        ensures { result ≡ place self.now CallersWord }
    {
        self.words() - 3
    }

    /// The place of the word that counts the numbers drawn.
    pub fn numbers_place(&self) -> u64
        requires { IsValid self.now }
        ensures { result ≡ place self.now NumbersWord }
    {
        self.words() - 2
    }

    /// The place of the word that counts the stamps drawn.
    pub fn stamps_place(&self) -> u64
        requires { IsValid self.now }
        ensures { result ≡ place self.now StampsWord }
    {
        self.words() - 1
    }

    // The attempts of all callers.
    pub(crate) fn all_attempts(&self) -> u64
        requires { self.now.callers ≤ MAX_CALLERS }
        ensures { result ≡ self.now.callers * self.now.attempts }
    {
        u64::from(self.callers) * u64::from(self.attempts)
    }

    // The locators of all callers.
    pub(crate) fn all_locators(&self) -> u64
        requires { self.now.callers ≤ MAX_CALLERS }
        ensures { result ≡ self.now.callers * self.now.locators }
    {
        u64::from(self.callers) * u64::from(self.locators)
    }

    // Where the owners of locators begin.
    fn owner_base(&self) -> u64
        requires { self.now.callers ≤ MAX_CALLERS }
        ensures { result ≡ place self.now (OwnerWord 0) }
    {
        u64::from(self.objects) + 2 * self.all_attempts()
    }

    // Where the new versions of locators begin.
    fn new_base(&self) -> u64
        requires { self.now.callers ≤ MAX_CALLERS }
        ensures { result ≡ place self.now (LowWord 0) }
    {
        self.owner_base() + 2 * self.all_locators()
    }
}
