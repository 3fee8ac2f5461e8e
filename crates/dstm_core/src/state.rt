/// Where a caller stands in its attempt.
#[derive(Clone, Copy, Debug, PartialEq, Eq)]
pub enum Phase {
    /// No attempt is under way.
    Outside,
    /// The attempt opens objects.
    Running,
    /// The attempt waits for another one.
    Paused,
    /// The attempt puts its new values.
    Putting,
    /// The attempt puts and opens no more, and has not drawn its number.
    Validating,
    /// The attempt has drawn its number.
    Drawn,
}

/// A read that is recorded: the word that was found in the object, and the version that it stood for.
#[derive(Clone, Copy, Debug, PartialEq, Eq)]
pub struct Read {
    pub object: u64,
    pub word: u64,
    pub version: u64,
}

/// An object opened for writing: the own locator, and the version that it replaces.
#[derive(Clone, Copy, Debug, PartialEq, Eq)]
pub struct Write {
    pub object: u64,
    pub locator: u64,
    pub old: u64,
}

/// What was found out of an object whose current version is sought.
#[derive(Clone, Copy, Debug, PartialEq, Eq)]
pub struct Resolution {
    pub object: u64,
    /// What the object's word held.
    pub word: u64,
    /// The owner of the locator that the word names.
    pub owner: Option<u64>,
    /// The owner's status found last.
    pub status: Option<u64>,
    /// The owner's rank.
    pub rank: Option<u64>,
    /// The old version that the locator names.
    pub old: Option<u64>,
    /// The high part of the current version.
    pub high: Option<u64>,
    /// The low part of the current version.
    pub value: Option<u64>,
}
