// The turn of a transaction that was lost often.
ghost use Rattle.std.specs.Prelude.{◌≡◌, ◌%◌};

use crate::rest::Rest;
use std::sync::atomic::AtomicU64;
use std::sync::atomic::Ordering::SeqCst;

// The word counts in steps of 8. What is above a multiple of 8 is the rank of who has the turn: none has it at 0.
const STEP: u64 = 8;

const MOST_RANK: u64 = 7;

/// A transaction that was lost so often takes the turn.
pub const MOST_LOST: u32 = 8;

// Others look so often for one of rank 1 before they go on all the same, and twice as often for each rank more.
const LEAST_LOOKS: u32 = 8_192;

// So they look at most so often.
const MOST_LOOKS: u32 = 524_288;

// For so many looks in which a thread has let others go first it begins an attempt of its own without one, so that a thread
// that takes one turn after the other leaves some time to the others.
const LOOKS_FOR_ONE: u32 = 4;

/// The turn of a memory's threads. A transaction that was lost often takes it, and while it has the turn, the other threads
/// let it go first, for some time. It is a courtesy: who waits in vain for one that has the turn goes on all the same, and
/// does not wait for that one again; so a thread that was stopped costs each other thread one wait.
#[derive(Drop)]
pub struct Turn {
    // It has a cache line to itself: it is looked at before each attempt, and seldom changes.
    before: [u64; 8],
    word: AtomicU64,
    after: [u64; 7],
}

/// What tells one that has the turn from all before and behind it.
#[derive(Clone, Copy, Debug, PartialEq, Eq)]
pub struct Ticket {
    word: u64,
}

/// What a thread remembers of the turns of others.
#[derive(Clone, Copy, Debug)]
pub struct Courtesy {
    // The last one that it has waited for in vain.
    passed: Option<Ticket>,
    // How many attempts it may begin without waiting.
    free: u32,
    // How often it has looked before this attempt.
    looks: u32,
}

impl Courtesy {
    /// It has waited for nobody so far.
    pub fn new() -> Courtesy {
        Courtesy {
            passed: None,
            free: 0,
            looks: 0,
        }
    }

    // Whether it waits once more for the one with this ticket.
    fn waits(&mut self, ticket: Ticket) -> bool {
        if self.looks == 0 && self.free > 0 {
            self.free -= 1;
            return false;
        }
        if self.looks >= looks_for(ticket) {
            self.passed = Some(ticket);
            self.looks = 0;
            return false;
        }
        self.looks = self.looks.saturating_add(1);
        if self.looks % LOOKS_FOR_ONE == 0 {
            self.free = self.free.saturating_add(1);
        }
        true
    }

    // A rest before the next look counts for so many looks more.
    fn add_looks(&mut self, more: u32) {
        self.looks = self.looks.saturating_add(more);
        self.free = self.free.saturating_add(more / LOOKS_FOR_ONE);
    }
}

impl Turn {
    /// A turn that nobody has.
    pub fn new() -> Turn {
        Turn {
            before: [0; 8],
            word: AtomicU64::new(0),
            after: [0; 7],
        }
    }

    /// Takes the turn where nobody has it. Who has it, and was lost again, rises by a new ticket: others wait twice as long
    /// for it.
    pub fn go_first(&self, ticket: Option<Ticket>) -> Option<Ticket> {
        match ticket {
            Some(ticket) => Some(self.rise(ticket)),
            None => self.take(),
        }
    }

    // Takes the turn where nobody has it.
    fn take(&self) -> Option<Ticket> {
        let free = self.word.load(SeqCst);
        if rank(free) > 0 {
            return None;
        }
        let ticket = Ticket {
            word: free.wrapping_add(1),
        };
        match self
            .word
            .compare_exchange(free, ticket.word, SeqCst, SeqCst)
        {
            Ok(_) => Some(ticket),
            Err(_) => None,
        }
    }

    // A new ticket for who has the turn, for which others wait twice as long.
    fn rise(&self, ticket: Ticket) -> Ticket {
        let rank = (rank(ticket.word) + 1).min(MOST_RANK);
        let ticket = Ticket {
            word: next(ticket.word).wrapping_add(rank),
        };
        self.word.store(ticket.word, SeqCst);
        ticket
    }

    /// Gives the turn back.
    pub fn give_back(&self, ticket: Ticket) {
        self.word.store(next(ticket.word), SeqCst);
    }

    /// Somebody has the turn.
    #[inline(always)]
    pub fn is_taken(&self) -> bool {
        rank(self.word.load(SeqCst)) > 0
    }

    /// Lets who has the turn go first, for some time.
    pub fn let_first<S: Rest>(&self, courtesy: &mut Courtesy, rest: &mut S) {
        for _look in 0..=MOST_LOOKS {
            if !self.is_to_wait(courtesy) {
                return;
            }
            courtesy.add_looks(rest.let_first().saturating_sub(1));
        }
    }

    /// One look whether a thread is to let another one go first, which has the turn. At most 524,288 looks in a row say so.
    pub fn is_to_wait(&self, courtesy: &mut Courtesy) -> bool {
        let ticket = Ticket {
            word: self.word.load(SeqCst),
        };
        if rank(ticket.word) == 0 || courtesy.passed == Some(ticket) {
            courtesy.looks = 0;
            return false;
        }
        courtesy.waits(ticket)
    }
}

// The rank of who has the turn: 0 where nobody has it.
fn rank(word: u64) -> u64
    ensures { result ≡ word % 8 }
{
    word % STEP
}

// The word of nobody that comes behind this one.
fn next(word: u64) -> u64 {
    (word - rank(word)).wrapping_add(STEP)
}

// How often others look for the one with this ticket.
fn looks_for(ticket: Ticket) -> u32 {
    LEAST_LOOKS << rank(ticket.word).saturating_sub(1)
}
