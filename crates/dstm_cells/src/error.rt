// Why a closure, a transaction and a memory stop.
use dstm_attempts::NotOpened;
use std::alloc::{AllocError, AllocFailed};
use std::error::Error;
use std::fmt;

/// Why a closure cannot go on with its transaction. It can only be handed on, by `?` or as the closure's own answer: it is
/// not let go, not copied and not looked into. So no closure goes on behind a call that was stopped and takes effect.
#[derive(Debug)]
pub struct Stop {
    pub(crate) why: Why,
}

// Why a call has stopped a closure.
#[derive(Clone, Copy, Debug, PartialEq, Eq)]
pub enum Why {
    /// Another transaction came between. The closure is called again at once, where its own attempt is over.
    Again,
    /// It cannot go on with what it has read. It is called again once some of this has changed; by TL2 once any transaction
    /// may have taken effect.
    Retry,
    /// The memory has no such cell.
    Foreign,
    /// There was not enough memory to note what an alternative has set.
    Memory,
}

/// Why a transaction did not take effect.
#[derive(Clone, Copy, Debug, PartialEq, Eq)]
pub enum GaveUp {
    /// The thread's attempts, or its locators, are used up: this and every later transaction of the thread in this run. By
    /// TL2 no program lives so long.
    Spent,
    /// The closure has retried, and for long nothing has changed: by DSTM nothing that it has read; by TL2 no
    /// transaction took effect.
    Idle,
    /// The memory has no such cell.
    Foreign,
    /// There was not enough memory.
    Memory,
    /// The closure was stopped by a call on another transaction, which is over; its own was still under way.
    Elsewhere,
}

/// Why a call on a memory failed.
#[derive(Clone, Copy, Debug, PartialEq, Eq)]
pub enum Failed {
    /// The memory has as many cells as it can have.
    Full,
    /// There was not enough memory.
    Memory,
    /// There have to be from 1 to 63 threads.
    Threads,
    /// This is how the first thread ended that did not end well. The cells have what took effect until then.
    GaveUp(GaveUp),
    /// The cells could not be read in the end, or not behind all threads, and are as before the run.
    Unread,
    /// The memory has no such cell.
    Foreign,
}

impl fmt::Display for GaveUp {
    ghost use Rattle.std.specs.Prelude.{Some};
    ghost use Rattle.dstm_cells.specs.Texts.{text_of_end};

    ghost output = { λ why. Some (text_of_end why) };

    fn fmt<W: fmt::Write>(&self, f: &mut fmt::Formatter<W>) -> fmt::Result {
        match self {
            GaveUp::Spent => write!(f, "a thread's attempts are used up"),
            GaveUp::Idle => write!(f, "a transaction waited in vain"),
            GaveUp::Foreign => write!(f, "the memory has no such cell"),
            GaveUp::Memory => write!(f, "out of memory"),
            GaveUp::Elsewhere => write!(f, "another transaction is over"),
        }
    }
}

impl Error for GaveUp {}

impl fmt::Display for Failed {
    ghost use Rattle.std.specs.Prelude.{Some};
    ghost use Rattle.dstm_cells.specs.Texts.{text_of_failure};

    ghost output = { λ why. Some (text_of_failure why) };

    fn fmt<W: fmt::Write>(&self, f: &mut fmt::Formatter<W>) -> fmt::Result {
        match self {
            Failed::Full => write!(f, "the memory has no room for another cell"),
            Failed::Memory => write!(f, "out of memory"),
            Failed::Threads => write!(f, "a memory runs from 1 to 63 threads"),
            Failed::GaveUp(why) => write!(f, "{why}"),
            Failed::Unread => write!(f, "the cells could not be read"),
            Failed::Foreign => write!(f, "the memory has no such cell"),
        }
    }
}

impl Error for Failed {}

// An attempt that is over can be made again, whatever the cause.
impl From<NotOpened> for Stop {
    ghost use Rattle.std.specs.Prelude.{◌≡◌};
    ghost use Rattle.dstm_cells.specs.UnderWay.{stop_for};

    ghost from_gives = { λ why e. e ≡ stop_for why };

    fn from(why: NotOpened) -> Stop {
        let why = match why {
            NotOpened::Over => Why::Again,
            NotOpened::Foreign => Why::Foreign,
        };
        Stop { why }
    }
}

impl From<AllocError> for Failed {
    ghost use Rattle.std.specs.Prelude.{◌≡◌};
    ghost use Rattle.dstm_cells.specs.declared.error.Failed.TheVariants.{Memory};

    ghost from_gives = { λ _ e. e ≡ Memory };

    fn from(_e: AllocError) -> Failed {
        Failed::Memory
    }
}

impl<T: Drop> From<AllocFailed<T>> for Failed {
    ghost use Rattle.std.specs.Prelude.{◌≡◌};
    ghost use Rattle.dstm_cells.specs.declared.error.Failed.TheVariants.{Memory};

    ghost from_gives = { λ _ e. e ≡ Memory };

    fn from(_e: AllocFailed<T>) -> Failed {
        Failed::Memory
    }
}

impl From<AllocError> for GaveUp {
    ghost use Rattle.std.specs.Prelude.{◌≡◌};
    ghost use Rattle.dstm_cells.specs.declared.error.GaveUp.TheVariants.{Memory};

    ghost from_gives = { λ _ e. e ≡ Memory };

    fn from(_e: AllocError) -> GaveUp {
        GaveUp::Memory
    }
}

impl<T: Drop> From<AllocFailed<T>> for GaveUp {
    ghost use Rattle.std.specs.Prelude.{◌≡◌};
    ghost use Rattle.dstm_cells.specs.declared.error.GaveUp.TheVariants.{Memory};

    ghost from_gives = { λ _ e. e ≡ Memory };

    fn from(_e: AllocFailed<T>) -> GaveUp {
        GaveUp::Memory
    }
}

impl From<AllocError> for Stop {
    ghost use Rattle.std.specs.Prelude.{◌≡◌};
    ghost use Rattle.dstm_cells.specs.UnderWay.{stop_by};
    ghost use Rattle.dstm_cells.specs.declared.error.Why.TheVariants.{Memory};

    ghost from_gives = { λ _ e. e ≡ stop_by Memory };

    fn from(_e: AllocError) -> Stop {
        Stop { why: Why::Memory }
    }
}

impl<T: Drop> From<AllocFailed<T>> for Stop {
    ghost use Rattle.std.specs.Prelude.{◌≡◌};
    ghost use Rattle.dstm_cells.specs.UnderWay.{stop_by};
    ghost use Rattle.dstm_cells.specs.declared.error.Why.TheVariants.{Memory};

    ghost from_gives = { λ _ e. e ≡ stop_by Memory };

    fn from(_e: AllocFailed<T>) -> Stop {
        Stop { why: Why::Memory }
    }
}
