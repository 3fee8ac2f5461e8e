ghost use Rattle.std.specs.Prelude.{◌≡◌};
ghost use Rattle.dstm_steps.specs.Writes.{to_put};

use dstm_mem::Slot;
use dstm_model::Val;

/// A read of an object: the word that was found, and the value of the version that it stands for.
#[derive(Clone, Copy, Debug, PartialEq, Eq)]
pub struct ReadSlot {
    pub object: u32,
    /// The read was not dropped.
    pub kept: bool,
    pub word: u64,
    pub value: Val,
}

/// An object opened for writing: its old value, and the one that was set last.
#[derive(Clone, Copy, Debug, PartialEq, Eq)]
pub struct WriteSlot {
    pub object: u32,
    pub old: Val,
    pub new: Option<Val>,
}

impl WriteSlot {
    /// The value that a commit puts.
    pub fn to_put(&self) -> Val
        ensures { result ≡ to_put self.now }
    {
        match self.new {
            Some(value) => value,
            None => self.old,
        }
    }
}

impl Slot for ReadSlot {
    ghost use Rattle.dstm_steps.specs.Sorts.{reads_sort};

    ghost sort = { reads_sort };

    fn object(&self) -> u32 {
        self.object
    }
}

impl Slot for WriteSlot {
    ghost use Rattle.dstm_steps.specs.Sorts.{writes_sort};

    ghost sort = { writes_sort };

    fn object(&self) -> u32 {
        self.object
    }
}
