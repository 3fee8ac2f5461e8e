ghost use Rattle.std.specs.Prelude.{◌≡◌, ◌↔◌, IsTrue};
ghost use Rattle.dstm_core.specs.State.{version, is_resolved};

use crate::state::Resolution;
use crate::status::Status;

impl Resolution {
    /// Nothing was found out.
    pub(crate) const NONE: Resolution = Resolution {
        object: 0,
        word: 0,
        owner: None,
        status: None,
        rank: None,
        old: None,
        high: None,
        value: None,
    };

    /// The current version of the object, where it is known.
    pub(crate) fn version(&self) -> Option<u64>
        ensures { result ≡ version self.now }
    {
        if self.word == 0 {
            return Some(0);
        }
        let status = self.status.unwrap_or(0);
        if status == Status::Committed.code() {
            Some(self.word)
        } else if status == Status::Aborted.code() {
            self.old
        } else {
            None
        }
    }

    /// Whether the value of the current version is known.
    pub(crate) fn is_resolved(&self) -> bool
        ensures { result ≡ is_resolved self.now }
    {
        match self.version() {
            None => false,
            Some(0) => true,
            Some(_) => self.value.is_some(),
        }
    }
}
