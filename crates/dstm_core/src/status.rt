ghost use Rattle.std.specs.Prelude.{◌≡◌, ◌<◌, ◌↔◌, IsNone, IfSome};
ghost use Rattle.dstm_core.specs.Words.{code_of};

/// How far an attempt has come, as its status word tells.
#[derive(Clone, Copy, Debug, PartialEq, Eq)]
pub enum Status {
    /// The attempt has not begun.
    Idle,
    /// The attempt runs.
    Active,
    /// The attempt waits for another one to end.
    Waiting,
    /// The attempt has put its values and checks its reads for the last time.
    Validating,
    /// The attempt took effect.
    Committed,
    /// The attempt has no effect.
    Aborted,
}

impl Status {
    /// The number by which a status word names this status.
    pub fn code(self) -> u64
        ensures { result ≡ code_of self }
    {
        match self {
            Status::Idle => 0,
            Status::Active => 1,
            Status::Waiting => 2,
            Status::Validating => 3,
            Status::Committed => 4,
            Status::Aborted => 5,
        }
    }

    /// The status that a number names.
    pub fn of(code: u64) -> Option<Status>
        ensures named { IfSome result (λ status. code_of status ≡ code) }
        ensures unnamed { IsNone result ↔ (5 < code) }
    {
        match code {
            0 => Some(Status::Idle),
            1 => Some(Status::Active),
            2 => Some(Status::Waiting),
            3 => Some(Status::Validating),
            4 => Some(Status::Committed),
            5 => Some(Status::Aborted),
            _ => None,
        }
    }
}
