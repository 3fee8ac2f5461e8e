/// What an event is for.
#[derive(Clone, Copy, Debug, PartialEq, Eq)]
pub enum Kind {
    /// Takes a number among the callers.
    Enrol,
    /// Draws a stamp, which tells how old a transaction is.
    Stamp,
    /// Stores the rank of an attempt.
    Rank,
    /// Begins an attempt.
    Begin,
    /// Looks at the word of an object, and begins to resolve it.
    LookObj,
    /// Looks at the owner of the object's locator.
    LookOwner,
    /// Looks at the status of that owner.
    LookStatus,
    /// Looks at the rank of that owner.
    LookRank,
    /// Looks at the old version that the locator names.
    LookOld,
    /// Looks at the high part of the current version.
    LookHigh,
    /// Looks at the low part of the current version.
    LookNew,
    /// Puts the own attempt as the owner of an unused locator.
    PutOwner,
    /// Puts the current version as the old version of that locator.
    PutOld,
    /// Installs that locator in the object.
    Install,
    /// Looks at how many numbers were drawn, and begins a pass over the reads.
    LookNumber,
    /// Checks that the object of a read has the word that was found.
    Check,
    /// Looks at the own status, and completes a pass.
    LookSelf,
    /// Lets a read go.
    Release,
    /// Puts the high part of a new version.
    PutHigh,
    /// Puts the low part of a new version.
    PutNew,
    /// Begins the last validation.
    Validating,
    /// Draws the number that places the attempt in the history.
    Draw,
    /// Commits the attempt.
    Commit,
    /// Aborts the attempt of an enemy.
    Kill,
    /// Aborts the own attempt.
    Quit,
    /// Begins to wait for an older enemy.
    Pause,
    /// Ends that wait.
    Resume,
}

/// One load, store, exchange or add on one word of a table.
pub type Event = dstm_machines::Event<Kind>;
