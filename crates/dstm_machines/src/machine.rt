/// A machine that threads run on shared words.
pub trait Machine: Drop {
    ghost use Rattle.dstm_machines.specs.Sharing.{Shared, Enrolling};

    /// What its events are for.
    type Kind: Drop;
    /// What a table is told once, when it is made.
    type Terms: Drop;

    /// What the rules read of these terms.
    ghost Table: { Type 0 };

    /// The state of one caller.
    ghost State: { Type 0 };

    /// Its rules, and what they keep.
    ghost shared: { Shared Self.Kind Self.Terms Table State };

    /// What sharing its words stands on.
    ghost enrolling: { Enrolling shared };
}
