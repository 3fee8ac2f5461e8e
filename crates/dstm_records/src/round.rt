ghost use Rattle.std.specs.Prelude.{◌≡◌, []};

use dstm_jobs::Round;
use std::alloc::Global;
use std::marker::Model;

/// The rounds of runs, in order.
#[derive(Drop)]
pub struct Rounds {
    items: Vec<Round>,
}

impl Model for Rounds {
    ghost use Rattle.std.specs.Prelude.{List};
    ghost use Rattle.dstm_jobs.specs.Tables.{Round};

    ghost Value = { List Round };

    ghost view = { λ rounds. rounds.items.items };
}

impl Rounds {
    /// No rounds. Takes no memory, but keeps the allocator.
    pub fn make(alloc: Global) -> Rounds
        ensures { result ≡ [] }
    {
        Rounds {
            items: Vec::new(alloc),
        }
    }

    /// Rounds that stand in a vector.
    pub fn from_vec(items: Vec<Round>) -> Rounds
        ensures { result ≡ items.items }
    {
        Rounds { items }
    }

    /// Gives the rounds back. Room that was taken for more of them stays with them.
    pub fn into_vec(self) -> Vec<Round>
        ensures { result.items ≡ self }
    {
        self.items
    }
}
