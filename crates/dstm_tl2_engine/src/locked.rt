ghost use Rattle.std.specs.Prelude.{◌≡◌, IfOk, OnOk, IfErr};
ghost use Rattle.dstm_tl2_engine.specs.Attempts.{Commits, Seen};
ghost use Rattle.dstm_tl2_engine.specs.Calls.{IsMade, IsTold};
ghost use Rattle.dstm_tl2_order.specs.Tasks.Work.{Finishing};
ghost use Rattle.dstm_tl2_engine.specs.Transactions.{HasLocked, Leaves, Stays, given_back};

use crate::caller::TlCaller;
use crate::stm::TlStm;
use crate::table::TlTable;
use dstm_model::Law;
use dstm_tl2_order::TlAgain;

/// An attempt that has locked the objects that it writes. One that is dropped holds them until its caller begins the
/// next one or is retired. `S` stands for its table.
#[derive(Drop)]
pub struct TlHeld<'a, L: Law, S: TlTable<L>> {
    pub(crate) caller: &'a mut TlCaller<L>,
    pub(crate) stm: S,
    ghost table: { caller.now.home ≡ S.home stm },
}

/// An attempt on a table that it borrows, which has locked the objects that it writes.
pub type TlLocked<'a, L> = TlHeld<'a, L, &'a TlStm<L>>;

impl<'a, L: Law, S: TlTable<L>> TlHeld<'a, L, S> {
    /// Draws the number, checks the reads, writes back and unlocks. It answers the number.
    pub fn finish(self) -> Result<u64, TlAgain>
        requires locked { HasLocked self.caller.now }
        ensures stays { OnOk result
            (Stays L.holds (Finishing self.entry.caller.now.writes) self.entry.caller.now self.exit.0.now) }
        ensures leaves { IfErr result
            (Leaves L.holds (Finishing self.entry.caller.now.writes) self.entry.caller.now self.exit.0.now) }
        ensures number { IfOk result (Commits self.entry.caller.now self.exit.0.now) }
        ensures kept { self.exit.0.now ≡ record self.entry.caller.now {
          log = self.exit.0.now.log;
          left = given_back result;
        } }
        ensures told { IsMade self.exit.0.now → IsTold self.exit.0.now }
        ensures seen { Seen L.holds self.exit.0.now }
    {
        let TlHeld { caller, stm } = self;
        caller.finish(stm.table())
    }
}
