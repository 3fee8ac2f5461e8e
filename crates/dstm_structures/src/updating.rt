// Changes of what a map has for a key, in one look-up.
ghost use Rattle.std.specs.Prelude.{◌≡◌, List, IfErr, IfOk, OnOk};
ghost use Rattle.dstm_attempts.specs.Attempts.{StoodTogether};
ghost use Rattle.dstm_cells.specs.UnderWay.{MayBegin};
ghost use Rattle.dstm_model.specs.declared.value.Val.{Val};
ghost use Rattle.dstm_structures.specs.Effects.{Does, GoesOn, Stops};
ghost use Rattle.dstm_structures.specs.Maps.{Puts, end_of, had_by};
ghost use Rattle.dstm_structures.specs.Ordered as ordered;
ghost use Rattle.dstm_structures.specs.Orders.{order_end};

use crate::map::{HashMap, Placed, outcome};
use crate::ordered::OrderedMap;
use dstm_cells::{Attempt, Holds, Stop, Word};
use dstm_model::Law;

impl<V: Word> HashMap<V> {
    /// Gives a key what this makes of the value that it has, or of none, and adds the key where it is not there. The key is
    /// looked up once, and what stood there is answered as by `put`.
    pub fn update<L: Law, S: Holds<L>, F: FnOnce(Option<V>) -> V>(
        self,
        tx: &mut Attempt<L, S>,
        key: u64,
        f: F,
    ) -> Result<Placed<V>, Stop>
        requires callable { F.IsAlwaysCallable f }
        ensures goes { GoesOn L.holds tx.old tx.new }
        ensures stops { IfErr result (λ stop. Stops (end_of self) tx.old.notes tx.old tx.new stop.why) }
        ensures puts { IfOk result (λ placed. (value : V) × F.post f (had_by placed) value
            × Does L.holds (end_of self) (Puts V.found self key value placed) tx.old.attempts.caller tx.new.attempts.caller) }
        ensures together { OnOk result (StoodTogether L.holds tx.new.attempts.caller) }
        ensures may { OnOk result ((map : List Val) × MayBegin L.holds tx.new.attempts.caller map) }
    {
        let found = self.find(tx, key)?;
        let Some(at) = found else {
            let value = f(None);
            let place = self.insert(tx, key, value)?;
            return Ok(outcome(place));
        };
        let had = tx.update(self.value_at(at), |had| f(Some(had)))?;
        Ok(Placed::Instead(had))
    }
}

impl<V: Word> OrderedMap<V> {
    /// Gives a key what this makes of the value that it has, or of none, and adds the key where it is not there. The key is
    /// looked up once, and what stood there is answered as by `put`. Where it is there, nothing of the order is read.
    pub fn update<L: Law, S: Holds<L>, F: FnOnce(Option<V>) -> V>(
        self,
        tx: &mut Attempt<L, S>,
        key: u64,
        f: F,
    ) -> Result<Placed<V>, Stop>
        requires callable { F.IsAlwaysCallable f }
        ensures goes { GoesOn L.holds tx.old tx.new }
        ensures stops { IfErr result (λ stop. Stops (order_end self.map.cells) tx.old.notes tx.old tx.new stop.why) }
        ensures puts { IfOk result (λ placed. (value : V) × F.post f (had_by placed) value
            × Does L.holds (order_end self.map.cells) (ordered.Puts V.found self key value placed)
            tx.old.attempts.caller tx.new.attempts.caller) }
        ensures together { OnOk result (StoodTogether L.holds tx.new.attempts.caller) }
        ensures may { OnOk result ((map : List Val) × MayBegin L.holds tx.new.attempts.caller map) }
    {
        let found = self.map.find(tx, key)?;
        let Some(at) = found else {
            let value = f(None);
            let placed = self.add(tx, key, value)?;
            return Ok(placed);
        };
        let had = tx.update(self.map.value_at(at), |had| f(Some(had)))?;
        Ok(Placed::Instead(had))
    }
}
