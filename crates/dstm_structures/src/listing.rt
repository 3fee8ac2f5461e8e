// What a map or a set has altogether: its items, and how many there are.
ghost use Rattle.std.specs.Prelude.{◌≡◌, ◌<◌, ◌≤◌, List, false, true, if◌then◌else◌, is_some, IfErr, IfOk, OnOk};
ghost use Rattle.dstm_attempts.specs.Attempts.{StoodTogether};
ghost use Rattle.dstm_cells.specs.UnderWay.{MayBegin};
ghost use Rattle.dstm_model.specs.declared.value.Val.{Val};
ghost use Rattle.dstm_structures.specs.Effects.{Does, GoesOn, StillMay, StillTogether, Stops};
ghost use Rattle.dstm_structures.specs.Items.{Counts, Lists, ListsAbove, ListsInOrder, Stands, if_above};
ghost use Rattle.dstm_structures.specs.Maps.{end_of};
ghost use Rattle.dstm_structures.specs.Orders.{order_end};
ghost use Rattle.dstm_structures.specs.Sets as sets;

use crate::between::keys_of;
use crate::map::HashMap;
use crate::ordered::OrderedMap;
use crate::set::OrderedSet;
use dstm_cells::{Attempt, Holds, Stop, Word};
use dstm_model::Law;
use std::alloc::Global;

impl<V: Word> HashMap<V> {
    /// How many keys there are. It looks at each place, and so any change of a key comes into its way.
    pub fn len<L: Law, S: Holds<L>>(self, tx: &mut Attempt<L, S>) -> Result<u32, Stop>
        ensures goes { GoesOn L.holds tx.old tx.new }
        ensures stops { IfErr result (λ stop. Stops (end_of self) false tx.old tx.new stop.why) }
        ensures counts { IfOk result (λ count. Does L.holds (end_of self) (Counts V.found self count)
            tx.old.attempts.caller tx.new.attempts.caller) }
        ensures together { OnOk result (StoodTogether L.holds tx.new.attempts.caller) }
        ensures may { OnOk result ((map : List Val) × MayBegin L.holds tx.new.attempts.caller map) }
    {
        let mut count: u32 = 0;
        for at in 0..self.cells.capacity {
            let key = self.stands(tx, at)?;
            count += one_if(key);
        }
        Ok(count)
    }

    /// All keys with their values, in no order. It looks at each place, as `len` does.
    pub fn to_vec<L: Law, S: Holds<L>>(
        self,
        tx: &mut Attempt<L, S>,
        alloc: Global,
    ) -> Result<Vec<(u64, V)>, Stop>
        ensures goes { GoesOn L.holds tx.old tx.new }
        ensures stops { IfErr result (λ stop. Stops (end_of self) true tx.old tx.new stop.why) }
        ensures lists { IfOk result (λ items. Does L.holds (end_of self) (Lists V.found self items.items)
            tx.old.attempts.caller tx.new.attempts.caller) }
        ensures together { OnOk result (StoodTogether L.holds tx.new.attempts.caller) }
        ensures may { OnOk result ((map : List Val) × MayBegin L.holds tx.new.attempts.caller map) }
    {
        let items = self.items_by(tx, alloc)?;
        Ok(items)
    }

    // The key that is found at a place, if one is.
    fn stands<L: Law, S: Holds<L>>(
        self,
        tx: &mut Attempt<L, S>,
        at: u32,
    ) -> Result<Option<u64>, Stop>
        requires { at < self.cells.capacity }
        ensures goes { GoesOn L.holds tx.old tx.new }
        ensures stops { IfErr result (λ stop. Stops (end_of self) false tx.old tx.new stop.why) }
        ensures stands { IfOk result (λ key. Does L.holds (end_of self) (Stands self at key)
            tx.old.attempts.caller tx.new.attempts.caller) }
        ensures together { OnOk result (StoodTogether L.holds tx.new.attempts.caller) }
        ensures may { OnOk result ((map : List Val) × MayBegin L.holds tx.new.attempts.caller map) }
    {
        let key = self.stands_by(tx, at)?;
        Ok(key)
    }
}

impl<V: Word> OrderedMap<V> {
    /// How many keys there are. It looks at each place, and so any change of a key comes into its way.
    pub fn len<L: Law, S: Holds<L>>(self, tx: &mut Attempt<L, S>) -> Result<u32, Stop>
        ensures goes { GoesOn L.holds tx.old tx.new }
        ensures stops { IfErr result (λ stop. Stops (end_of self.map) false tx.old tx.new stop.why) }
        ensures counts { IfOk result (λ count. Does L.holds (end_of self.map) (Counts V.found self.map count)
            tx.old.attempts.caller tx.new.attempts.caller) }
        ensures together { OnOk result (StoodTogether L.holds tx.new.attempts.caller) }
        ensures may { OnOk result ((map : List Val) × MayBegin L.holds tx.new.attempts.caller map) }
    {
        self.map.len(tx)
    }

    /// All keys with their values, in the order of the keys.
    pub fn to_vec<L: Law, S: Holds<L>>(
        self,
        tx: &mut Attempt<L, S>,
        alloc: Global,
    ) -> Result<Vec<(u64, V)>, Stop>
        ensures goes { GoesOn L.holds tx.old tx.new }
        ensures stops { IfErr result (λ stop. Stops (order_end self.map.cells) true tx.old tx.new stop.why) }
        ensures lists { IfOk result (λ items. Does L.holds (order_end self.map.cells) (ListsInOrder V.found self items.items)
            tx.old.attempts.caller tx.new.attempts.caller) }
        ensures together { OnOk result (StoodTogether L.holds tx.new.attempts.caller) }
        ensures may { OnOk result ((map : List Val) × MayBegin L.holds tx.new.attempts.caller map) }
    {
        let mut items = Vec::new(alloc);
        let mut next = self.first(tx)?;
        while let Some(entry) = next {
            items.push(entry)?;
            let above = self.next_above(tx, entry.0)?;
            next = if_above(entry.0, above);
        }
        Ok(items)
    }

    /// The first keys above this one, so many at most, with their values, in the order of the keys. The key itself need not be
    /// there. Who goes on where such a list ended gives its last key.
    pub fn list_above<L: Law, S: Holds<L>>(
        self,
        tx: &mut Attempt<L, S>,
        key: u64,
        most: u32,
        alloc: Global,
    ) -> Result<Vec<(u64, V)>, Stop>
        ensures goes { GoesOn L.holds tx.old tx.new }
        ensures stops { IfErr result (λ stop. Stops (order_end self.map.cells) true tx.old tx.new stop.why) }
        ensures lists { IfOk result (λ items. Does L.holds (order_end self.map.cells)
            (ListsAbove V.found self key most items.items) tx.old.attempts.caller tx.new.attempts.caller) }
        ensures together { OnOk result (StillTogether L.holds tx.old.attempts.caller tx.new.attempts.caller) }
        ensures may { OnOk result (StillMay L.holds tx.old.attempts.caller tx.new.attempts.caller) }
    {
        let mut items = Vec::new(alloc);
        let mut last = key;
        for _told in 0..most {
            let above = self.next_above(tx, last)?;
            let Some(entry) = above else {
                return Ok(items);
            };
            items.push(entry)?;
            last = entry.0;
        }
        Ok(items)
    }
}

impl OrderedSet {
    /// How many keys are in the set. It looks at each place, as `HashMap::len` does.
    pub fn len<L: Law, S: Holds<L>>(self, tx: &mut Attempt<L, S>) -> Result<u32, Stop>
        ensures goes { GoesOn L.holds tx.old tx.new }
        ensures stops { IfErr result (λ stop. Stops (end_of self.map.map) false tx.old tx.new stop.why) }
        ensures counts { IfOk result (λ count. Does L.holds (end_of self.map.map) (sets.Counts self count)
            tx.old.attempts.caller tx.new.attempts.caller) }
        ensures together { OnOk result (StoodTogether L.holds tx.new.attempts.caller) }
        ensures may { OnOk result ((map : List Val) × MayBegin L.holds tx.new.attempts.caller map) }
    {
        let count = self.map.len(tx)?;
        Ok(count)
    }

    /// The first keys above this one, so many at most, in their order, as `OrderedMap::list_above` tells them.
    pub fn list_above<L: Law, S: Holds<L>>(
        self,
        tx: &mut Attempt<L, S>,
        key: u64,
        most: u32,
        alloc: Global,
    ) -> Result<Vec<u64>, Stop>
        ensures goes { GoesOn L.holds tx.old tx.new }
        ensures stops { IfErr result (λ stop. Stops (order_end self.map.map.cells) true tx.old tx.new stop.why) }
        ensures lists { IfOk result (λ keys. Does L.holds (order_end self.map.map.cells)
            (sets.ListsAbove self key most keys.items) tx.old.attempts.caller tx.new.attempts.caller) }
        ensures together { OnOk result (StillTogether L.holds tx.old.attempts.caller tx.new.attempts.caller) }
        ensures may { OnOk result (StillMay L.holds tx.old.attempts.caller tx.new.attempts.caller) }
    {
        let items = self.map.list_above(tx, key, most, alloc)?;
        let keys = keys_of(alloc, &items)?;
        Ok(keys)
    }
}

// 1 for a key, and 0 for none.
fn one_if(key: Option<u64>) -> u32
    ensures is { result ≡ (if is_some key then 1 else 0) }
    ensures few { result ≤ 1 }
{
    match key {
        Some(_) => 1,
        None => 0,
    }
}

// An item, where its key is above this one.
fn if_above<V: Word>(key: u64, above: Option<(u64, V)>) -> Option<(u64, V)>
    ensures { result ≡ if_above key above }
{
    match above {
        Some(entry) => { if key < entry.0 { Some(entry) } else { None } }
        None => None,
    }
}
