// A hash map in the cells of a memory.
ghost use Rattle.std.specs.Prelude.{◌≡◌, ◌⊎◌, ◌↔◌, ◌+◌, ◌*◌, ◌<◌, ◌≤◌, List, false, length, Err, IfErr, IfOk, IfSome, MatchOption, OnOk};
ghost use Rattle.dstm_attempts.specs.Attempts.{StoodTogether};
ghost use Rattle.dstm_cells.specs.Cells.{WantsRoom};
ghost use Rattle.dstm_cells.specs.UnderWay.{MayBegin};
ghost use Rattle.dstm_cells.specs.declared.error.Failed.TheVariants as failed;
ghost use Rattle.dstm_model.specs.declared.value.Val.{Val};
ghost use Rattle.dstm_structures.specs.Effects.{Does, GoesOn, StillMay, StillTogether, Stops};
ghost use Rattle.dstm_structures.specs.Maps.{Adds, ClearsAll, Empties, Frees, Inserts, Puts, Reaches, Removes, Seeks, SetsKey, SetsReach, Stores, Tells, TellsIf, end_of, home_in, outcome};
ghost use Rattle.dstm_structures.specs.Places.{is_free, is_key};

use crate::cells::{Rows, Slot, behind, cell, number};
use dstm_cells::{Attempt, Cell, Failed, Holds, MOST_CELLS, Memory, Stop, Word};
use dstm_model::Law;
use std::marker::PhantomData;

/// A map of at most so many keys, in the cells of a memory. It is a name: copies of it name the same map.
#[derive(Clone, Copy)]
pub struct HashMap<V> {
    pub(crate) cells: Rows,
    holds: PhantomData<V>,
}

/// How a key was put into a map.
#[derive(Clone, Copy, Debug, PartialEq, Eq)]
pub enum Placed<V> {
    /// It was not there.
    New,
    /// It was there, with this value.
    Instead(V),
    /// It was not there, and there is no room for another one. Nothing is set.
    Full,
}

impl<V: Word> HashMap<V> {
    /// An empty map in new cells of a memory: two for each key that it has room for, which are from 1 on.
    pub fn new<L: Law + Copy>(memory: &mut Memory<L>, capacity: u32) -> Result<HashMap<V>, Failed>
        ensures adds { IfOk result (λ map. Adds V.found map memory.old.values.items memory.new.values.items) }
        ensures capacity { IfOk result (λ map. map.cells.capacity ≡ capacity) }
        ensures full { result ≡ Err failed.Full ↔ (capacity ≡ 0) ⊎ (524288 < length memory.old.values.items + 2 * capacity) }
        ensures fails { IfErr result (λ why. (memory.new.values.items ≡ memory.old.values.items) × WantsRoom why) }
        ensures engine { memory.new.engine ≡ memory.old.engine }
        ensures law { memory.new.law ≡ memory.old.law }
    {
        if capacity == 0 || capacity > MOST_CELLS / 2 {
            return Err(Failed::Full);
        }
        let cells = memory.cells((0u64, 0u64), 2 * capacity)?;
        let cells = Rows {
            first: number(cells[0]),
            capacity,
        };
        Ok(HashMap {
            cells,
            holds: PhantomData,
        })
    }

    /// The map whose cells have the numbers from this one on, if so many keys have room in them: there are two for each.
    pub fn at(first: u32, capacity: u32) -> Option<HashMap<V>>
        ensures { MatchOption result ((capacity ≡ 0) ⊎ (524288 < first + 2 * capacity))
            (λ map. (map.cells.first ≡ first) × (map.cells.capacity ≡ capacity)) }
    {
        if capacity == 0 || capacity > MOST_CELLS / 2 || first > MOST_CELLS - 2 * capacity {
            return None;
        }
        Some(HashMap::of_cells(Rows { first, capacity }))
    }

    /// How many keys it has room for.
    pub fn capacity(self) -> u32
        ensures { result ≡ self.cells.capacity }
    {
        self.cells.capacity
    }

    /// The value of a key, if it is there.
    pub fn get<L: Law, S: Holds<L>>(
        self,
        tx: &mut Attempt<L, S>,
        key: u64,
    ) -> Result<Option<V>, Stop>
        ensures goes { GoesOn L.holds tx.old tx.new }
        ensures stops { IfErr result (λ stop. Stops (end_of self) false tx.old tx.new stop.why) }
        ensures tells { IfOk result (λ answer. Does L.holds (end_of self) (Tells V.found self key answer)
            tx.old.attempts.caller tx.new.attempts.caller) }
        ensures together { OnOk result (StoodTogether L.holds tx.new.attempts.caller) }
        ensures may { OnOk result ((map : List Val) × MayBegin L.holds tx.new.attempts.caller map) }
    {
        let answer = self.item_by(tx, key)?;
        Ok(answer)
    }

    /// Tells whether a key is there.
    pub fn contains<L: Law, S: Holds<L>>(
        self,
        tx: &mut Attempt<L, S>,
        key: u64,
    ) -> Result<bool, Stop>
        ensures goes { GoesOn L.holds tx.old tx.new }
        ensures stops { IfErr result (λ stop. Stops (end_of self) false tx.old tx.new stop.why) }
        ensures tells { IfOk result (λ answer. Does L.holds (end_of self) (TellsIf V.found self key answer)
            tx.old.attempts.caller tx.new.attempts.caller) }
        ensures together { OnOk result (StoodTogether L.holds tx.new.attempts.caller) }
        ensures may { OnOk result ((map : List Val) × MayBegin L.holds tx.new.attempts.caller map) }
    {
        let found = self.find(tx, key)?;
        Ok(found.is_some())
    }

    /// Gives a key this value, and adds the key where it is not there.
    pub fn put<L: Law, S: Holds<L>>(
        self,
        tx: &mut Attempt<L, S>,
        key: u64,
        value: V,
    ) -> Result<Placed<V>, Stop>
        ensures goes { GoesOn L.holds tx.old tx.new }
        ensures stops { IfErr result (λ stop. Stops (end_of self) tx.old.notes tx.old tx.new stop.why) }
        ensures puts { IfOk result (λ placed. Does L.holds (end_of self) (Puts V.found self key value placed)
            tx.old.attempts.caller tx.new.attempts.caller) }
        ensures together { OnOk result (StoodTogether L.holds tx.new.attempts.caller) }
        ensures may { OnOk result ((map : List Val) × MayBegin L.holds tx.new.attempts.caller map) }
    {
        let found = self.find(tx, key)?;
        let Some(at) = found else {
            let place = self.insert(tx, key, value)?;
            return Ok(outcome(place));
        };
        let had = tx.replace(self.value_at(at), value)?;
        Ok(Placed::Instead(had))
    }

    /// Takes a key out, and answers its value, if it is there.
    pub fn remove<L: Law, S: Holds<L>>(
        self,
        tx: &mut Attempt<L, S>,
        key: u64,
    ) -> Result<Option<V>, Stop>
        ensures goes { GoesOn L.holds tx.old tx.new }
        ensures stops { IfErr result (λ stop. Stops (end_of self) tx.old.notes tx.old tx.new stop.why) }
        ensures removes { IfOk result (λ removed. Does L.holds (end_of self) (Removes V.found self key removed)
            tx.old.attempts.caller tx.new.attempts.caller) }
        ensures together { OnOk result (StoodTogether L.holds tx.new.attempts.caller) }
        ensures may { OnOk result ((map : List Val) × MayBegin L.holds tx.new.attempts.caller map) }
    {
        let found = self.get(tx, key)?;
        let Some(value) = found else {
            return Ok(None);
        };
        self.clear(tx, key)?;
        Ok(Some(value))
    }

    // The map whose cells these are.
    pub(crate) fn of_cells(cells: Rows) -> HashMap<V>
        ensures { result.cells ≡ cells }
    {
        HashMap {
            cells,
            holds: PhantomData,
        }
    }

    // The place of a key, if it is there.
    pub(crate) fn find<L: Law, S: Holds<L>>(
        self,
        tx: &mut Attempt<L, S>,
        key: u64,
    ) -> Result<Option<u32>, Stop>
        ensures goes { GoesOn L.holds tx.old tx.new }
        ensures stops { IfErr result (λ stop. Stops (end_of self) false tx.old tx.new stop.why) }
        ensures within { IfOk result (λ place. IfSome place (λ at. at < self.cells.capacity)) }
        ensures seeks { IfOk result (λ place. Does L.holds (end_of self) (Seeks self key place)
            tx.old.attempts.caller tx.new.attempts.caller) }
        ensures together { OnOk result (StoodTogether L.holds tx.new.attempts.caller) }
        ensures may { OnOk result ((map : List Val) × MayBegin L.holds tx.new.attempts.caller map) }
    {
        let place = self.find_by(tx, key)?;
        Ok(place)
    }

    // Puts a key that is not there into the first free place from its home on, and answers it.
    pub(crate) fn insert<L: Law, S: Holds<L>>(
        self,
        tx: &mut Attempt<L, S>,
        key: u64,
        value: V,
    ) -> Result<Option<u32>, Stop>
        ensures goes { GoesOn L.holds tx.old tx.new }
        ensures stops { IfErr result (λ stop. Stops (end_of self) tx.old.notes tx.old tx.new stop.why) }
        ensures within { IfOk result (λ place. IfSome place (λ at. at < self.cells.capacity)) }
        ensures inserts { IfOk result (λ place. Does L.holds (end_of self) (Inserts V.found self key value place)
            tx.old.attempts.caller tx.new.attempts.caller) }
        ensures together { OnOk result (StoodTogether L.holds tx.new.attempts.caller) }
        ensures may { OnOk result ((map : List Val) × MayBegin L.holds tx.new.attempts.caller map) }
    {
        let home = self.home(key);
        let reach = self.reach(tx, home)?;
        let free = self.free(tx, home, reach)?;
        let Some(passed) = free else {
            return Ok(None);
        };
        let at = behind(self.cells.capacity, home, passed);
        self.store(tx, at, key, value)?;
        if passed < reach {
            return Ok(Some(at));
        }
        self.set_reach(tx, home, passed + 1)?;
        Ok(Some(at))
    }

    // How far behind a home the first place is that is free for its keys, which are looked for at so many places.
    fn free<L: Law, S: Holds<L>>(
        self,
        tx: &mut Attempt<L, S>,
        home: u32,
        reach: u32,
    ) -> Result<Option<u32>, Stop>
        requires { home < self.cells.capacity }
        ensures goes { GoesOn L.holds tx.old tx.new }
        ensures stops { IfErr result (λ stop. Stops (end_of self) false tx.old tx.new stop.why) }
        ensures within { IfOk result (λ free. IfSome free (λ passed. passed < self.cells.capacity)) }
        ensures frees { IfOk result (λ free. Does L.holds (end_of self) (Frees self home reach free)
            tx.old.attempts.caller tx.new.attempts.caller) }
        ensures together { OnOk result (StillTogether L.holds tx.old.attempts.caller tx.new.attempts.caller) }
        ensures may { OnOk result (StillMay L.holds tx.old.attempts.caller tx.new.attempts.caller) }
    {
        for passed in 0..self.cells.capacity {
            let at = behind(self.cells.capacity, home, passed);
            let slot = tx.get(self.cells.slot_at(at))?;
            if self.is_free(home, passed >= reach, slot.key) {
                return Ok(Some(passed));
            }
        }
        Ok(None)
    }

    // Puts a key with its value into a place.
    fn store<L: Law, S: Holds<L>>(
        self,
        tx: &mut Attempt<L, S>,
        at: u32,
        key: u64,
        value: V,
    ) -> Result<(), Stop>
        requires { at < self.cells.capacity }
        ensures goes { GoesOn L.holds tx.old tx.new }
        ensures stops { IfErr result (λ stop. Stops (end_of self) tx.old.notes tx.old tx.new stop.why) }
        ensures stores { OnOk result (Does L.holds (end_of self) (Stores V.found self at key value)
            tx.old.attempts.caller tx.new.attempts.caller) }
        ensures together { OnOk result (StoodTogether L.holds tx.new.attempts.caller) }
        ensures may { OnOk result ((map : List Val) × MayBegin L.holds tx.new.attempts.caller map) }
    {
        tx.set(self.value_at(at), value)?;
        self.set_key(tx, at, Some(key))?;
        Ok(())
    }

    // Sets the key of a place.
    fn set_key<L: Law, S: Holds<L>>(
        self,
        tx: &mut Attempt<L, S>,
        at: u32,
        key: Option<u64>,
    ) -> Result<(), Stop>
        requires { at < self.cells.capacity }
        ensures goes { GoesOn L.holds tx.old tx.new }
        ensures stops { IfErr result (λ stop. Stops (end_of self) tx.old.notes tx.old tx.new stop.why) }
        ensures sets { OnOk result (Does L.holds (end_of self) (SetsKey self at key)
            tx.old.attempts.caller tx.new.attempts.caller) }
        ensures together { OnOk result (StoodTogether L.holds tx.new.attempts.caller) }
        ensures may { OnOk result ((map : List Val) × MayBegin L.holds tx.new.attempts.caller map) }
    {
        let _before = tx.update(self.cells.slot_at(at), |slot| Slot { key, ..slot })?;
        Ok(())
    }

    // Keys of this home are looked for at so many places.
    fn set_reach<L: Law, S: Holds<L>>(
        self,
        tx: &mut Attempt<L, S>,
        home: u32,
        far: u32,
    ) -> Result<(), Stop>
        requires home { home < self.cells.capacity }
        requires far { far ≤ self.cells.capacity }
        ensures goes { GoesOn L.holds tx.old tx.new }
        ensures stops { IfErr result (λ stop. Stops (end_of self) tx.old.notes tx.old tx.new stop.why) }
        ensures sets { OnOk result (Does L.holds (end_of self) (SetsReach self home far)
            tx.old.attempts.caller tx.new.attempts.caller) }
        ensures together { OnOk result (StoodTogether L.holds tx.new.attempts.caller) }
        ensures may { OnOk result ((map : List Val) × MayBegin L.holds tx.new.attempts.caller map) }
    {
        let _before = tx.update(self.cells.slot_at(home), |slot| Slot { reach: far, ..slot })?;
        Ok(())
    }

    // Takes a key out of each place at which it is looked for.
    pub(crate) fn clear<L: Law, S: Holds<L>>(
        self,
        tx: &mut Attempt<L, S>,
        key: u64,
    ) -> Result<(), Stop>
        ensures goes { GoesOn L.holds tx.old tx.new }
        ensures stops { IfErr result (λ stop. Stops (end_of self) tx.old.notes tx.old tx.new stop.why) }
        ensures clears { OnOk result (Does L.holds (end_of self) (ClearsAll self key)
            tx.old.attempts.caller tx.new.attempts.caller) }
        ensures together { OnOk result (StoodTogether L.holds tx.new.attempts.caller) }
        ensures may { OnOk result ((map : List Val) × MayBegin L.holds tx.new.attempts.caller map) }
    {
        let home = self.home(key);
        let reach = self.reach(tx, home)?;
        for passed in 0..reach {
            self.empty(tx, behind(self.cells.capacity, home, passed), key)?;
        }
        Ok(())
    }

    // Takes a key out of a place, if it stands there.
    fn empty<L: Law, S: Holds<L>>(
        self,
        tx: &mut Attempt<L, S>,
        at: u32,
        key: u64,
    ) -> Result<(), Stop>
        requires { at < self.cells.capacity }
        ensures goes { GoesOn L.holds tx.old tx.new }
        ensures stops { IfErr result (λ stop. Stops (end_of self) tx.old.notes tx.old tx.new stop.why) }
        ensures empties { OnOk result (Does L.holds (end_of self) (Empties self at key)
            tx.old.attempts.caller tx.new.attempts.caller) }
        ensures together { OnOk result (StoodTogether L.holds tx.new.attempts.caller) }
        ensures may { OnOk result ((map : List Val) × MayBegin L.holds tx.new.attempts.caller map) }
    {
        let slot = tx.get(self.cells.slot_at(at))?;
        if !is_key(key, slot.key) {
            return Ok(());
        }
        self.set_key(tx, at, None)?;
        Ok(())
    }

    // At how many places keys of this home are looked for.
    fn reach<L: Law, S: Holds<L>>(self, tx: &mut Attempt<L, S>, home: u32) -> Result<u32, Stop>
        requires { home < self.cells.capacity }
        ensures goes { GoesOn L.holds tx.old tx.new }
        ensures stops { IfErr result (λ stop. Stops (end_of self) false tx.old tx.new stop.why) }
        ensures most { IfOk result (λ reach. reach ≤ self.cells.capacity) }
        ensures reaches { IfOk result (λ reach. Does L.holds (end_of self) (Reaches self home reach)
            tx.old.attempts.caller tx.new.attempts.caller) }
        ensures together { OnOk result (StoodTogether L.holds tx.new.attempts.caller) }
        ensures may { OnOk result ((map : List Val) × MayBegin L.holds tx.new.attempts.caller map) }
    {
        let reach = self.reach_by(tx, home)?;
        Ok(reach)
    }

    // The place from which on a key is looked for.
    pub(crate) fn home(self, key: u64) -> u32
        ensures home { result ≡ home_in self.cells.capacity key }
        ensures within { result < self.cells.capacity }
    {
        let mixed = key.wrapping_mul(11_400_714_819_323_198_485) / 4_294_967_296;
        (mixed % u64::from(self.cells.capacity)) as u32
    }

    // Whether a place is free for keys of this home.
    fn is_free(self, home: u32, beyond: bool, held: Option<u64>) -> bool
        ensures { result ≡ is_free (home_in self.cells.capacity) home beyond held }
    {
        match held {
            Some(held) => beyond && self.home(held) == home,
            None => true,
        }
    }

    // The cell that holds the value of a place.
    pub(crate) fn value_at(self, at: u32) -> Cell<V>
        requires { at < self.cells.capacity }
        ensures { result.object ≡ self.cells.first + 2 * at + 1 }
    {
        cell(self.cells.first + 2 * at + 1)
    }
}

// Whether a place holds this key.
pub(crate) fn is_key(key: u64, held: Option<u64>) -> bool
    ensures { result ≡ is_key key held }
{
    match held {
        Some(held) => held == key,
        None => false,
    }
}

// How a key was put that was not there, by the place into which it was put.
pub(crate) fn outcome<V: Word>(place: Option<u32>) -> Placed<V>
    ensures { result ≡ outcome place }
{
    match place {
        Some(_) => Placed::New,
        None => Placed::Full,
    }
}
