// Walks over the places of a map, by a transaction under way or between runs.
ghost use Rattle.std.specs.Prelude.{◌≡◌, ◌<◌, ◌≤◌, false, true, if◌then◌else◌, nat_lt, IfErr, IfOk, IfSome, OnOk};
ghost use Rattle.dstm_structures.specs.Items.{Lists, ListsPlace, Stands};
ghost use Rattle.dstm_structures.specs.Looks.{Shows, StandsSomewhere};
ghost use Rattle.dstm_structures.specs.Maps.{Reaches, Seeks, Tells, end_of};
ghost use Rattle.dstm_structures.specs.Places.{is_key};

use crate::cells::behind;
use crate::looks::Looks;
use crate::map::{HashMap, is_key};
use dstm_cells::Word;
use std::alloc::Global;

impl<V: Word> HashMap<V> {
    // The value of a key, if it is there.
    pub(crate) fn item_by<B: Looks>(self, by: &mut B, key: u64) -> Result<Option<V>, B::Err>
        ensures stays { B.Stays by.old by.new }
        ensures fails { IfErr result (B.Fails false (end_of self) by.old by.new) }
        ensures tells { IfOk result (λ answer. Shows B.Stands (λ values. Tells V.found self key answer values values) by.new) }
        ensures may { OnOk result (StandsSomewhere B.Stands B.Together by.new) }
    {
        let found = self.find_by(by, key)?;
        let Some(at) = found else {
            return Ok(None);
        };
        let value = by.look(self.value_at(at))?;
        Ok(Some(value))
    }

    // The place of a key, if it is there.
    pub(crate) fn find_by<B: Looks>(self, by: &mut B, key: u64) -> Result<Option<u32>, B::Err>
        ensures stays { B.Stays by.old by.new }
        ensures fails { IfErr result (B.Fails false (end_of self) by.old by.new) }
        ensures within { IfOk result (λ place. IfSome place (λ at. at < self.cells.capacity)) }
        ensures seeks { IfOk result (λ place. Shows B.Stands (λ values. Seeks self key place values values) by.new) }
        ensures may { OnOk result (StandsSomewhere B.Stands B.Together by.new) }
    {
        let home = self.home(key);
        let first = by.look(self.cells.slot_at(home))?;
        let reach = self.at_most(first.reach);
        if reach == 0 {
            return Ok(None);
        }
        if is_key(key, first.key) {
            return Ok(Some(home));
        }
        for passed in 1..reach {
            let at = behind(self.cells.capacity, home, passed);
            let slot = by.look(self.cells.slot_at(at))?;
            if is_key(key, slot.key) {
                return Ok(Some(at));
            }
        }
        Ok(None)
    }

    // At how many places keys of this home are looked for.
    pub(crate) fn reach_by<B: Looks>(self, by: &mut B, home: u32) -> Result<u32, B::Err>
        requires { home < self.cells.capacity }
        ensures stays { B.Stays by.old by.new }
        ensures fails { IfErr result (B.Fails false (end_of self) by.old by.new) }
        ensures most { IfOk result (λ reach. reach ≤ self.cells.capacity) }
        ensures reaches { IfOk result (λ reach. Shows B.Stands (λ values. Reaches self home reach values values) by.new) }
        ensures may { OnOk result (StandsSomewhere B.Stands B.Together by.new) }
    {
        let slot = by.look(self.cells.slot_at(home))?;
        Ok(self.at_most(slot.reach))
    }

    // So many places, where there are so many.
    fn at_most(self, places: u32) -> u32
        ensures { result ≡ (if nat_lt places self.cells.capacity then places else self.cells.capacity) }
    {
        if places < self.cells.capacity {
            places
        } else {
            self.cells.capacity
        }
    }

    // All keys with their values, place by place.
    pub(crate) fn items_by<B: Looks>(
        self,
        by: &mut B,
        alloc: Global,
    ) -> Result<Vec<(u64, V)>, B::Err>
        ensures stays { B.Stays by.old by.new }
        ensures fails { IfErr result (B.Fails true (end_of self) by.old by.new) }
        ensures lists { IfOk result (λ items. Shows B.Stands (λ values. Lists V.found self items.items values values) by.new) }
        ensures may { OnOk result (StandsSomewhere B.Stands B.Together by.new) }
    {
        let mut items = Vec::new(alloc);
        for at in 0..self.cells.capacity {
            self.list_by(by, &mut items, at)?;
        }
        Ok(items)
    }

    // Adds what is found at a place to these items.
    fn list_by<B: Looks>(self, by: &mut B, items: &mut Vec<(u64, V)>, at: u32) -> Result<(), B::Err>
        requires { at < self.cells.capacity }
        ensures stays { B.Stays by.old by.new }
        ensures fails { IfErr result (B.Fails true (end_of self) by.old by.new) }
        ensures lists { OnOk result (Shows B.Stands
            (λ values. ListsPlace V.found self at items.old.items items.new.items values values) by.new) }
        ensures may { OnOk result (StandsSomewhere B.Stands B.Together by.new) }
    {
        let found = self.stands_by(by, at)?;
        let Some(key) = found else {
            return Ok(());
        };
        let held = by.look(self.value_at(at))?;
        match items.push((key, held)) {
            Ok(()) => Ok(()),
            Err(error) => Err(B::lacks(error.into())),
        }
    }

    // The key that is found at a place, if one is.
    pub(crate) fn stands_by<B: Looks>(self, by: &mut B, at: u32) -> Result<Option<u64>, B::Err>
        requires { at < self.cells.capacity }
        ensures stays { B.Stays by.old by.new }
        ensures fails { IfErr result (B.Fails false (end_of self) by.old by.new) }
        ensures stands { IfOk result (λ key. Shows B.Stands (λ values. Stands self at key values values) by.new) }
        ensures may { OnOk result (StandsSomewhere B.Stands B.Together by.new) }
    {
        let slot = by.look(self.cells.slot_at(at))?;
        let Some(key) = slot.key else {
            return Ok(None);
        };
        let place = self.find_by(by, key)?;
        if is_at(at, place) {
            Ok(Some(key))
        } else {
            Ok(None)
        }
    }
}

// Whether this is the place.
fn is_at(at: u32, place: Option<u32>) -> bool
    ensures { result ≡ is_key at place }
{
    match place {
        Some(place) => place == at,
        None => false,
    }
}
