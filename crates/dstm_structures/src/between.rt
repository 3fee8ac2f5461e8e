// What maps and sets have between runs.
ghost use Rattle.std.specs.Prelude.{◌≡◌, ◌↔◌, ◌<◌, ◌≤◌, length, map, true, Err, IfErr, IfOk, OnOk};
ghost use Rattle.dstm_cells.specs.declared.error.Failed.TheVariants as failed;
ghost use Rattle.dstm_structures.specs.Items.{AreItems, Lists};
ghost use Rattle.dstm_structures.specs.Looks.{FailsBetween};
ghost use Rattle.dstm_structures.specs.Maps.{end_of, item_of};
ghost use Rattle.dstm_structures.specs.Sets.{AreKeys, is_in};

use crate::looks::Between;
use crate::map::HashMap;
use crate::ordered::OrderedMap;
use crate::set::{OrderedSet, Present};
use dstm_cells::{Failed, Memory, Word};
use dstm_model::Law;
use std::alloc::{AllocError, Global};

impl<V: Word> HashMap<V> {
    /// What it has for a key between runs. The memory has to be the one of the map, or have as many cells.
    pub fn read<L: Law + Copy>(self, memory: &Memory<L>, key: u64) -> Result<Option<V>, Failed>
        ensures reads { IfOk result (λ answer. answer ≡ item_of V.found self memory.now.values.items key) }
        ensures foreign { result ≡ Err failed.Foreign ↔ length memory.now.values.items < end_of self }
        ensures fails { IfErr result (λ why. why ≡ failed.Foreign) }
    {
        self.lies_in(memory)?;
        let answer = self.item_by(&mut Between { memory }, key)?;
        Ok(answer)
    }

    /// All keys with their values between runs, in no order.
    pub fn read_all<L: Law + Copy>(
        self,
        memory: &Memory<L>,
        alloc: Global,
    ) -> Result<Vec<(u64, V)>, Failed>
        ensures lists { IfOk result (λ items.
            Lists V.found self items.items memory.now.values.items memory.now.values.items) }
        ensures foreign { result ≡ Err failed.Foreign ↔ length memory.now.values.items < end_of self }
        ensures fails { IfErr result (FailsBetween true (end_of self) (length memory.now.values.items)) }
    {
        self.lies_in(memory)?;
        let items = self.items_by(&mut Between { memory }, alloc)?;
        Ok(items)
    }

    // The memory has all its cells, which stand side by side: it has the last one.
    fn lies_in<L: Law + Copy>(self, memory: &Memory<L>) -> Result<(), Failed>
        ensures all { OnOk result (end_of self ≤ length memory.now.values.items) }
        ensures foreign { IfErr result (λ why. (length memory.now.values.items < end_of self) × (why ≡ failed.Foreign)) }
    {
        let _last = memory.get(self.value_at(self.cells.capacity - 1))?;
        Ok(())
    }
}

impl<V: Word> OrderedMap<V> {
    /// What it has for a key between runs. The memory has to be the one of the map, or have as many cells.
    pub fn read<L: Law + Copy>(self, memory: &Memory<L>, key: u64) -> Result<Option<V>, Failed>
        ensures reads { IfOk result (λ answer. answer ≡ item_of V.found self.map memory.now.values.items key) }
        ensures foreign { result ≡ Err failed.Foreign ↔ length memory.now.values.items < end_of self.map }
        ensures fails { IfErr result (λ why. why ≡ failed.Foreign) }
    {
        self.map.read(memory, key)
    }

    /// All keys with their values between runs, in the order of the keys.
    pub fn read_all<L: Law + Copy>(
        self,
        memory: &Memory<L>,
        alloc: Global,
    ) -> Result<Vec<(u64, V)>, Failed>
        ensures lists { IfOk result (λ items. AreItems V.found self items.items memory.now.values.items) }
        ensures foreign { result ≡ Err failed.Foreign ↔ length memory.now.values.items < end_of self.map }
        ensures fails { IfErr result (FailsBetween true (end_of self.map) (length memory.now.values.items)) }
    {
        let mut items = self.map.read_all(memory, alloc)?;
        items.sort_by_key(|item| item.0)?;
        Ok(items)
    }
}

impl OrderedSet {
    /// Tells whether a key is in the set between runs. The memory has to be the one of the set, or have as many cells.
    pub fn read<L: Law + Copy>(self, memory: &Memory<L>, key: u64) -> Result<bool, Failed>
        ensures reads { IfOk result (λ answer. answer ≡ is_in self memory.now.values.items key) }
        ensures foreign { result ≡ Err failed.Foreign ↔ length memory.now.values.items < end_of self.map.map }
        ensures fails { IfErr result (λ why. why ≡ failed.Foreign) }
    {
        let answer = self.map.read(memory, key)?;
        Ok(answer.is_some())
    }

    /// All keys between runs, in their order.
    pub fn read_all<L: Law + Copy>(
        self,
        memory: &Memory<L>,
        alloc: Global,
    ) -> Result<Vec<u64>, Failed>
        ensures lists { IfOk result (λ keys. AreKeys self keys.items memory.now.values.items) }
        ensures foreign { result ≡ Err failed.Foreign ↔ length memory.now.values.items < end_of self.map.map }
        ensures fails { IfErr result (FailsBetween true (end_of self.map.map) (length memory.now.values.items)) }
    {
        let items = self.map.read_all(memory, alloc)?;
        let keys = keys_of(alloc, &items)?;
        Ok(keys)
    }
}

// The keys of these items.
pub(crate) fn keys_of(alloc: Global, items: &[(u64, Present)]) -> Result<Vec<u64>, AllocError>
    ensures { IfOk result (λ keys. keys.items ≡ map (λ item. item.0) items.now) }
{
    items.iter().map(|item| item.0).collect(alloc)
}
