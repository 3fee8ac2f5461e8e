// A map, an ordered one and a set, by rows of calls, and beside the map of std. Each call is made on all in one transaction.
use crate::tests::plain::{Change, Part, atomically, is_so, memory_by};
use crate::tests::pools::is_a_row;
use crate::tests::queues::{draw, is_a_deque};
use dstm_cells::{Failed, GaveUp, Manager, Me, Memory, Stop, Tx};
use dstm_structures::{HashMap, Inserted, OrderedMap, OrderedSet, Placed};
use std::alloc::Global;
use std::collections::BTreeMap;
use std::test::Fail;
use std::thread::Threads;

#[derive(Clone, Copy)]
pub enum Call {
    Put(u64, u64),
    Get(u64),
    Contains(u64),
    Remove(u64),
    First,
    Last,
    Above(u64),
    Below(u64),
    Pop,
    PopLast,
    Add(u64, u64),
    Len,
}

#[derive(Clone, Copy, PartialEq)]
pub enum Answer {
    Placed(Placed<u64>),
    Value(Option<u64>),
    There(bool),
    Entry(Option<(u64, u64)>),
    Count(usize),
}

#[derive(Clone, Copy)]
pub struct Maps {
    pub hashed: HashMap<u64>,
    pub ordered: OrderedMap<u64>,
    pub set: OrderedSet,
}

pub fn maps_of(memory: &mut Memory, capacity: u32) -> Result<Maps, Failed> {
    Ok(Maps {
        hashed: HashMap::new(memory, capacity)?,
        ordered: OrderedMap::new(memory, capacity)?,
        set: OrderedSet::new(memory, capacity)?,
    })
}

fn call_ordered(tx: &mut Tx<'_>, map: OrderedMap<u64>, call: Call) -> Result<Answer, Stop> {
    match call {
        Call::Put(key, value) => Ok(Answer::Placed(map.put(tx, key, value)?)),
        Call::Get(key) => Ok(Answer::Value(map.get(tx, key)?)),
        Call::Contains(key) => Ok(Answer::There(map.contains(tx, key)?)),
        Call::Remove(key) => Ok(Answer::Value(map.remove(tx, key)?)),
        Call::First => Ok(Answer::Entry(map.first(tx)?)),
        Call::Last => Ok(Answer::Entry(map.last(tx)?)),
        Call::Above(key) => Ok(Answer::Entry(map.next_above(tx, key)?)),
        Call::Below(key) => Ok(Answer::Entry(map.next_below(tx, key)?)),
        Call::Pop => Ok(Answer::Entry(map.pop_first(tx)?)),
        Call::PopLast => Ok(Answer::Entry(map.pop_last(tx)?)),
        Call::Add(key, more) => Ok(Answer::Placed(map.update(tx, key, |had| sum(had, more))?)),
        Call::Len => Ok(Answer::Count(map.len(tx)? as usize)),
    }
}

// What a key has that had this, once so much is added.
fn sum(had: Option<u64>, more: u64) -> u64 {
    had.unwrap_or(0).wrapping_add(more)
}

// The answer of the map that has no order, which keeps the keys of the other one: that one's answer to a call of the order.
fn call_hashed(
    tx: &mut Tx<'_>,
    map: HashMap<u64>,
    call: Call,
    told: Answer,
) -> Result<Answer, Stop> {
    match (call, told) {
        (Call::Put(key, value), _) => Ok(Answer::Placed(map.put(tx, key, value)?)),
        (Call::Get(key), _) => Ok(Answer::Value(map.get(tx, key)?)),
        (Call::Contains(key), _) => Ok(Answer::There(map.contains(tx, key)?)),
        (Call::Remove(key), _) => Ok(Answer::Value(map.remove(tx, key)?)),
        (Call::Add(key, more), _) => {
            Ok(Answer::Placed(map.update(tx, key, |had| sum(had, more))?))
        }
        (Call::Pop | Call::PopLast, Answer::Entry(Some((key, _)))) => match map.remove(tx, key)? {
            Some(value) => Ok(Answer::Entry(Some((key, value)))),
            None => Ok(Answer::Entry(None)),
        },
        (Call::Len, _) => Ok(Answer::Count(map.len(tx)? as usize)),
        _ => Ok(told),
    }
}

// The answer of a set, as that of a map whose values are all 0.
fn call_set(tx: &mut Tx<'_>, set: OrderedSet, call: Call) -> Result<Answer, Stop> {
    match call {
        Call::Put(key, _) | Call::Add(key, _) => Ok(placed(set.insert(tx, key)?)),
        Call::Get(key) => Ok(value_if(set.contains(tx, key)?)),
        Call::Contains(key) => Ok(Answer::There(set.contains(tx, key)?)),
        Call::Remove(key) => Ok(value_if(set.remove(tx, key)?)),
        Call::First => Ok(entry(set.first(tx)?)),
        Call::Last => Ok(entry(set.last(tx)?)),
        Call::Above(key) => Ok(entry(set.next_above(tx, key)?)),
        Call::Below(key) => Ok(entry(set.next_below(tx, key)?)),
        Call::Pop => Ok(entry(set.pop_first(tx)?)),
        Call::PopLast => Ok(entry(set.pop_last(tx)?)),
        Call::Len => Ok(Answer::Count(set.len(tx)? as usize)),
    }
}

fn placed(inserted: Inserted) -> Answer {
    match inserted {
        Inserted::New => Answer::Placed(Placed::New),
        Inserted::There => Answer::Placed(Placed::Instead(0)),
        Inserted::Full => Answer::Placed(Placed::Full),
    }
}

fn value_if(there: bool) -> Answer {
    if there {
        Answer::Value(Some(0))
    } else {
        Answer::Value(None)
    }
}

fn entry(key: Option<u64>) -> Answer {
    match key {
        Some(key) => Answer::Entry(Some((key, 0))),
        None => Answer::Entry(None),
    }
}

// The answer of a map whose values were all 0.
fn without_values(told: Answer) -> Answer {
    match told {
        Answer::Placed(Placed::Instead(_)) => Answer::Placed(Placed::Instead(0)),
        Answer::Value(value) => value_if(value.is_some()),
        Answer::Entry(Some((key, _))) => entry(Some(key)),
        told => told,
    }
}

// Makes a call on all. They answer alike, or there is no answer.
pub fn call_all(tx: &mut Tx<'_>, maps: Maps, call: Call) -> Result<Option<Answer>, Stop> {
    let told = call_ordered(tx, maps.ordered, call)?;
    let same = call_hashed(tx, maps.hashed, call, told)? == told
        && call_set(tx, maps.set, call)? == without_values(told);
    Ok(same.then_some(told))
}

// Makes a call on all in a transaction of its own.
#[derive(Drop)]
struct Ask {
    maps: Maps,
    call: Call,
}

impl Change for Ask {
    type Answer = Option<Answer>;

    fn make(&self, tx: &mut Tx<'_>) -> Result<Option<Answer>, Stop> {
        call_all(tx, self.maps, self.call)
    }
}

/// All keys of a map with their values, in no order.
#[derive(Drop)]
struct Items {
    map: HashMap<u64>,
    alloc: Global,
}

impl Change for Items {
    type Answer = Vec<(u64, u64)>;

    fn make(&self, tx: &mut Tx<'_>) -> Result<Vec<(u64, u64)>, Stop> {
        self.map.to_vec(tx, self.alloc)
    }
}

/// All keys of an ordered map with their values.
#[derive(Drop)]
pub struct InOrder {
    pub map: OrderedMap<u64>,
    pub alloc: Global,
}

impl Change for InOrder {
    type Answer = Vec<(u64, u64)>;

    fn make(&self, tx: &mut Tx<'_>) -> Result<Vec<(u64, u64)>, Stop> {
        self.map.to_vec(tx, self.alloc)
    }
}

// The first keys above one, so many at most, of an ordered map with their values and of a set.
#[derive(Drop)]
struct Scan {
    maps: Maps,
    alloc: Global,
    key: u64,
    most: u32,
}

impl Change for Scan {
    type Answer = (Vec<(u64, u64)>, Vec<u64>);

    fn make(&self, tx: &mut Tx<'_>) -> Result<(Vec<(u64, u64)>, Vec<u64>), Stop> {
        let items = self
            .maps
            .ordered
            .list_above(tx, self.key, self.most, self.alloc)?;
        let keys = self
            .maps
            .set
            .list_above(tx, self.key, self.most, self.alloc)?;
        Ok((items, keys))
    }
}

// Maps with room for three keys are filled and read by their order.
const FILLED: [(Call, Answer); 17] = [
    (Call::Put(6, 60), Answer::Placed(Placed::New)),
    (Call::Put(u64::MAX, 7), Answer::Placed(Placed::New)),
    (Call::Put(5, 50), Answer::Placed(Placed::New)),
    (Call::Put(5, 51), Answer::Placed(Placed::Instead(50))),
    (Call::Put(1, 10), Answer::Placed(Placed::Full)),
    (Call::Get(6), Answer::Value(Some(60))),
    (Call::Contains(1), Answer::There(false)),
    (Call::Contains(u64::MAX), Answer::There(true)),
    (Call::First, Answer::Entry(Some((5, 51)))),
    (Call::Last, Answer::Entry(Some((u64::MAX, 7)))),
    (Call::Above(0), Answer::Entry(Some((5, 51)))),
    (Call::Above(5), Answer::Entry(Some((6, 60)))),
    (Call::Above(6), Answer::Entry(Some((u64::MAX, 7)))),
    (Call::Above(u64::MAX), Answer::Entry(None)),
    (Call::Below(u64::MAX), Answer::Entry(Some((6, 60)))),
    (Call::Below(6), Answer::Entry(Some((5, 51)))),
    (Call::Below(5), Answer::Entry(None)),
];

// One key is left in them.
const TAKEN: [(Call, Answer); 4] = [
    (Call::Remove(6), Answer::Value(Some(60))),
    (Call::Remove(6), Answer::Value(None)),
    (Call::Above(5), Answer::Entry(Some((u64::MAX, 7)))),
    (Call::Pop, Answer::Entry(Some((5, 51)))),
];

// They are emptied.
const EMPTIED: [(Call, Answer); 4] = [
    (Call::Pop, Answer::Entry(Some((u64::MAX, 7)))),
    (Call::Pop, Answer::Entry(None)),
    (Call::First, Answer::Entry(None)),
    (Call::Last, Answer::Entry(None)),
];

const THREE_ITEMS: [(u64, u64); 3] = [(5, 51), (6, 60), (u64::MAX, 7)];

const LAST_ITEM: [(u64, u64); 1] = [(u64::MAX, 7)];

// Makes calls, and tells whether they are answered so, and whether these are the keys and values that are there then.
#[derive(Drop)]
struct Rows<'a> {
    maps: Maps,
    alloc: Global,
    rows: &'a [(Call, Answer)],
    left: &'a [(u64, u64)],
}

impl Part for Rows<'_> {
    type Answer = bool;

    fn play(&self, me: &mut Me<'_>, _number: usize) -> Result<bool, GaveUp> {
        let maps = self.maps;
        for (call, wanted) in self.rows {
            let call = *call;
            if atomically(me, &Ask { maps, call })? != Some(*wanted) {
                return Ok(false);
            }
        }
        has_these(me, maps, self.alloc, self.left)
    }
}

// Whether a map in order has these, and the others as many, or the same where that is one at most.
fn has_these(
    me: &mut Me<'_>,
    maps: Maps,
    alloc: Global,
    left: &[(u64, u64)],
) -> Result<bool, GaveUp> {
    let call = Call::Len;
    let count = atomically(me, &Ask { maps, call })?;
    let map = maps.ordered;
    let sorted = atomically(me, &InOrder { map, alloc })?;
    let map = maps.hashed;
    let items = atomically(me, &Items { map, alloc })?;
    let same = count == Some(Answer::Count(left.len()));
    Ok(same && sorted.as_slice() == left && (left.len() > 1 || items.as_slice() == left))
}

// What is read of a key between runs.
fn read(memory: &Memory, maps: Maps, key: u64) -> Result<(Option<u64>, Option<u64>, bool), Failed> {
    let hashed = maps.hashed.read(memory, key)?;
    let ordered = maps.ordered.read(memory, key)?;
    let set = maps.set.read(memory, key)?;
    Ok((hashed, ordered, set))
}

// Whether three keys are read between runs.
fn are_read(memory: &Memory, maps: Maps, alloc: Global) -> Result<bool, Failed> {
    let keys = maps.set.read_all(memory, alloc)?;
    let sorted = maps.ordered.read_all(memory, alloc)?;
    let six = read(memory, maps, 6)?;
    let one = read(memory, maps, 1)?;
    Ok(
        six == (Some(60), Some(60), true)
            && one == (None, None, false)
            && keys.as_slice() == [5, 6, u64::MAX].as_slice()
            && sorted.as_slice() == THREE_ITEMS.as_slice(),
    )
}

// Whether one is read between runs.
fn is_read(memory: &Memory, maps: Maps, alloc: Global) -> Result<bool, Failed> {
    let items = maps.hashed.read_all(memory, alloc)?;
    Ok(items.as_slice() == LAST_ITEM.as_slice())
}

impl<'a> Rows<'a> {
    fn of(
        maps: Maps,
        alloc: Global,
        rows: &'a [(Call, Answer)],
        left: &'a [(u64, u64)],
    ) -> Rows<'a> {
        Rows {
            maps,
            alloc,
            rows,
            left,
        }
    }
}

// Whether maps of three keys are filled, read and emptied so.
fn of_three_keys<R: Threads + Sync>(
    rt: &R,
    alloc: Global,
    memory: &mut Memory,
) -> Result<bool, Failed> {
    let maps = maps_of(memory, 3)?;
    let room = maps.hashed.capacity() == 3 && maps.ordered.capacity() == 3;
    Ok(
        room && maps.set.capacity() == 3
            && is_so(rt, memory, &Rows::of(maps, alloc, &[], &[]))?
            && is_so(rt, memory, &Rows::of(maps, alloc, &FILLED, &THREE_ITEMS))?
            && are_read(memory, maps, alloc)?
            && is_so(rt, memory, &Rows::of(maps, alloc, &TAKEN, &LAST_ITEM))?
            && is_read(memory, maps, alloc)?
            && is_so(rt, memory, &Rows::of(maps, alloc, &EMPTIED, &[]))?,
    )
}

#[test]
fn maps_of_three_keys(rt: HostRuntime) -> Result<(), Fail> {
    let alloc = rt.alloc();
    assert!(rt; of_three_keys(&rt, alloc, &mut memory_by(alloc, None))?);
    let by = Some(Manager::Polka);
    assert!(rt; of_three_keys(&rt, alloc, &mut memory_by(alloc, by))?);
    Ok(())
}

// Whether maps of this memory are foreign to another one.
fn are_foreign(alloc: Global, memory: &mut Memory) -> Result<bool, Failed> {
    let maps = maps_of(memory, 5)?;
    let other = Memory::new(alloc);
    Ok(
        matches!(maps.hashed.read(&other, 7), Err(Failed::Foreign))
            && matches!(maps.ordered.read_all(&other, alloc), Err(Failed::Foreign)),
    )
}

#[test]
fn maps_of_another_memory_are_foreign(rt: HostRuntime) -> Result<(), Fail> {
    let alloc = rt.alloc();
    assert!(rt; are_foreign(alloc, &mut memory_by(alloc, None))?);
    let by = Some(Manager::Polka);
    assert!(rt; are_foreign(alloc, &mut memory_by(alloc, by))?);
    Ok(())
}

// A small key, or one that has its bits high up.
fn key_of(drawn: u64) -> u64 {
    let small = drawn / 2 % 20;
    if drawn % 2 == 0 {
        small
    } else {
        u64::MAX - small * 900_000_000_000_000_000
    }
}

fn call_of(drawn: u64) -> Call {
    let key = key_of(drawn / 20);
    match drawn % 20 {
        0..=5 => Call::Put(key, drawn),
        6..=8 => Call::Remove(key),
        9 | 10 => Call::Above(key),
        11 | 12 => Call::Below(key),
        13 => Call::Contains(key),
        14 => Call::First,
        15 => Call::Last,
        16 => Call::Pop,
        17 => Call::PopLast,
        18 => Call::Add(key, drawn),
        _ if drawn / 40 % 2 == 0 => Call::Get(key),
        _ => Call::Len,
    }
}

// Puts a key into a map of std that is to have room for so many.
fn place(
    plain: &mut BTreeMap<u64, u64>,
    key: u64,
    value: u64,
    room: u32,
) -> Result<Placed<u64>, GaveUp> {
    let placed = match plain.get(&key).copied() {
        Some(had) => Placed::Instead(had),
        None if plain.len() == room as usize => return Ok(Placed::Full),
        None => Placed::New,
    };
    match plain.insert(key, value) {
        Ok(_) => Ok(placed),
        Err(_) => Err(GaveUp::Memory),
    }
}

// The first key from this one on, with its value.
fn first_from(plain: &BTreeMap<u64, u64>, least: u64) -> Option<(u64, u64)> {
    for (key, value) in plain {
        if *key >= least {
            return Some((*key, *value));
        }
    }
    None
}

// The last key up to this one, with its value.
fn last_up_to(plain: &BTreeMap<u64, u64>, greatest: u64) -> Option<(u64, u64)> {
    let mut last = None;
    for (key, value) in plain {
        if *key <= greatest {
            last = Some((*key, *value));
        }
    }
    last
}

// Takes this key out, and answers it.
fn popped(plain: &mut BTreeMap<u64, u64>, entry: Option<(u64, u64)>) -> Option<(u64, u64)> {
    if let Some((key, _)) = entry {
        let _value = plain.remove(&key);
    }
    entry
}

// What a map of std answers that is to have room for so many keys.
pub fn expected(plain: &mut BTreeMap<u64, u64>, call: Call, room: u32) -> Result<Answer, GaveUp> {
    match call {
        Call::Put(key, value) => Ok(Answer::Placed(place(plain, key, value, room)?)),
        Call::Get(key) => Ok(Answer::Value(plain.get(&key).copied())),
        Call::Contains(key) => Ok(Answer::There(plain.contains_key(&key))),
        Call::Remove(key) => Ok(Answer::Value(plain.remove(&key))),
        Call::First => Ok(Answer::Entry(first_from(plain, 0))),
        Call::Last => Ok(Answer::Entry(last_up_to(plain, u64::MAX))),
        Call::Above(u64::MAX) => Ok(Answer::Entry(None)),
        Call::Above(key) => Ok(Answer::Entry(first_from(plain, key + 1))),
        Call::Below(0) => Ok(Answer::Entry(None)),
        Call::Below(key) => Ok(Answer::Entry(last_up_to(plain, key - 1))),
        Call::Pop => {
            let first = first_from(plain, 0);
            Ok(Answer::Entry(popped(plain, first)))
        }
        Call::PopLast => {
            let last = last_up_to(plain, u64::MAX);
            Ok(Answer::Entry(popped(plain, last)))
        }
        Call::Add(key, more) => {
            let value = sum(plain.get(&key).copied(), more);
            Ok(Answer::Placed(place(plain, key, value, room)?))
        }
        Call::Len => Ok(Answer::Count(plain.len())),
    }
}

// Maps with room for twelve keys, and how often they are taken through fifty calls.
#[derive(Drop)]
struct BesideStd {
    maps: Maps,
    alloc: Global,
    rounds: u32,
}

// Whether a map of std has these items and no others.
pub fn has_items(plain: &BTreeMap<u64, u64>, items: &[(u64, u64)]) -> bool {
    let mut rest = items.iter();
    for (key, value) in plain {
        match rest.next() {
            Some(item) if *item == (*key, *value) => {}
            _ => return false,
        }
    }
    rest.next().is_none()
}

impl BesideStd {
    // Fifty calls on the empty maps, and twelve that empty them; and whether all are answered as by the map of std, and the maps
    // have its items behind the fiftieth.
    fn once(&self, me: &mut Me<'_>, seed: &mut u64) -> Result<bool, GaveUp> {
        let mut plain = BTreeMap::new(self.alloc);
        let mut alike = true;
        for _ in 0..50u32 {
            alike &= self.are_alike(me, &mut plain, call_of(draw(seed)))?;
        }
        alike &= self.have_items(me, &plain)?;
        for _ in 0..12u32 {
            alike &= self.are_alike(me, &mut plain, Call::Pop)?;
        }
        Ok(alike && plain.is_empty())
    }

    // Whether the maps answer a call as that of std.
    fn are_alike(
        &self,
        me: &mut Me<'_>,
        plain: &mut BTreeMap<u64, u64>,
        call: Call,
    ) -> Result<bool, GaveUp> {
        let maps = self.maps;
        let told = atomically(me, &Ask { maps, call })?;
        Ok(told == Some(expected(plain, call, 12)?))
    }

    // Whether the maps have the items of that of std: the ordered one in their order, and the other one in some order.
    fn have_items(&self, me: &mut Me<'_>, plain: &BTreeMap<u64, u64>) -> Result<bool, GaveUp> {
        let alloc = self.alloc;
        let map = self.maps.ordered;
        let sorted = atomically(me, &InOrder { map, alloc })?;
        let map = self.maps.hashed;
        let mut items = atomically(me, &Items { map, alloc })?;
        if items.sort().is_err() {
            return Err(GaveUp::Memory);
        }
        Ok(
            has_items(plain, &sorted)
                && has_items(plain, &items)
                && self.have_pages(me, sorted.as_slice())?,
        )
    }

    // Whether the first four keys above the second one are listed so, and all above it, of a map that has these items.
    fn have_pages(&self, me: &mut Me<'_>, items: &[(u64, u64)]) -> Result<bool, GaveUp> {
        let [_, second, rest @ ..] = items else {
            return Ok(true);
        };
        Ok(self.is_page(me, second.0, 4, rest)? && self.is_page(me, second.0, 12, rest)?)
    }

    // Whether these are the items above a key, and as many of them are listed as are asked for.
    fn is_page(
        &self,
        me: &mut Me<'_>,
        key: u64,
        most: u32,
        items: &[(u64, u64)],
    ) -> Result<bool, GaveUp> {
        let scan = Scan {
            maps: self.maps,
            alloc: self.alloc,
            key,
            most,
        };
        let (listed, keys) = atomically(me, &scan)?;
        let count = items.len().min(most as usize);
        Ok(listed.as_slice() == &items[..count] && are_keys_of(&keys, &items[..count]))
    }
}

// Whether these are the keys of these items.
fn are_keys_of(keys: &[u64], items: &[(u64, u64)]) -> bool {
    let mut rest = keys.iter();
    for item in items {
        match rest.next() {
            Some(key) if *key == item.0 => {}
            _ => return false,
        }
    }
    rest.next().is_none()
}

impl Part for BesideStd {
    type Answer = bool;

    fn play(&self, me: &mut Me<'_>, _number: usize) -> Result<bool, GaveUp> {
        let mut seed = 1;
        let mut alike = true;
        for _ in 0..self.rounds {
            alike &= self.once(me, &mut seed)?;
        }
        Ok(alike)
    }
}

// Whether maps do what that of std does, in so many rounds.
fn are_as_std<R: Threads + Sync>(
    rt: &R,
    alloc: Global,
    memory: &mut Memory,
    rounds: u32,
) -> Result<bool, Failed> {
    let maps = maps_of(memory, 12)?;
    let part = BesideStd {
        maps,
        alloc,
        rounds,
    };
    is_so(rt, memory, &part)
}

// Maps beside that of std, a queue beside its deque, and a pool beside a row.
#[test]
fn structures_do_what_those_of_std_do(rt: HostRuntime) -> Result<(), Fail> {
    let alloc = rt.alloc();
    assert!(rt; are_as_std(&rt, alloc, &mut memory_by(alloc, None), 2_000)?);
    assert!(rt; is_a_deque(&rt, alloc, &mut memory_by(alloc, None), 2_000)?);
    assert!(rt; is_a_row(&rt, &mut memory_by(alloc, None), 2_000)?);
    let by = Some(Manager::Karma);
    assert!(rt; are_as_std(&rt, alloc, &mut memory_by(alloc, by), 200)?);
    assert!(rt; is_a_deque(&rt, alloc, &mut memory_by(alloc, by), 200)?);
    assert!(rt; is_a_row(&rt, &mut memory_by(alloc, by), 200)?);
    Ok(())
}

#[test]
fn maps_have_from_one_key_on(rt: HostRuntime) -> Result<(), Fail> {
    let mut memory = Memory::new(rt.alloc());
    let hashed: Result<HashMap<u64>, Failed> = HashMap::new(&mut memory, 0);
    let ordered: Result<OrderedMap<u64>, Failed> = OrderedMap::new(&mut memory, 0);
    assert!(rt; matches!(hashed, Err(Failed::Full)));
    assert!(rt; matches!(ordered, Err(Failed::Full)));
    Ok(())
}
