// What an attempt has open of each object, and where it stands.
ghost use Rattle.std.specs.Prelude.{◌≡◌, ◌≢◌, ◌⊎◌, ℕ, ◌+◌, ◌-◌, ◌^◌, ◌<◌, [], ◌∷◌, ◌++◌, length, vec_capacity};
ghost use Rattle.dstm_mem.specs.Slots.{Sort, place_at, slot_at, slot_in};

use dstm_model::Val;

/// Where an object stands in a list of reads and in one of writes: its slot plus 1, or 0. Both stand side by side, so
/// that an open touches one line of the cache.
#[derive(Clone, Copy, Debug)]
pub struct Place {
    pub read: u32,
    pub write: u32,
}

/// A slot of an object.
pub trait Slot: Copy {
    /// Which object it is of, and whether it counts.
    ghost sort: { Sort Self };

    fn object(&self) -> u32
        ensures { result ≡ sort.object self.now };
}

impl Slot for (u32, Val) {
    ghost use Rattle.dstm_mem.specs.Slots.{pairs_sort};

    ghost sort = { pairs_sort };

    fn object(&self) -> u32 {
        self.0
    }
}

/// The slot that stands at a place.
#[inline(always)]
pub fn look<S: Copy>(slots: &[S], place: u32) -> Option<S>
    requires within { place ≢ 0 → place - 1 < length slots.now }
    ensures { result ≡ slot_in slots.now place }
{
    if place == 0 {
        return None;
    }
    Some(slots[place as usize - 1])
}

/// Adds a slot behind the others, and tells its place.
#[inline(always)]
pub fn push<S: Copy>(slots: &mut Vec<S>, place: &mut u32, slot: S)
    requires room { length slots.old.items < vec_capacity slots.old }
    requires few { length slots.old.items + 1 < 2 ^ 32 }
    ensures items { slots.new.items ≡ slots.old.items ++ slot ∷ [] }
    ensures count { length slots.new.items ≡ length slots.old.items + 1 }
    ensures capacity { vec_capacity slots.new ≡ vec_capacity slots.old }
    ensures place { place.new ≡ length slots.old.items + 1 }
{
    slots.push_reserved(slot);
    *place = slots.len() as u32;
}

/// The objects of some slots stand nowhere any more.
pub fn forget<S: Slot>(places: &mut [Place], slots: &[S])
    requires below { (i : ℕ) → i < length slots.now → S.sort.object (slot_at S.sort slots.now i) < length places.old }
    ensures size { length places.new ≡ length places.old }
    ensures done { (i : ℕ) → i < length slots.now →
        ((place_at places.new (S.sort.object (slot_at S.sort slots.now i))).read ≡ 0)
        × ((place_at places.new (S.sort.object (slot_at S.sort slots.now i))).write ≡ 0) }
    ensures reads { (o : ℕ) → ((place_at places.new o).read ≡ 0)
        ⊎ ((place_at places.new o).read ≡ (place_at places.old o).read) }
    ensures writes { (o : ℕ) → ((place_at places.new o).write ≡ 0)
        ⊎ ((place_at places.new o).write ≡ (place_at places.old o).write) }
{
    for slot in slots {
        places[slot.object() as usize] = Place { read: 0, write: 0 };
    }
}
