ghost use Rattle.std.specs.Prelude.{◌≡◌, ℕ, ◌<◌, ◌↔◌, List, length, Bool, IsTrue, false, Option, Some};
ghost use Rattle.std.specs.Prelude.{IfOk, OnOk, IfErr, slice_set};
ghost use Rattle.std.specs.Option.{option_or};
ghost use Rattle.dstm_model.specs.declared.value.Val.{Val};
ghost use Rattle.dstm_model.specs.Map.{value_at};
ghost use Rattle.dstm_mem.specs.Memory.{AgreesWith, HoldsAlso, SetsOnly, MarksAtMost, with_set};

use dstm_model::Val;

/// What a body works on: a number of objects, each with a value. A memory is live until a call on it
/// answers an error.
pub trait Mem {
    /// Why a call gave up.
    type Err;

    /// What tells one memory from another.
    ghost Place: { Type 0 };

    /// Which memory it is.
    ghost place: { Self → Self.Place };

    /// The memory in this place opens an object for writing also where it is opened for reading.
    ghost all_write: { Self.Place → Bool };

    /// How many objects there are.
    ghost objects: { Self → ℕ };

    /// The reads so far: the value that was found for an object.
    ghost held: { Self → ℕ → Option Val };

    /// The writes so far: the value that was last set for an object.
    ghost written: { Self → ℕ → Option Val };

    /// The object is opened for writing.
    ghost is_opened: { Self → ℕ → Bool };

    /// No call answered an error.
    ghost is_live: { Self → Bool };

    /// The error that a call answered.
    ghost error: { Self → Option Self.Err };

    /// The memory may stand for this map, the value of object `o` at place `o`.
    ghost Admits: { Self → List Val → Type 0 };

    /// Opens an object for reading: answers the value last set, or else the one that is held. In each admitted map
    /// with what is set this is the object's value.
    fn open_read(&mut self, o: u32) -> Result<Val, Self::Err>
        requires exists { o < objects self.old }
        requires live { IsTrue (is_live self.old) }

        ensures found { IfOk result (λ v. (map : List Val) → Admits self.new map →
            value_at (with_set map (written self.new)) o ≡ v) }
        ensures unchanged { OnOk result ((map : List Val) →
            with_set map (written self.new) ≡ with_set map (written self.old)) }
        ensures value { IfOk result (λ v. Some v ≡ option_or (written self.new o) (held self.new o)) }
        ensures held { OnOk result (HoldsAlso o (held self.old) (held self.new)) }
        ensures written { OnOk result ((p : ℕ) → written self.new p ≡ written self.old p) }
        ensures opened { OnOk result (MarksAtMost o (is_opened self.old) (is_opened self.new)) }
        ensures unmarked { OnOk result (all_write (place self.old) ≡ false →
            (p : ℕ) → is_opened self.new p ≡ is_opened self.old p) }

        ensures place { place self.new ≡ place self.old }
        ensures objects { objects self.new ≡ objects self.old }
        ensures narrows { (map : List Val) → Admits self.new map → Admits self.old map }
        ensures admits { OnOk result ((map : List Val) × Admits self.new map) }
        ensures live { OnOk result (IsTrue (is_live self.new)) }
        ensures ended { IfErr result (λ e. (is_live self.new ≡ false) × (error self.new ≡ Some e)) };

    /// Opens an object for reading and writing, with the same answer.
    fn open_write(&mut self, o: u32) -> Result<Val, Self::Err>
        requires exists { o < objects self.old }
        requires live { IsTrue (is_live self.old) }

        ensures found { IfOk result (λ v. (map : List Val) → Admits self.new map →
            value_at (with_set map (written self.new)) o ≡ v) }
        ensures unchanged { OnOk result ((map : List Val) →
            with_set map (written self.new) ≡ with_set map (written self.old)) }
        ensures value { IfOk result (λ v. Some v ≡ option_or (written self.new o) (held self.new o)) }
        ensures held { OnOk result (HoldsAlso o (held self.old) (held self.new)) }
        ensures written { OnOk result ((p : ℕ) → written self.new p ≡ written self.old p) }
        ensures opened { OnOk result (MarksAtMost o (is_opened self.old) (is_opened self.new)) }
        ensures opens { OnOk result (IsTrue (is_opened self.new o)) }

        ensures place { place self.new ≡ place self.old }
        ensures objects { objects self.new ≡ objects self.old }
        ensures narrows { (map : List Val) → Admits self.new map → Admits self.old map }
        ensures admits { OnOk result ((map : List Val) × Admits self.new map) }
        ensures live { OnOk result (IsTrue (is_live self.new)) }
        ensures ended { IfErr result (λ e. (is_live self.new ≡ false) × (error self.new ≡ Some e)) };

    /// Sets the value of an object that is opened for writing: it replaces the one in each map with what is set.
    fn set(&mut self, o: u32, v: Val)
        requires exists { o < objects self.old }
        requires live { IsTrue (is_live self.old) }
        requires opened { IsTrue (is_opened self.old o) }

        ensures puts { (map : List Val) →
            with_set map (written self.new) ≡ slice_set (with_set map (written self.old)) o v }
        ensures written { SetsOnly o v (written self.old) (written self.new) }
        ensures held { (p : ℕ) → held self.new p ≡ held self.old p }
        ensures opened { (p : ℕ) → is_opened self.new p ≡ is_opened self.old p }

        ensures place { place self.new ≡ place self.old }
        ensures objects { objects self.new ≡ objects self.old }
        ensures admits { (map : List Val) → Admits self.new map ↔ Admits self.old map }
        ensures live { IsTrue (is_live self.new) };

    /// Admitted maps have the memory's objects.
    ghost admitted_length: { (s : Self) (map : List Val) → Admits s map → length map ≡ objects s };

    /// Admitted maps have every value that is held.
    ghost admitted_agrees: { (s : Self) (map : List Val) → Admits s map → AgreesWith map (held s) };
}
