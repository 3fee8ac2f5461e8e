// Where the words of a table stand.
ghost use Rattle.std.specs.Prelude.{◌≡◌, ◌≤◌, ◌+◌, ◌*◌};

use std::marker::Model;

/// How many objects a table has, with where the parts of the table begin, so that no step has to reckon it.
#[derive(Drop)]
pub struct Places {
    objects: u64,
    highs: u64,
    callers: u64,
}

impl Model for Places {
    ghost use Rattle.std.specs.Prelude.{ℕ};
    ghost use Rattle.dstm_tl2_steps.specs.Places.{KnowsParts};

    ghost Value = { ℕ };

    ghost view = { λ p. p.objects };

    ghost invariant = { KnowsParts };
}

impl Places {
    /// The places of a table of so many objects.
    pub fn of(objects: u32) -> Places
        ensures { result ≡ objects }
    {
        let objects = objects as u64;
        Places {
            objects,
            highs: 2 * objects,
            callers: 3 * objects,
        }
    }

    /// The lock word of an object.
    pub fn lock(&self, o: u32) -> u64
        ensures { result ≡ o }
    {
        // A lock word stands where its object does; the contract alone speaks of the places.
        let _ = &self.objects;
        o as u64
    }

    /// The low part of its value.
    pub fn low(&self, o: u32) -> u64
        requires few { self.now ≤ 1048576 }
        ensures { result ≡ self.now + o }
    {
        self.objects + o as u64
    }

    /// The high part of its value.
    pub fn high(&self, o: u32) -> u64
        requires few { self.now ≤ 1048576 }
        ensures { result ≡ 2 * self.now + o }
    {
        self.highs + o as u64
    }

    /// How many callers have enrolled.
    pub fn callers(&self) -> u64
        ensures { result ≡ 3 * self.now }
    {
        self.callers
    }

    /// How many numbers were drawn.
    pub fn clock(&self) -> u64
        requires few { self.now ≤ 1048576 }
        ensures { result ≡ 3 * self.now + 1 }
    {
        self.callers + 1
    }
}
