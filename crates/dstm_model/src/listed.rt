//! Lists of items of one type: of any length, and of at most 8.

ghost use Rattle.std.specs.Prelude.{◌≡◌, ◌<◌, ◌≤◌, List, [], ◌∷◌, ◌++◌, length};

use arrayvec::ArrayVec;
use std::marker::Model;

/// A list of items.
#[derive(Debug, Drop)]
pub struct Listed<T> {
    pub items: Vec<T>,
}

impl<T> Model for Listed<T> {
    ghost use Rattle.std.specs.Prelude.{List};

    ghost Value = { List T };

    ghost view = { λ listed. listed.items.items };
}

impl<T> Listed<T> {
    pub fn from_vec(items: Vec<T>) -> Listed<T>
        ensures { result ≡ items.items }
    {
        Listed { items }
    }

    pub fn as_slice(&self) -> &[T]
        ensures { result.now ≡ self.now }
    {
        self.items.as_slice()
    }
}

/// At most 8 items, in order.
#[derive(Debug, Drop)]
pub struct Few<T> {
    items: ArrayVec<T, 8>,
}

impl<T> Model for Few<T> {
    ghost use Rattle.std.specs.Prelude.{List};

    ghost Value = { List T };

    ghost view = { λ few. few.items.items };
}

impl<T: Copy + Default> Few<T> {
    pub fn new() -> Few<T>
        ensures { result ≡ [] }
    {
        Few {
            items: ArrayVec::new(),
        }
    }

    pub fn push(&mut self, item: T)
        requires { length self.old < 8 }
        ensures { self.new ≡ self.old ++ item ∷ [] }
    {
        self.items.push(item);
    }

    pub fn as_slice(&self) -> &[T]
        ensures value { result.now ≡ self.now }
        ensures short { length self.now ≤ 8 }
    {
        self.items.as_slice()
    }

    /// The same items once more.
    pub fn copy(&self) -> Few<T>
        ensures { result ≡ self.now }
    {
        let mut copy = Few::new();
        for item in self.as_slice() {
            copy.push(*item);
        }
        copy
    }
}

impl<T: Copy + Default> Default for Few<T> {
    ghost is_default = { λ few. few ≡ [] };

    fn default() -> Self {
        Few::new()
    }
}
