// Where the words of a table stand.
ghost use Rattle.std.specs.Prelude.{◌≡◌, ◌<◌, ◌*◌};
ghost use Rattle.dstm_core.specs.Words.{place, IsValid};
ghost use Rattle.dstm_core.specs.Words.Word.{
  ObjectWord,
  StatusWord,
  RankWord,
  OwnerWord,
  OldWord,
  LowWord,
  HighWord,
  NumbersWord,
  StampsWord,
};

use dstm_core::{Manager, Shape};
use std::marker::Model;

/// A shape, with where the parts of its table begin, so that no step has to reckon it.
#[derive(Drop)]
pub struct Places {
    shape: Shape,
    ranks: u64,
    owners: u64,
    olds: u64,
    lows: u64,
    highs: u64,
    numbers: u64,
}

impl Model for Places {
    ghost use Rattle.dstm_core.specs.declared.shape.Shape.{Shape};
    ghost use Rattle.dstm_steps.specs.Places.{KnowsParts};

    ghost Value = { Shape };

    ghost view = { λ p. p.shape };

    ghost invariant = { KnowsParts };
}

impl Places {
    /// The places of this shape's table.
    pub fn of(shape: Shape) -> Places
        requires { IsValid shape }
        ensures { result ≡ shape }
    {
        let attempts = u64::from(shape.callers) * u64::from(shape.attempts);
        let locators = u64::from(shape.callers) * u64::from(shape.locators);
        let ranks = u64::from(shape.objects) + attempts;
        let owners = ranks + attempts;
        let olds = owners + locators;
        let lows = olds + locators;
        let highs = lows + locators;
        Places {
            shape,
            ranks,
            owners,
            olds,
            lows,
            highs,
            numbers: highs + locators + 1,
        }
    }

    pub fn shape(&self) -> Shape
        ensures { result ≡ self.now }
    {
        self.shape
    }

    pub fn manager(&self) -> Manager
        ensures { result ≡ self.now.manager }
    {
        self.shape.manager
    }

    /// The place of object `o`.
    pub fn object(&self, o: u32) -> u64
        requires valid { IsValid self.now }
        requires below { o < self.now.objects }
        ensures { result ≡ place self.now (ObjectWord o) }
    {
        u64::from(o)
    }

    /// The place of the status of attempt `a`.
    pub fn status(&self, a: u32) -> u64
        requires valid { IsValid self.now }
        requires below { a < self.now.callers * self.now.attempts }
        ensures { result ≡ place self.now (StatusWord a) }
    {
        u64::from(self.shape.objects) + u64::from(a)
    }

    /// The place of the rank of attempt `a`.
    pub fn rank(&self, a: u32) -> u64
        requires valid { IsValid self.now }
        requires below { a < self.now.callers * self.now.attempts }
        ensures { result ≡ place self.now (RankWord a) }
    {
        self.ranks + u64::from(a)
    }

    /// The place of the owner of locator `l`.
    pub fn owner(&self, l: u32) -> u64
        requires valid { IsValid self.now }
        requires below { l < self.now.callers * self.now.locators }
        ensures { result ≡ place self.now (OwnerWord l) }
    {
        self.owners + u64::from(l)
    }

    /// The place of the old version of locator `l`.
    pub fn old_cell(&self, l: u32) -> u64
        requires valid { IsValid self.now }
        requires below { l < self.now.callers * self.now.locators }
        ensures { result ≡ place self.now (OldWord l) }
    {
        self.olds + u64::from(l)
    }

    /// The place of the low part of the new version of locator `l`.
    pub fn new_cell(&self, l: u32) -> u64
        requires valid { IsValid self.now }
        requires below { l < self.now.callers * self.now.locators }
        ensures { result ≡ place self.now (LowWord l) }
    {
        self.lows + u64::from(l)
    }

    /// The place of the high part of the new version of locator `l`.
    pub fn high_cell(&self, l: u32) -> u64
        requires valid { IsValid self.now }
        requires below { l < self.now.callers * self.now.locators }
        ensures { result ≡ place self.now (HighWord l) }
    {
        self.highs + u64::from(l)
    }

    /// The place of the word that counts the numbers drawn.
    pub fn numbers_place(&self) -> u64
        requires { IsValid self.now }
        ensures { result ≡ place self.now NumbersWord }
    {
        self.numbers
    }

    /// The place of the word that counts the stamps drawn.
    pub fn stamps_place(&self) -> u64
        requires { IsValid self.now }
        ensures { result ≡ place self.now StampsWord }
    {
        self.numbers + 1
    }
}
