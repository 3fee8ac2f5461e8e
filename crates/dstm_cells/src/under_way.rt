// A transaction under way: what its closure is given.
ghost use Rattle.std.specs.Prelude.{◌≡◌};
ghost use Rattle.dstm_tables.specs.Callers.{home_of};

use crate::holds::Holds;
use dstm_attempts::Attempts;
use dstm_model::{AnyLaw, Law, Val};
use dstm_tables::Table;

// What an object had before an alternative set it.
#[derive(Clone, Copy, Debug)]
pub struct Undo {
    pub object: u32,
    pub value: Val,
}

/// A transaction under way, on a memory under a law. `S` stands for the table of the memory.
#[derive(Drop)]
pub struct Attempt<L: Law, S: Holds<L>> {
    pub(crate) attempts: Attempts<L>,
    pub(crate) table: S,
    pub(crate) undos: Vec<Undo>,
    // It is in an alternative which may yet be undone, and notes what it sets.
    pub(crate) notes: bool,
    pub(crate) looks: u32,
    ghost home: { home_of attempts.caller ≡ S.held table },
}

/// A transaction under way on a table that it borrows: what a closure is given.
pub type Tx<'a, L = AnyLaw> = Attempt<L, &'a Table<L>>;
