// What stands for a table in a transaction.
ghost use Rattle.std.specs.Prelude.{◌≡◌};

use dstm_model::Law;
use dstm_tables::Table;
use std::alloc::Global;
use std::sync::Arc;

/// What stands for a table in a transaction: a reference to it, or a part in it that has no lifetime.
pub trait Holds<L: Law>: Drop {
    ghost use Rattle.dstm_tables.specs.declared.tables.Table.{Table};

    /// The table that it stands for.
    ghost held: { Self → Table L };

    /// The table.
    fn table(&self) -> &Table<L>
        ensures { result.now ≡ held self.now };
}

impl<'a, L: Law> Holds<L> for &'a Table<L> {
    ghost held = { λ table. table.now };

    fn table(&self) -> &Table<L> {
        *self
    }
}

impl<L: Law> Holds<L> for Arc<Table<L>, Global> {
    ghost use Rattle.std.specs.Arc.{arc_value};

    ghost held = { λ table. arc_value table };

    fn table(&self) -> &Table<L> {
        &**self
    }
}
