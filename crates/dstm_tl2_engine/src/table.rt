ghost use Rattle.std.specs.Prelude.{◌≡◌};
ghost use Rattle.dstm_tl2_words.specs.Seats.{Home};

use crate::stm::TlStm;
use dstm_model::Law;

/// What stands for a table in an attempt: a reference to it.
pub trait TlTable<L: Law>: Drop {
    ghost home: { Self → Home L };

    /// The table.
    fn table(&self) -> &TlStm<L>
        ensures { result.now ≡ home self.now };
}

impl<'a, L: Law> TlTable<L> for &'a TlStm<L> {
    ghost home = { λ t. t.now };

    fn table(&self) -> &TlStm<L> {
        *self
    }
}
