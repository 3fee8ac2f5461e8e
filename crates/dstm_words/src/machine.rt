use crate::terms::Terms;
use atomic_table::Seat;
use dstm_core::Kind;
use dstm_machines::Machine;
use dstm_model::Law;
use dstm_seats::View;
use std::marker::PhantomData;

/// DSTM under a law, as a machine that threads run on shared words.
#[derive(Drop)]
pub struct Core<L> {
    of: PhantomData<L>,
}

impl<L: Law> Machine for Core<L> {
    ghost use Rattle.dstm_core.specs.State.{LocalState};
    ghost use Rattle.dstm_core.specs.declared.shape.Shape.{Shape};
    ghost use Rattle.dstm_words.specs.Seats.{shared};
    ghost use Rattle.dstm_words.specs.Sharing.{enrolling};

    type Kind = Kind;

    type Terms = Terms<L>;

    ghost Table = { Shape };

    ghost State = { LocalState };

    ghost shared = { shared L.holds };

    ghost enrolling = { enrolling L.holds };
}

/// A seat of a table of words. It has no bytes.
pub type CoreSeat<L> = Seat<u8, View<Kind, Terms<L>>>;
