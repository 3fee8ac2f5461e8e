use atomic_table::Seat;
use dstm_machines::Machine;
use dstm_model::Law;
use dstm_seats::View;
use dstm_tl2::{Kind, Terms};
use std::marker::PhantomData;

/// TL2 under a law, as a machine that threads run on shared words.
#[derive(Drop)]
pub struct Tl2<L> {
    of: PhantomData<L>,
}

impl<L: Law> Machine for Tl2<L> {
    ghost use Rattle.dstm_tl2.proofs.Sharing.{enrolling};
    ghost use Rattle.dstm_tl2.specs.Sharing.{shared};
    ghost use Rattle.dstm_tl2.specs.State.{LocalState};
    ghost use Rattle.dstm_tl2.specs.Words.{Table};

    type Kind = Kind;

    type Terms = Terms<L>;

    ghost Table = { Table };

    ghost State = { LocalState };

    ghost shared = { shared L.holds };

    ghost enrolling = { enrolling L.holds };
}

/// A seat of a table of words. It has no bytes.
pub type Tl2Seat<L> = Seat<u8, View<Kind, Terms<L>>>;
