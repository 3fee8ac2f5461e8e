// What a seat knows, and the rule over what all seats know.
ghost use Rattle.std.specs.Prelude.{◌≡◌, ℕ, IfSome};

use atomic_table::{Join, Play, Seat, Split, TableRule};
use dstm_machines::{Event, Machine};
use std::collections::LinkedList;
use std::marker::{Brand, PhantomData};

/// What a seat knows, where events are for `K` and a table is told `T`. No value of it is made.
pub struct View<K, T> {
    /// What the table was told. None in a view that is spent.
    pub terms: Option<T>,
    /// The events that it has seen, the newest first.
    pub log: LinkedList<Event<K>>,
    /// The number of its caller, once this has enrolled.
    pub number: Option<u32>,
    /// Its number and those of the seats that were joined to it.
    pub numbers: LinkedList<u32>,
    /// How many callers may enrol by it, or by seats that are split from it.
    pub enrolments: u64,
    /// It is the seat that came with the table.
    pub first: bool,
    /// How many seats were split from it and not joined to it.
    pub out: u64,
    /// 1 for a seat that was split from the first one and not joined to it.
    pub apart: u64,
    /// What the seats of the last join had seen, until the next step.
    pub olds: LinkedList<Old<K>>,
}

/// What a seat had seen, and its numbers.
pub struct Old<K> {
    pub numbers: LinkedList<u32>,
    pub log: LinkedList<Event<K>>,
}

/// The kind of event that a step makes. The call that takes the step picks it.
pub trait Told<K> {
    ghost use Rattle.std.specs.Prelude.{Option};

    ghost kind: { Option K };
}

// What stands for the kind that a call picks, before it picks one.
impl<K> Told<K> for Brand {
    ghost use Rattle.std.specs.Prelude.{None};

    ghost kind = { None };
}

/// The rule of a table of words of a machine.
pub struct MachineRule<M> {
    of: PhantomData<M>,
}

impl<M: Machine> TableRule<u8, View<M::Kind, M::Terms>, M::Terms> for MachineRule<M> {
    ghost use Rattle.dstm_seats.specs.Rule.{Kept};
    ghost use Rattle.dstm_seats.specs.Seats.{founder};

    ghost holds = { Kept M.shared };

    ghost first = { founder M.shared };
}

/// A load.
pub struct Loads<M, J> {
    of: PhantomData<(M, J)>,
}

impl<M: Machine, J: Told<M::Kind>> Play<u8, View<M::Kind, M::Terms>> for Loads<M, J> {
    ghost use Rattle.dstm_machines.specs.Traces.Access.{Load};
    ghost use Rattle.dstm_seats.specs.Seats.{Makes};

    ghost then = { λ s m found n. (n.1 ≡ m.1)
        × IfSome J.kind (λ kind. Makes M.shared m.0 Load kind s.word found n.0) };
}

/// A store, which does not tell what it found.
pub struct Stores<M, J> {
    of: PhantomData<(M, J)>,
}

impl<M: Machine, J: Told<M::Kind>> Play<u8, View<M::Kind, M::Terms>> for Stores<M, J> {
    ghost use Rattle.dstm_machines.specs.Traces.Access.{Store};
    ghost use Rattle.dstm_seats.specs.Seats.{Makes};

    ghost then = { λ s m put n. (n.1 ≡ m.1)
        × IfSome J.kind (λ kind. (found : ℕ) × Makes M.shared m.0 (Store s.first) kind s.word found n.0) };
}

/// An exchange, whether it succeeds or fails.
pub struct Exchanges<M, J> {
    of: PhantomData<(M, J)>,
}

impl<M: Machine, J: Told<M::Kind>> Play<u8, View<M::Kind, M::Terms>> for Exchanges<M, J> {
    ghost use Rattle.dstm_machines.specs.Traces.Access.{Exchange};
    ghost use Rattle.dstm_seats.specs.Seats.{Makes};

    ghost then = { λ s m found n. (n.1 ≡ m.1)
        × IfSome J.kind (λ kind. Makes M.shared m.0 (Exchange s.first s.second) kind s.word found n.0) };
}

/// An add.
pub struct Adders<M, J> {
    of: PhantomData<(M, J)>,
}

impl<M: Machine, J: Told<M::Kind>> Play<u8, View<M::Kind, M::Terms>> for Adders<M, J> {
    ghost use Rattle.dstm_machines.specs.Traces.Access.{Add};
    ghost use Rattle.dstm_seats.specs.Seats.{Makes};

    ghost then = { λ s m found n. (n.1 ≡ m.1)
        × IfSome J.kind (λ kind. Makes M.shared m.0 Add kind s.word found n.0) };
}

/// The meet after a join: a load that is no event.
pub struct Meeting<M> {
    of: PhantomData<M>,
}

impl<M: Machine> Play<u8, View<M::Kind, M::Terms>> for Meeting<M> {
    ghost use Rattle.dstm_seats.specs.Seats.{Meets};

    ghost then = { λ s m found n. (n.1 ≡ m.1) × Meets M.shared m.0 n.0 };
}

/// How seats are split and joined.
pub struct Parting;

impl<K, T> Split<View<K, T>> for Parting {
    ghost use Rattle.dstm_seats.specs.Seats.{kept_part, given_part};

    ghost left = { kept_part };

    ghost right = { given_part };
}

impl<K, T> Join<View<K, T>> for Parting {
    ghost use Rattle.dstm_seats.specs.Seats.{joined, nobody};

    ghost both = { joined };

    ghost spent = { nobody };
}

/// A seat of a table of words. It has no bytes.
pub type MachineSeat<M> = Seat<u8, View<<M as Machine>::Kind, <M as Machine>::Terms>>;
