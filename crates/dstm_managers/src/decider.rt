ghost use Rattle.std.specs.Prelude.{◌≡◌, ◌+◌, ◌%◌, ◌<◌, ◌≤◌, IsTrue};
ghost use Rattle.dstm_core.specs.State.{is_live};
ghost use Rattle.dstm_core.specs.Words.{code_of};

use dstm_core::{Manager, Status};
use rand_core::SeedableRng;
use rand_core::utils::NextWord;
use rand_pcg::Lcg64Xsh32;
use std::marker::Model;

/// What an attempt does about an enemy.
#[derive(Clone, Copy, Debug, PartialEq, Eq)]
pub enum Choice {
    /// Aborts the enemy.
    Kill,
    /// Waits so many turns for the enemy to end, and then asks again.
    Wait(u32),
    /// Gives way to the enemy, and waits until it ends or gives way itself.
    GiveWay,
}

// The rounds after which Polite waits no more.
const POLITE_ROUNDS: u32 = 8;

// The turns of each wait under Karma.
const KARMA_TURNS: u32 = 4;

// The round from which on the waits under Polka grow no more.
const POLKA_ROUNDS: u32 = 8;

/// Decides about enemies as one manager does, with random words of its own.
#[derive(Drop)]
pub struct Decider {
    manager: Manager,
    generator: Lcg64Xsh32,
}

impl Model for Decider {
    ghost use Rattle.dstm_managers.specs.Choices.{DeciderState};

    ghost Value = { DeciderState };

    ghost view = { λ d. record { manager = d.manager; generator = d.generator } };
}

impl Decider {
    ghost use Rattle.dstm_managers.specs.Choices.{started, next_word, without_word, kills, choice, decider_after};

    /// A decider whose random words are those that `seed` gives.
    pub fn make(manager: Manager, seed: u64) -> Decider
        ensures { result ≡ started manager seed }
    {
        Decider {
            manager,
            generator: Lcg64Xsh32::seed_from_u64(seed),
        }
    }

    /// What an attempt of rank `own` does about an enemy of rank `enemy` that was found with this
    /// status, after `round` rounds of waiting for it. Under Greedy a rank is a stamp, and a greater
    /// one is younger; Polite looks at no rank.
    pub fn decide(&mut self, own: u64, enemy: u64, status: Status, round: u32) -> Choice
        requires live { IsTrue (is_live (code_of status)) }
        requires rounds { round ≤ 1024 }
        ensures answer { result ≡ choice self.old.manager own enemy status round (next_word self.old) }
        ensures left { self.new ≡ decider_after self.old result }
    {
        if self.kills(own, enemy, status, round) {
            return Choice::Kill;
        }
        match self.manager {
            Manager::Polite => Choice::Wait(self.random_turns(4 << round)),
            Manager::Karma => Choice::Wait(KARMA_TURNS),
            Manager::Polka => Choice::Wait(self.random_turns(1 << round.min(POLKA_ROUNDS))),
            Manager::Greedy => Choice::GiveWay,
        }
    }

    // Whether to abort the enemy.
    fn kills(&self, own: u64, enemy: u64, status: Status, round: u32) -> bool
        ensures { result ≡ kills self.now.manager own enemy status round }
    {
        match self.manager {
            Manager::Polite => POLITE_ROUNDS <= round,
            Manager::Karma | Manager::Polka => enemy < own || enemy - own < u64::from(round),
            Manager::Greedy => own < enemy || matches!(status, Status::Waiting),
        }
    }

    // A random number of turns, from 1 to `most`.
    fn random_turns(&mut self, most: u32) -> u32
        requires { 0 < most }
        ensures turns { result ≡ 1 + next_word self.old % most }
        ensures left { self.new ≡ without_word self.old }
    {
        1 + self.generator.next_word() % most
    }
}
