// What a caller counts, step by step.
ghost use Rattle.std.specs.Prelude.{◌≡◌, ◌+◌};
ghost use Rattle.dstm_order.specs.Counts.{one_if};
ghost use Rattle.dstm_steps.specs.Ticks.{stands, ticked, ticked_on};

use crate::counting::Tally;
use dstm_core::Kind;
use std::marker::Model;

// A tally, kept so that a step costs one addition and one question. `past` is one less than the steps; where it begins
// anew at 0 the count is `full`. All of it counts only once an attempt has `begun`.
#[derive(Drop)]
pub(crate) struct Counter {
    past: u64,
    turns: u64,
    kills: u64,
    full: bool,
    begun: bool,
}

impl Model for Counter {
    ghost use Rattle.dstm_steps.specs.declared.counting.Tally.{Tally};
    ghost use Rattle.dstm_steps.specs.Ticks.{tallied};

    ghost Value = { Tally };

    ghost view = { tallied };
}

impl Counter {
    // A counter that has nothing to count.
    pub fn idle() -> Counter
        ensures { result ≡ record { steps = 0; turns = 0; kills = 0 } }
    {
        Counter {
            past: 0,
            turns: 0,
            kills: 0,
            full: false,
            begun: false,
        }
    }

    pub fn tally(&self) -> Tally
        ensures { result ≡ self.now }
    {
        if !self.begun {
            return Tally {
                steps: 0,
                turns: 0,
                kills: 0,
            };
        }
        Tally {
            steps: if self.full {
                u64::MAX
            } else {
                self.past.saturating_add(1)
            },
            turns: self.turns,
            kills: self.kills,
        }
    }

    // One step more. A Begin counts as the first one; before the first Begin nothing counts.
    pub fn tick(&mut self, kind: Kind, turn: bool, kills: bool)
        ensures { self.new ≡ ticked kind turn kills self.old }
    {
        if matches!(kind, Kind::Begin) {
            *self = Counter {
                past: 0,
                turns: 0,
                kills: 0,
                full: false,
                begun: true,
            };
            return;
        }
        self.more(turn, kills);
    }

    // One step more, which is no Begin.
    fn more(&mut self, turn: bool, kills: bool)
        ensures { self.new ≡ ticked_on turn kills self.old }
    {
        self.turns = one_more(self.turns, turn);
        self.kills = one_more(self.kills, kills);
        self.past = self.past.wrapping_add(1);
        if self.past == 0 {
            self.full = true;
        }
    }
}

// A count, with one more where there is one.
pub(crate) fn one_more(count: u64, more: bool) -> u64
    ensures { result ≡ stands (count + one_if more) }
{
    if more { count.saturating_add(1) } else { count }
}
