use dstm_core::{MAX_RANK, Manager, Status};
use dstm_managers::{Choice, Decider};

#[test]
fn choices(rt: HostRuntime) {
    use Choice::{GiveWay, Kill, Wait};
    use Manager::{Greedy, Karma, Polite, Polka};
    use Status::{Active, Validating, Waiting};

    // The manager, the own rank, the enemy's rank and status, the rounds waited, and the choice. The words
    // of seed 0 begin with 298703107.
    let rows = [
        (Polite, 0, 0, Active, 8, Kill),
        (Polite, 0, 0, Validating, 1024, Kill),
        (Polite, 0, 0, Active, 7, Wait(260)),
        (Karma, 3, 3, Active, 0, Wait(4)),
        (Karma, 4, 3, Active, 0, Kill),
        (Karma, 3, 5, Validating, 2, Wait(4)),
        (Karma, 3, 5, Validating, 3, Kill),
        (Karma, 0, MAX_RANK, Active, 1023, Wait(4)),
        (Karma, 0, MAX_RANK, Active, 1024, Kill),
        (Polka, 2, 2, Active, 0, Wait(1)),
        (Polka, 3, 2, Active, 0, Kill),
        (Polka, 0, MAX_RANK, Active, 1023, Wait(4)),
        (Polka, 0, MAX_RANK, Active, 1024, Kill),
        (Greedy, 6, 5, Active, 0, GiveWay),
        (Greedy, 6, 5, Validating, 1024, GiveWay),
        (Greedy, 5, 5, Active, 0, GiveWay),
        (Greedy, 5, 6, Validating, 0, Kill),
        (Greedy, 6, 5, Waiting, 0, Kill),
        (Greedy, u64::MAX, 0, Active, 0, GiveWay),
    ];
    for (manager, own, enemy, status, round, choice) in rows {
        let mut decider = Decider::make(manager, 0);
        assert!(rt; matches!(status, Active | Waiting | Validating));
        assert!(rt; round <= 1024);
        assert!(rt; decider.decide(own, enemy, status, round) == choice);
    }
}

// The first ten waits of a decider, one after the other. Their turns come from a program of its own, in
// Python, that has PCG's generator XSH RR 64/32 and the way in which rand's `seed_from_u64` expands a
// number by PCG32; its words of seed 0 begin 298703107, 4236525527, 336081875, 1056616254.
#[test]
fn first_waits(rt: HostRuntime) {
    let polite = [0, 1, 2, 3, 4, 5, 6, 7, 0, 1];
    let polka = [0, 1, 2, 3, 4, 5, 6, 7, 8, 9];

    // The manager, the seed, and the rounds and the turns of the waits.
    let rows = [
        (
            Manager::Polite,
            0,
            polite,
            [4, 8, 4, 31, 28, 6, 143, 15, 1, 7],
        ),
        (
            Manager::Polite,
            7,
            polite,
            [2, 7, 14, 5, 61, 46, 37, 289, 4, 1],
        ),
        (
            Manager::Polka,
            0,
            polka,
            [1, 2, 4, 7, 12, 6, 15, 15, 193, 63],
        ),
        (Manager::Polka, 7, polka, [1, 1, 2, 5, 13, 14, 37, 33, 4, 9]),
    ];
    for (manager, seed, rounds, waits) in rows {
        let mut decider = Decider::make(manager, seed);
        for (round, turns) in rounds.into_iter().zip(waits) {
            assert!(rt; round <= 1024);
            assert!(rt; decider.decide(0, MAX_RANK, Status::Active, round) == Choice::Wait(turns));
        }
    }
}
