// How an event acts on its word.
use dstm_machines::Event;
use std::test::Fail;

// An event of caller 0 at place 3, which expects, finds and puts these words.
fn acts(expected: u64, found: u64, put: u64) -> Event<bool> {
    Event {
        caller: 0,
        kind: true,
        place: 3,
        expected,
        found,
        put,
    }
}

#[test]
fn ways_to_act(rt: HostRuntime) -> Result<(), Fail> {
    assert!(rt; acts(7, 7, 7).is_load());
    assert!(rt; !acts(7, 7, 8).is_load());
    assert!(rt; acts(7, 7, 9).is_store(9));
    assert!(rt; !acts(7, 7, 9).is_store(1 << 64));
    assert!(rt; acts(7, 7, 8).is_add());
    assert!(rt; !acts(u64::MAX, u64::MAX, 0).is_add());
    Ok(())
}

// An exchange puts its value where it finds the word that it expects, and else leaves the word.
#[test]
fn exchanges(rt: HostRuntime) -> Result<(), Fail> {
    assert!(rt; acts(4, 4, 5).is_exchange(4, 5));
    assert!(rt; acts(4, 6, 6).is_exchange(4, 5));
    assert!(rt; !acts(4, 6, 5).is_exchange(4, 5));
    assert!(rt; !acts(3, 3, 5).is_exchange(4, 5));
    Ok(())
}
