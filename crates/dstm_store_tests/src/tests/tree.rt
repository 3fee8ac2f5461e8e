use crate::tests::maps::answer_as_a_map;
use crate::tests::operations::NOTHING;
use crate::tests::store::{play, val};
use dstm_model::{Layout, Op, Reply, Which};
use dstm_tree::height_is_logarithmic;
use std::test::Fail;

// Room for eight keys.
const LAYOUT: Layout = Layout { tree: 8, ..NOTHING };

// One of the five operations, on one of twelve keys.
fn pick(seed: u32) -> Op {
    let key = seed / 256 % 12;
    let which = Which::Tree;
    match seed / 65_536 % 5 {
        0 => Op::Insert { which, key },
        1 => Op::Put {
            key,
            value: u64::from(seed),
        },
        2 => Op::Member { which, key },
        3 => Op::Get { key },
        _ => Op::Remove { which, key },
    }
}

#[test]
fn a_tree_answers_as_a_map_does(rt: HostRuntime) -> Result<(), Fail> {
    let mut ops = Vec::new(rt.alloc());
    let mut seed: u32 = 1;
    for _step in 0..400 {
        seed = seed.wrapping_mul(1_103_515_245).wrapping_add(12_345);
        ops.push(pick(seed))?;
    }
    assert!(rt; answer_as_a_map(rt.alloc(), &LAYOUT, 8, &ops)?);
    Ok(())
}

#[test]
fn a_full_tree_has_room_again_after_a_removal(rt: HostRuntime) -> Result<(), Fail> {
    let which = Which::Tree;
    let rows = [
        (Op::Insert { which, key: 1 }, Reply::Yes, None),
        (Op::Insert { which, key: 2 }, Reply::Yes, None),
        (Op::Insert { which, key: 3 }, Reply::Yes, None),
        (Op::Insert { which, key: 4 }, Reply::Yes, None),
        (Op::Insert { which, key: 5 }, Reply::Yes, None),
        (Op::Insert { which, key: 6 }, Reply::Yes, None),
        (Op::Insert { which, key: 7 }, Reply::Yes, None),
        (Op::Insert { which, key: 8 }, Reply::Yes, None),
        (Op::Insert { which, key: 9 }, Reply::Full, None),
        (Op::Insert { which, key: 4 }, Reply::No, None),
        (Op::Remove { which, key: 2 }, Reply::Yes, None),
        (Op::Remove { which, key: 2 }, Reply::No, None),
        (Op::Insert { which, key: 9 }, Reply::Yes, None),
        (Op::Member { which, key: 9 }, Reply::Yes, None),
        (Op::Member { which, key: 2 }, Reply::No, None),
    ];
    let (other, _) = play(rt.alloc(), &LAYOUT, &rows)?;
    assert!(rt; other == None);
    Ok(())
}

#[test]
fn a_key_has_the_value_that_was_put_last(rt: HostRuntime) -> Result<(), Fail> {
    let which = Which::Tree;
    let rows = [
        (Op::Put { key: 5, value: 9 }, Reply::Yes, None),
        (Op::Put { key: 5, value: 8 }, Reply::No, None),
        (Op::Get { key: 5 }, Reply::Number(8), None),
        (Op::Get { key: 6 }, Reply::Absent, None),
        (Op::Insert { which, key: 5 }, Reply::No, None),
        (Op::Insert { which, key: 6 }, Reply::Yes, None),
        (Op::Get { key: 5 }, Reply::Number(8), None),
        (Op::Get { key: 6 }, Reply::Number(0), None),
    ];
    let (other, values) = play(rt.alloc(), &LAYOUT, &rows)?;
    assert!(rt; other == None);
    // The root and the free node are 1 and 3; node 1 is black and has key 5, node 2 on its right is red.
    let wanted = [
        val(1, 0),
        val(3, 0),
        val(42_949_672_962, 8),
        val(55_834_574_848, 0),
        val(4, 0),
    ];
    assert!(rt; values.get(..5) == Some(wanted.as_slice()));
    Ok(())
}

#[test]
fn the_law_of_heights_can_be_cited(_rt: HostRuntime) {
    height_is_logarithmic();
}
