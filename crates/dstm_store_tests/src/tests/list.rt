use crate::tests::maps::answer_as_a_map;
use crate::tests::operations::NOTHING;
use crate::tests::store::{play, val};
use dstm_model::{Layout, Op, Reply, Which};
use std::test::Fail;

// Room for two keys, behind one account.
const TWO: Layout = Layout {
    accounts: 1,
    opening: 100,
    list: 2,
    ..NOTHING
};

#[test]
fn two_keys_fill_the_list(rt: HostRuntime) -> Result<(), Fail> {
    let which = Which::List;
    let rows = [
        (Op::Member { which, key: 0 }, Reply::No, None),
        (Op::Insert { which, key: 9 }, Reply::Yes, None),
        (Op::Insert { which, key: 4 }, Reply::Yes, None),
        (Op::Insert { which, key: 6 }, Reply::Full, None),
        (Op::Insert { which, key: 9 }, Reply::No, None),
        (Op::Member { which, key: 9 }, Reply::Yes, None),
        (Op::Remove { which, key: 9 }, Reply::Yes, None),
        (Op::Remove { which, key: 9 }, Reply::No, None),
        (Op::Insert { which, key: 0 }, Reply::Yes, None),
    ];
    let (other, values) = play(rt.alloc(), &TWO, &rows)?;
    assert!(rt; other == None);
    // Node 1 holds the key 0 and links to node 2, which holds the key 4.
    let after = [
        val(100, 0),
        val(1, 0),
        val(0, 0),
        val(2, 0),
        val(4 * 2_048, 0),
    ];
    assert!(rt; values.as_slice() == after.as_slice());
    Ok(())
}

#[test]
fn a_list_answers_as_a_map_does(rt: HostRuntime) -> Result<(), Fail> {
    let layout = Layout { list: 3, ..NOTHING };
    let which = Which::List;
    let mut ops = Vec::new(rt.alloc());
    let mut number: u32 = 1;
    for _ in 0..60 {
        number = number.wrapping_mul(17) % 1_009;
        let key = number / 3 % 7;
        ops.push(match number % 3 {
            0 => Op::Member { which, key },
            1 => Op::Remove { which, key },
            _ => Op::Insert { which, key },
        })?;
    }
    assert!(rt; answer_as_a_map(rt.alloc(), &layout, 3, &ops)?);
    Ok(())
}
