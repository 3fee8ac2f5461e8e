use crate::tests::operations::{BANK, pay};
use crate::tests::store::{play, val};
use dstm_model::{Op, Reply};
use std::test::Fail;

#[test]
fn money_moves(rt: HostRuntime) -> Result<(), Fail> {
    let rows = [
        (pay(0, 1, 30), Reply::Moved, None),
        (pay(0, 1, 71), Reply::Poor, None),
        (pay(1, 1, 130), Reply::Moved, None),
        (pay(0, 0, 71), Reply::Poor, None),
        (Op::Balance { account: 1 }, Reply::Number(130), None),
        (Op::Total, Reply::Number(200), None),
    ];
    let (other, values) = play(rt.alloc(), &BANK, &rows)?;
    assert!(rt; other == None);
    let after = [val(70, 0), val(130, 0)];
    assert!(rt; values.as_slice() == after.as_slice());
    Ok(())
}
