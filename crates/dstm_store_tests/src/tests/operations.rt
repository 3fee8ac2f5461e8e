ghost use Rattle.std.specs.Prelude.{◌≡◌, All, IsTrue};
ghost use Rattle.dstm_model.specs.Layout.{FitsLayout, FitsCond, FitsKey};
ghost use Rattle.dstm_model.specs.Store.{IsPlain};

use dstm_model::{AMOUNT_LIMIT, Cond, KEY_LIMIT, Layout, Op, Ops, Replies, Reply, State, Which};

/// The layout of nothing, to which a test adds what it is about.
pub(crate) const NOTHING: Layout = Layout {
    accounts: 0,
    opening: 0,
    list: 0,
    tree: 0,
};

/// Two accounts, each opened with 100.
pub(crate) const BANK: Layout = Layout {
    accounts: 2,
    opening: 100,
    ..NOTHING
};

/// A bank, a list and a tree.
pub(crate) const OF_EACH: Layout = Layout {
    accounts: 3,
    opening: 50,
    list: 5,
    tree: 6,
};

pub(crate) fn pay(source: u32, target: u32, amount: u64) -> Op
    ensures { result ≡ Op.Transfer source target amount }
{
    Op::Transfer {
        source,
        target,
        amount,
    }
}

/// Tells whether an operation fits a layout.
pub(crate) fn fits(layout: &Layout, op: &Op) -> bool
    ensures { IsTrue result → FitsLayout layout.now op.now }
{
    match *op {
        Op::Transfer {
            source,
            target,
            amount,
        } => source < layout.accounts && target < layout.accounts && amount < AMOUNT_LIMIT,
        Op::Balance { account } => account < layout.accounts,
        Op::Total => layout.accounts > 0,
        Op::Insert { which, key } => fits_key(layout, which, key),
        Op::Remove { which, key } => fits_key(layout, which, key),
        Op::Member { which, key } => fits_key(layout, which, key),
        Op::Put { key, .. } => fits_key(layout, Which::Tree, key),
        Op::Get { key } => fits_key(layout, Which::Tree, key),
        Op::Await(cond) => fits_cond(layout, cond),
        Op::OrElse => true,
    }
}

fn fits_cond(layout: &Layout, cond: Cond) -> bool
    ensures { IsTrue result → FitsCond layout.now cond }
{
    match cond {
        Cond::Balance { account, least } => account < layout.accounts && least < AMOUNT_LIMIT,
        Cond::Key { which, key } => fits_key(layout, which, key),
    }
}

fn fits_key(layout: &Layout, which: Which, key: u32) -> bool
    ensures { IsTrue result → FitsKey layout.now which key }
{
    let room = match which {
        Which::List => layout.list,
        Which::Tree => layout.tree,
    };
    room > 0 && key < KEY_LIMIT
}

fn is_plain(op: &Op) -> bool
    ensures { IsTrue result → IsPlain op.now }
{
    !matches!(op, Op::Await(_) | Op::OrElse)
}

/// Tells whether it may be run by itself.
pub(crate) fn can_run(layout: &Layout, op: &Op) -> bool
    ensures fits { IsTrue result → FitsLayout layout.now op.now }
    ensures plain { IsTrue result → IsPlain op.now }
{
    is_plain(op) && fits(layout, op)
}

/// The operations that fit, at most eight.
pub(crate) fn ops_of(layout: &Layout, list: &[Op]) -> Ops
    ensures { All (FitsLayout layout.now) result }
{
    let mut ops = Ops::new();
    for op in list {
        if ops.as_slice().len() < 8 && fits(layout, op) {
            ops.push(*op);
        }
    }
    ops
}

/// The same without conditions and separators.
pub(crate) fn plain_of(layout: &Layout, list: &[Op]) -> Ops
    ensures fits { All (FitsLayout layout.now) result }
    ensures plain { All IsPlain result }
{
    let mut ops = Ops::new();
    for op in list {
        if ops.as_slice().len() < 8 && can_run(layout, op) {
            ops.push(*op);
        }
    }
    ops
}

/// Tells whether a job has these replies, or is blocked as it should be.
pub(crate) fn answers(replies: &Option<Replies>, wanted: Option<&[Reply]>) -> bool {
    match (replies, wanted) {
        (Some(replies), Some(wanted)) => replies.as_slice() == wanted,
        (None, None) => true,
        _ => false,
    }
}

/// Tells whether both have the same balances, keys and values.
pub(crate) fn same_state(one: &State, other: &State) -> bool {
    one.bank.as_slice() == other.bank.as_slice()
        && one.list.as_slice() == other.list.as_slice()
        && one.tree.as_slice() == other.tree.as_slice()
}

/// An operation on one of three accounts, or on one of ten keys.
pub(crate) fn pick(seed: u32) -> Op {
    let key = seed / 256 % 10;
    let which = if seed / 4_096 % 2 == 0 {
        Which::List
    } else {
        Which::Tree
    };
    match seed / 65_536 % 9 {
        0 => Op::Transfer {
            source: key % 3,
            target: key / 3 % 3,
            amount: u64::from(seed % 60),
        },
        1 => Op::Balance { account: key % 3 },
        2 => Op::Total,
        3 => Op::Member { which, key },
        4 => Op::Remove { which, key },
        5 => Op::Put {
            key,
            value: u64::from(seed),
        },
        6 => Op::Get { key },
        _ => Op::Insert { which, key },
    }
}
