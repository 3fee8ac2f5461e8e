// The loads, and the operations of their transactions.
ghost use Rattle.std.specs.Prelude.{◌+◌, ◌<◌, ◌≤◌};
ghost use Rattle.dstm_model.specs.Layout.{FitsLayout};
ghost use Rattle.dstm_model.specs.Store.{IsPlain};
ghost use Rattle.bench.specs.declared.scale.load.TheConstants.{LAYOUT};

use dstm_model::{Layout, Op, Which};

/// The store of all loads: 4,096 accounts, and a tree with room for 65,535 keys.
pub const LAYOUT: Layout = Layout {
    accounts: 4_096,
    opening: 1_000_000,
    list: 0,
    tree: 65_535,
};

/// What transactions do.
#[derive(Clone, Copy, Debug, PartialEq, Eq)]
pub enum Load {
    /// The tree gets 32,767 keys.
    Fill,
    /// So many accounts are read; one in a hundred pays from one account to another.
    Readers(u32),
    /// 16 operations on the tree, of which so many in a hundred look a key up, and the others insert or remove it.
    Tree(u64),
    /// 16 lists of four accounts are read; at the end of one in ten a payment is made.
    Lists,
    /// 8 keys are looked up in the tree, and a payment is made.
    Reserve,
    /// 32 payments among the 1,024 accounts of a thread.
    Own,
}

impl Load {
    /// The load of a name.
    pub fn named(name: &str) -> Option<Load> {
        match name {
            "readers256" => Some(Load::Readers(256)),
            "readers4096" => Some(Load::Readers(4_096)),
            "tree90" => Some(Load::Tree(90)),
            "tree98" => Some(Load::Tree(98)),
            "tree100" => Some(Load::Tree(100)),
            "lists" => Some(Load::Lists),
            "reserve" => Some(Load::Reserve),
            "own" => Some(Load::Own),
            _ => None,
        }
    }

    /// How many transactions are made, by all threads together.
    pub fn transactions(self) -> u32 {
        match self {
            Load::Readers(256) => 20_000,
            Load::Readers(_) => 1_600,
            Load::Fill | Load::Own => 4_000,
            Load::Tree(_) | Load::Lists => 12_000,
            Load::Reserve => 20_000,
        }
    }
}

/// One transaction of a load, by a thread.
#[derive(Clone, Copy, Debug)]
pub struct Batch {
    pub load: Load,
    pub thread: u32,
    pub number: u32,
}

impl Batch {
    /// How many operations it has.
    pub fn count(&self) -> u32 {
        match self.load {
            Load::Fill => 32_767,
            Load::Readers(accounts) => if self.number % 100 == 99 { 1 } else { accounts },
            Load::Tree(_) => 16,
            Load::Lists => 64,
            Load::Reserve => 9,
            Load::Own => 32,
        }
    }

    /// The operation at a place.
    pub fn op(&self, place: u32) -> Op
        ensures fits { FitsLayout LAYOUT result }
        ensures plain { IsPlain result }
    {
        match self.load {
            Load::Fill => insert(place.wrapping_mul(12_347) % 32_768 * 2),
            Load::Readers(_) => {
                if self.number % 100 == 99 {
                    pay(0, 4_096, self.draw(0))
                } else {
                    Op::Balance {
                        account: place % 4_096,
                    }
                }
            }
            Load::Tree(looks) => seek(looks, self.draw(place)),
            Load::Lists => walk(place % 4, self.draw(place / 4)),
            Load::Reserve => {
                if place == 8 {
                    pay(0, 4_096, self.draw(8))
                } else {
                    seek(100, self.draw(place))
                }
            }
            Load::Own => pay(self.thread % 4 * 1_024, 1_024, self.draw(place)),
        }
    }

    // A random word for a place.
    fn draw(&self, place: u32) -> u64 {
        let start = (u64::from(self.thread) << 32) ^ (u64::from(self.number) << 8);
        let word = start
            .wrapping_add(u64::from(place))
            .wrapping_mul(0x9E37_79B9_7F4A_7C15);
        let word = (word ^ (word >> 30)).wrapping_mul(0xBF58_476D_1CE4_E5B9);
        let word = (word ^ (word >> 27)).wrapping_mul(0x94D0_49BB_1331_11EB);
        word ^ (word >> 31)
    }
}

fn insert(key: u32) -> Op
    requires { key < 65_536 }
    ensures fits { FitsLayout LAYOUT result }
    ensures plain { IsPlain result }
{
    Op::Insert {
        which: Which::Tree,
        key,
    }
}

// A payment among so many accounts.
fn pay(first: u32, count: u32, drawn: u64) -> Op
    requires some { 0 < count }
    requires exist { first + count ≤ 4096 }
    ensures fits { FitsLayout LAYOUT result }
    ensures plain { IsPlain result }
{
    let count = u64::from(count);
    Op::Transfer {
        source: first + (drawn % count) as u32,
        target: first + (drawn / 4_096 % count) as u32,
        amount: 1,
    }
}

// An operation on the tree: so many of a hundred look a key up.
fn seek(looks: u64, drawn: u64) -> Op
    ensures fits { FitsLayout LAYOUT result }
    ensures plain { IsPlain result }
{
    let which = Which::Tree;
    let key = (drawn / 16_777_216 % 65_535) as u32;
    if drawn / 4_096 % 100 < looks {
        Op::Member { which, key }
    } else if drawn % 2 == 0 {
        Op::Insert { which, key }
    } else {
        Op::Remove { which, key }
    }
}

// The step at a place of a list; at the end of one in ten it pays to the first.
fn walk(at: u32, drawn: u64) -> Op
    requires { at < 4 }
    ensures fits { FitsLayout LAYOUT result }
    ensures plain { IsPlain result }
{
    let first = (drawn % 1_024) as u32 * 4;
    if at == 3 && drawn / 4_096 % 10 == 0 {
        Op::Transfer {
            source: first + 3,
            target: first,
            amount: 1,
        }
    } else {
        Op::Balance {
            account: first + at,
        }
    }
}
