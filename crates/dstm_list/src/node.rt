ghost use Rattle.std.specs.Prelude.{◌≡◌, ◌<◌, ◌^◌};

use dstm_model::Val;

/// The number of a node is below this; in a word it stands below the key.
pub const LINK_LIMIT: u64 = 2_048;

/// What an object of the list holds. The heads of the two chains and the free nodes have the key 0.
#[derive(Clone, Copy)]
pub struct Node {
    pub key: u64,
    /// The number of the next node, 0 where there is none.
    pub next: u32,
    ghost key_fits: { key < 2 ^ 53 },
    ghost next_fits: { next < 2048 },
}

impl Node {
    ghost use Rattle.dstm_list.specs.List.{node, key_of, next_of};

    /// What the value of an object stands for.
    pub fn of(value: Val) -> Node
        ensures key { result.key ≡ key_of value }
        ensures next { result.next ≡ next_of value }
    {
        Node {
            key: value.low / LINK_LIMIT,
            next: (value.low % LINK_LIMIT) as u32,
        }
    }

    /// The value that stands for it.
    pub fn value(self) -> Val
        ensures { result ≡ node self.key self.next }
    {
        Val {
            low: self.key * LINK_LIMIT + u64::from(self.next),
            high: 0,
        }
    }
}
