ghost use Rattle.std.specs.Prelude.{◌≡◌, ◌^◌, ◌<◌, ◌≢◌, MatchOption};
ghost use Rattle.dstm_tree.specs.Side.{on};
ghost use Rattle.dstm_tree.specs.Node.{child, val_of, with_child, with_red};

use crate::side::Side;
use dstm_model::Val;

/// A node of the tree, as it is read and written.
#[derive(Clone, Copy, Debug, PartialEq, Eq)]
pub struct Node {
    /// From 1 up to the region's number of nodes.
    pub number: u16,
    pub red: bool,
    pub key: u32,
    pub value: u64,
    /// The number of the left child, 0 where there is none.
    pub left: u16,
    /// The number of the right child, 0 where there is none.
    pub right: u16,
}

impl Node {
    /// The node with this number that the value of its object stands for.
    pub fn of(number: u16, value: Val) -> Node
        ensures number { result.number ≡ number }
        ensures value { val_of result ≡ value }
        ensures key { result.key < 2 ^ 31 }
        ensures left { result.left < 2 ^ 16 }
        ensures right { result.right < 2 ^ 16 }
    {
        let upper = value.low / 65_536 / 65_536;
        Node {
            number,
            red: upper % 2 == 1,
            key: (upper / 2) as u32,
            value: value.high,
            left: (value.low / 65_536 % 65_536) as u16,
            right: (value.low % 65_536) as u16,
        }
    }

    // The number of the child on a side, 0 where there is none.
    pub(crate) fn child(self, side: Side) -> u16
        ensures { result ≡ child side self }
    {
        match side {
            Side::Left => self.left,
            Side::Right => self.right,
        }
    }

    // The node with another child on a side.
    pub(crate) fn with_child(self, side: Side, number: u16) -> Node
        ensures { result ≡ with_child side number self }
    {
        match side {
            Side::Left => Node {
                left: number,
                ..self
            },
            Side::Right => Node {
                right: number,
                ..self
            },
        }
    }

    // The node in this colour.
    pub(crate) fn with_red(self, red: bool) -> Node
        ensures { result ≡ with_red red self }
    {
        Node { red, ..self }
    }

    // A side on which the node has no child.
    pub(crate) fn missing(self) -> Option<Side>
        ensures { MatchOption result ((self.left ≢ 0) × (self.right ≢ 0)) (λ side. child side self ≡ 0) }
    {
        if self.left == 0 {
            Some(Side::Left)
        } else if self.right == 0 {
            Some(Side::Right)
        } else {
            None
        }
    }
}

// The value that stands for a node.
pub(crate) fn encode(node: &Node) -> Val
    requires { node.now.key < 2 ^ 31 }
    ensures { result ≡ val_of node.now }
{
    let colour = if node.red { 1 } else { 0 };
    let upper = u64::from(node.key) * 2 + colour;
    Val {
        low: (upper * 65_536 + u64::from(node.left)) * 65_536 + u64::from(node.right),
        high: node.value,
    }
}
