ghost use Rattle.std.specs.Prelude.{◌≡◌, ◌≢◌};
ghost use Rattle.dstm_tree.specs.Side.{IsToward, on, other};

use crate::node::Node;

/// A side of a node.
#[derive(Clone, Copy, Debug, PartialEq, Eq)]
pub(crate) enum Side {
    Left,
    Right,
}

impl Side {
    // The side of a key on which another one stands.
    pub(crate) fn toward(key: u32, root: u32) -> Side
        requires { key ≢ root }
        ensures { IsToward result key root }
    {
        if key < root { Side::Left } else { Side::Right }
    }

    pub(crate) fn other(self) -> Side
        ensures { result ≡ other self }
    {
        match self {
            Side::Left => Side::Right,
            Side::Right => Side::Left,
        }
    }

    // The two nodes from left to right, the first of which stands on this side of the other; so the
    // first of two from left to right is told to stand on the left, and the other way round.
    pub(crate) fn order(self, near: Node, far: Node) -> (Node, Node)
        ensures first { result.0 ≡ on self near far }
        ensures second { result.1 ≡ on self far near }
    {
        match self {
            Side::Left => (near, far),
            Side::Right => (far, near),
        }
    }
}
