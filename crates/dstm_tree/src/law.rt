ghost use Rattle.std.specs.Prelude.{ℕ, ◌+◌, ◌*◌, ◌^◌, ◌≤◌, length};
ghost use Rattle.dstm_tree.specs.Tree.{Tree, items_of, height, black_height, IsRedBlack};

/// The law of the height of red-black trees: no way down has more than twice as many nodes as black ones,
/// and with the nodes beside it a way with b black nodes makes a tree of at least 2 ^ b - 1 nodes. So a tree
/// of n nodes is at most twice as high as the logarithm of n + 1.
pub fn height_is_logarithmic()
    ensures low { (limit : ℕ) (tree : Tree) → IsRedBlack limit tree → height tree ≤ 2 * black_height tree }
    ensures many { (limit : ℕ) (tree : Tree) → IsRedBlack limit tree →
        2 ^ black_height tree ≤ length (items_of tree) + 1 }
{}
