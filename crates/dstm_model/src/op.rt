/// Names one of the two structures that hold keys.
#[derive(Clone, Copy, Debug, PartialEq, Eq)]
pub enum Which {
    List,
    Tree,
}

/// What a transaction may wait for.
#[derive(Clone, Copy, Debug, PartialEq, Eq)]
pub enum Cond {
    /// The account holds at least so much.
    Balance { account: u32, least: u64 },
    /// The key is there.
    Key { which: Which, key: u32 },
}

/// One operation of a transaction.
#[derive(Clone, Copy, Debug, PartialEq, Eq)]
pub enum Op {
    /// Moves an amount from one account to another.
    Transfer {
        source: u32,
        target: u32,
        amount: u64,
    },
    /// Tells an account's balance.
    Balance {
        account: u32,
    },
    /// Tells the sum of all balances.
    Total,
    /// Adds a key. Into the tree it goes with the value 0.
    Insert {
        which: Which,
        key: u32,
    },
    /// Takes a key out.
    Remove {
        which: Which,
        key: u32,
    },
    /// Tells whether a key is there.
    Member {
        which: Which,
        key: u32,
    },
    /// Gives a key of the tree a value, and adds the key where it is absent.
    Put {
        key: u32,
        value: u64,
    },
    /// Tells the value of a key of the tree.
    Get {
        key: u32,
    },
    /// Begins a branch that may only be taken where the condition holds.
    Await(Cond),
    /// Stands between two branches: the first one that may be taken is.
    OrElse,
}

impl Default for Op {
    ghost use Rattle.std.specs.Prelude.{◌≡◌};
    ghost use Rattle.dstm_model.specs.declared.op.Op.TheVariants.{Total};

    ghost is_default = { λ op. op ≡ Total };

    fn default() -> Self {
        Op::Total
    }
}
