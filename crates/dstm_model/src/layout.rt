/// The greatest number of accounts.
pub const MAX_ACCOUNTS: u32 = 4_096;

/// The greatest balance that an account is opened with.
pub const MAX_OPENING: u64 = 1_000_000_000;

/// The greatest capacity of the list.
pub const MAX_LIST_NODES: u32 = 1_024;

/// The greatest capacity of the tree.
pub const MAX_TREE_NODES: u32 = 65_535;

/// Every key is below this number.
pub const KEY_LIMIT: u32 = 1_048_575;

/// Every amount is below this number.
pub const AMOUNT_LIMIT: u64 = 10_000_000_000_000;

/// Which structures there are, and how large. A size of 0 says that the structure is not declared.
#[derive(Clone, Copy, Debug, Default, PartialEq, Eq)]
pub struct Layout {
    /// How many accounts the bank has.
    pub accounts: u32,
    /// The balance that each account is opened with.
    pub opening: u64,
    /// How many keys the list has room for.
    pub list: u32,
    /// How many keys the tree has room for.
    pub tree: u32,
}
