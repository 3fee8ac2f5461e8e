use crate::listed::Listed;

/// A list of numbers: balances in account order, or keys.
pub type Numbers = Listed<u64>;

/// A key of the tree and its value.
#[derive(Clone, Copy, Debug, Default, PartialEq, Eq)]
pub struct Item {
    pub key: u64,
    pub value: u64,
}

/// A list of keys with their values.
pub type Items = Listed<Item>;

/// What a store holds: the balances in account order, the keys of the list and the keys of the tree
/// with their values, each in rising order. A structure that is not declared is empty.
#[derive(Debug, Drop)]
pub struct State {
    pub bank: Numbers,
    pub list: Numbers,
    pub tree: Items,
}
