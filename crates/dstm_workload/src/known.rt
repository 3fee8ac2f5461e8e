ghost use Rattle.std.specs.Prelude.{◌≡◌};
ghost use Rattle.dstm_workload.specs.Known.{nothing_known, layout_of};

use dstm_model::Layout;

/// The bank that a workload declares.
#[derive(Clone, Copy, Debug, PartialEq, Eq)]
pub struct Bank {
    pub accounts: u32,
    pub opening: u64,
}

/// What the lines so far have told.
#[derive(Clone, Copy, Debug, PartialEq, Eq)]
pub struct Known {
    /// The version of the header, once that has come.
    pub version: Option<u32>,
    pub workers: Option<u32>,
    pub bank: Option<Bank>,
    pub list: Option<u32>,
    pub tree: Option<u32>,
    /// How many transactions have come.
    pub transactions: usize,
}

impl Known {
    /// What is known before the first line.
    pub fn nothing() -> Known
        ensures { result ≡ nothing_known }
    {
        Known {
            version: None,
            workers: None,
            bank: None,
            list: None,
            tree: None,
            transactions: 0,
        }
    }

    /// The layout that is declared so far.
    pub fn layout(&self) -> Layout
        ensures { result ≡ layout_of self.now }
    {
        let bank = self.bank.unwrap_or(Bank {
            accounts: 0,
            opening: 0,
        });
        Layout {
            accounts: bank.accounts,
            opening: bank.opening,
            list: self.list.unwrap_or(0),
            tree: self.tree.unwrap_or(0),
        }
    }
}
