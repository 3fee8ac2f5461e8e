ghost use Rattle.std.specs.Prelude.{◌≡◌, ◌↔◌, IsTrue};
ghost use Rattle.dstm_machines.specs.Traces.{Acts};
ghost use Rattle.dstm_machines.specs.Traces.Access.{Load, Store, Exchange, Add};

use crate::event::Event;

/// How an event acts on its word. What it would store or put may be a number of any size.
impl<K> Event<K> {
    /// It loads its word.
    pub fn is_load(&self) -> bool
        ensures { IsTrue result ↔ Acts Load self.now }
    {
        self.expected == self.found && self.put == self.found
    }

    /// It stores this value.
    pub fn is_store(&self, value: u128) -> bool
        ensures { IsTrue result ↔ Acts (Store value) self.now }
    {
        self.expected == self.found && u128::from(self.put) == value
    }

    /// It exchanges the word for this value if it finds the one expected.
    pub fn is_exchange(&self, expected: u64, value: u128) -> bool
        ensures { IsTrue result ↔ Acts (Exchange expected value) self.now }
    {
        if self.expected != expected {
            return false;
        }
        if self.found == expected {
            u128::from(self.put) == value
        } else {
            self.put == self.found
        }
    }

    /// It adds one to its word.
    pub fn is_add(&self) -> bool
        ensures { IsTrue result ↔ Acts Add self.now }
    {
        self.expected == self.found && u128::from(self.put) == u128::from(self.found) + 1
    }
}
