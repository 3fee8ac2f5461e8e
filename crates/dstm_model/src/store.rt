ghost use Rattle.std.specs.Prelude.{◌≡◌, ℕ, ◌<◌, ◌≤◌, ◌^◌, sum, map, length, slice_index, All, ◌∷◌, take, drop, position, ◌↔◌, IsTrue, IfOk, OnErr, None, IfNone, IfSome, option_map, option_copied};
ghost use Rattle.dstm_model.specs.Job.{apply_all, apply_job, open_branch, branches_of, branches_left, is_open, is_separator, holds_in, AppliesSome, AppliesSomeOfBranch};
ghost use Rattle.dstm_model.specs.Layout.{IsValid, FitsLayout, FitsCond};
ghost use Rattle.dstm_model.specs.Store.{Store, opening_store, apply, insert, remove, put, is_member, value_of, value_reply, yes_or_no, credit, debit, IsPlain, state_of, item_of};

use crate::job::{Ops, Replies};
use crate::layout::Layout;
use crate::op::{Cond, Op, Which};
use crate::reply::Reply;
use crate::state::{Item, Items, Numbers, State};
use std::alloc::{AllocError, Global};
use std::collections::{BTreeMap, BTreeSet};
use std::marker::Model;

/// The store as one thread keeps it: balances, a set of keys and a map from keys to values.
#[derive(Drop)]
pub struct PlainStore {
    alloc: Global,
    layout: Layout,
    balances: Vec<u64>,
    // The sum of the balances, which no operation changes: a balance never exceeds it.
    total: u64,
    list: BTreeSet<u32>,
    tree: BTreeMap<u32, u64>,
}

impl Model for PlainStore {
    ghost use Rattle.std.specs.Prelude.{◌≡◌, sum, length};
    ghost use Rattle.dstm_model.specs.Store.{Store};

    ghost Value = { Store };

    ghost view = { λ s. record {
      layout = s.layout;
      balances = s.balances.items;
      keys = s.list.keys;
      items = s.tree.entries;
    } };

    ghost invariant = { λ s. (length s.balances.items ≡ s.layout.accounts) × (sum s.balances.items ≡ s.total) };
}

impl PlainStore {
    /// The store in which every balance is the opening balance and both structures are empty.
    pub fn opening(alloc: Global, layout: &Layout) -> Result<PlainStore, AllocError>
        requires { IsValid layout.now }
        ensures { IfOk result (λ store. store ≡ opening_store layout.now) }
    {
        let accounts = layout.accounts as usize;
        Ok(PlainStore {
            alloc,
            layout: *layout,
            balances: vec![in alloc; layout.opening; accounts]?,
            total: u64::from(layout.accounts) * layout.opening,
            list: BTreeSet::new(alloc),
            tree: BTreeMap::new(alloc),
        })
    }

    /// Applies one operation and answers its reply. Conditions and separators belong to jobs.
    pub fn apply(&mut self, op: &Op) -> Result<Reply, AllocError>
        requires fits { FitsLayout self.old.layout op.now }
        requires plain { IsPlain op.now }
        ensures ok { IfOk result (λ reply. apply op.now self.old ≡ record { reply = reply; store = self.new }) }
        ensures layout { self.new.layout ≡ self.old.layout }
        ensures err { OnErr result (self.new ≡ self.old) }
    {
        match *op {
            Op::Transfer {
                source,
                target,
                amount,
            } => Ok(self.transfer(source, target, amount)),
            Op::Balance { account } => Ok(Reply::Number(self.balances[account as usize])),
            Op::Total => Ok(Reply::Number(self.total)),
            Op::Insert { which, key } => self.insert(which, key),
            Op::Remove { which, key } => Ok(self.remove(which, key)),
            Op::Member { which, key } => Ok(yes_or_no(self.contains(which, key))),
            Op::Put { key, value } => self.put(key, value),
            Op::Get { key } => Ok(self.get(key)),
            Op::Await(_) | Op::OrElse => unreachable!(),
        }
    }

    /// Applies a job: the operations of its first open branch, among which a condition answers yes.
    /// `None` says that no branch is open.
    pub fn apply_job(&mut self, ops: &Ops) -> Result<Option<Replies>, AllocError>
        requires { All (FitsLayout self.old.layout) ops.now }
        ensures ok { IfOk result (λ replies. apply_job ops.now self.old ≡ option_map (λ rs. record { replies = rs; store = self.new }) replies) }
        ensures blocked { IfOk result (λ replies. IfNone replies (self.new ≡ self.old)) }
        ensures layout { self.new.layout ≡ self.old.layout }

        // Where memory runs out, the first operations of the branch may have been applied.
        ensures err { OnErr result (AppliesSomeOfBranch ops.now self.old self.new) }
    {
        match self.open_branch(ops.as_slice()) {
            Some(branch) => Ok(Some(self.apply_all(branch)?)),
            None => Ok(None),
        }
    }

    /// Tells whether no branch of a job is open.
    pub fn is_blocked(&self, ops: &Ops) -> bool
        requires { All (FitsLayout self.now.layout) ops.now }
        ensures { IsTrue result ↔ (apply_job ops.now self.now ≡ None) }
    {
        self.open_branch(ops.as_slice()).is_none()
    }

    /// What the store holds.
    pub fn state(&self, alloc: Global) -> Result<State, AllocError>
        ensures { IfOk result (λ state. state ≡ state_of self.now) }
    {
        let bank = Vec::from_slice(alloc, &self.balances)?;
        let list = keys_of(alloc, &self.list)?;
        let tree = items_of(alloc, &self.tree)?;
        Ok(State {
            bank: Numbers::from_vec(bank),
            list: Numbers::from_vec(list),
            tree: Items::from_vec(tree),
        })
    }

    fn open_branch<'a>(&self, ops: &'a [Op]) -> Option<&'a [Op]>
        requires { All (FitsLayout self.now.layout) ops.now }
        ensures found { option_copied result ≡ open_branch ops.now self.now }
        ensures fits { IfSome result (λ branch. All (FitsLayout self.now.layout) branch.now) }
        ensures short { IfSome result (λ branch. length branch.now ≤ length ops.now) }
    {
        let mut rest = Some(ops);
        while let Some(ops) = rest {
            let (branch, after) = first_branch(ops);
            if self.is_open(branch) {
                return Some(branch);
            }
            rest = after;
        }
        None
    }

    fn is_open(&self, branch: &[Op]) -> bool
        requires { All (FitsLayout self.now.layout) branch.now }
        ensures { result ≡ is_open self.now branch.now }
    {
        match branch {
            [Op::Await(cond), ..] => self.holds(*cond),
            _ => true,
        }
    }

    fn holds(&self, cond: Cond) -> bool
        requires { FitsCond self.now.layout cond }
        ensures { result ≡ holds_in cond self.now }
    {
        match cond {
            Cond::Balance { account, least } => least <= self.balances[account as usize],
            Cond::Key { which, key } => self.contains(which, key),
        }
    }

    fn apply_all(&mut self, ops: &[Op]) -> Result<Replies, AllocError>
        requires fits { All (FitsLayout self.old.layout) ops.now }
        requires short { length ops.now ≤ 8 }
        ensures ok { IfOk result (λ replies. apply_all ops.now self.old ≡ record { replies = replies; store = self.new }) }
        ensures layout { self.new.layout ≡ self.old.layout }
        ensures err { OnErr result (AppliesSome ops.now self.old self.new) }
    {
        let mut replies = Replies::new();
        for op in ops {
            replies.push(self.apply_in_branch(op)?);
        }
        Ok(replies)
    }

    // Applies one operation of a branch that is taken: its condition was seen to hold.
    fn apply_in_branch(&mut self, op: &Op) -> Result<Reply, AllocError>
        requires { FitsLayout self.old.layout op.now }
        ensures ok { IfOk result (λ reply. apply op.now self.old ≡ record { reply = reply; store = self.new }) }
        ensures layout { self.new.layout ≡ self.old.layout }
        ensures err { OnErr result (self.new ≡ self.old) }
    {
        match op {
            Op::Await(_) | Op::OrElse => Ok(Reply::Yes),
            _ => self.apply(op),
        }
    }

    fn transfer(&mut self, source: u32, target: u32, amount: u64) -> Reply
        requires source { source < self.old.layout.accounts }
        requires target { target < self.old.layout.accounts }
        ensures outcome { apply (Op.Transfer source target amount) self.old ≡ record { reply = result; store = self.new } }
        ensures layout { self.new.layout ≡ self.old.layout }
    {
        let source = source as usize;
        let target = target as usize;
        if self.balances[source] < amount {
            return Reply::Poor;
        }
        // The sum is a number of 64 bits, so what the target gets fits beside its balance.
        let _total = self.total;
        pay(&mut self.balances, source, target, amount);
        Reply::Moved
    }

    fn insert(&mut self, which: Which, key: u32) -> Result<Reply, AllocError>
        ensures ok { IfOk result (λ reply. insert which key self.old ≡ record { reply = reply; store = self.new }) }
        ensures layout { self.new.layout ≡ self.old.layout }
        ensures err { OnErr result (self.new ≡ self.old) }
    {
        match which {
            Which::List => self.insert_key(key),
            Which::Tree => self.insert_item(key),
        }
    }

    fn insert_key(&mut self, key: u32) -> Result<Reply, AllocError>
        ensures ok { IfOk result (λ reply. insert Which.List key self.old ≡ record { reply = reply; store = self.new }) }
        ensures layout { self.new.layout ≡ self.old.layout }
        ensures err { OnErr result (self.new ≡ self.old) }
    {
        if self.list.contains(&key) {
            return Ok(Reply::No);
        }
        if self.list.len() == self.layout.list as usize {
            return Ok(Reply::Full);
        }
        self.list.insert(key)?;
        Ok(Reply::Yes)
    }

    fn insert_item(&mut self, key: u32) -> Result<Reply, AllocError>
        ensures ok { IfOk result (λ reply. insert Which.Tree key self.old ≡ record { reply = reply; store = self.new }) }
        ensures layout { self.new.layout ≡ self.old.layout }
        ensures err { OnErr result (self.new ≡ self.old) }
    {
        if self.tree.contains_key(&key) {
            return Ok(Reply::No);
        }
        if self.tree.len() == self.layout.tree as usize {
            return Ok(Reply::Full);
        }
        self.tree.insert(key, 0)?;
        Ok(Reply::Yes)
    }

    fn remove(&mut self, which: Which, key: u32) -> Reply
        ensures outcome { remove which key self.old ≡ record { reply = result; store = self.new } }
        ensures layout { self.new.layout ≡ self.old.layout }
    {
        match which {
            Which::List => yes_or_no(self.list.remove(&key)),
            Which::Tree => yes_or_no(self.tree.remove(&key).is_some()),
        }
    }

    fn contains(&self, which: Which, key: u32) -> bool
        ensures { result ≡ is_member which key self.now }
    {
        match which {
            Which::List => self.list.contains(&key),
            Which::Tree => self.tree.contains_key(&key),
        }
    }

    fn put(&mut self, key: u32, value: u64) -> Result<Reply, AllocError>
        ensures ok { IfOk result (λ reply. put key value self.old ≡ record { reply = reply; store = self.new }) }
        ensures layout { self.new.layout ≡ self.old.layout }
        ensures err { OnErr result (self.new ≡ self.old) }
    {
        if self.tree.contains_key(&key) {
            self.tree.insert(key, value)?;
            return Ok(Reply::No);
        }
        if self.tree.len() == self.layout.tree as usize {
            return Ok(Reply::Full);
        }
        self.tree.insert(key, value)?;
        Ok(Reply::Yes)
    }

    fn get(&self, key: u32) -> Reply
        ensures { result ≡ value_reply (value_of key self.now.items) }
    {
        match self.tree.get(&key).copied() {
            Some(value) => Reply::Number(value),
            None => Reply::Absent,
        }
    }
}

fn yes_or_no(yes: bool) -> Reply
    ensures { result ≡ yes_or_no yes }
{
    if yes { Reply::Yes } else { Reply::No }
}

/// The first branch of a job's operations, and what follows its separator, if there is one.
pub fn first_branch(ops: &[Op]) -> (&[Op], Option<&[Op]>)
    ensures branches { branches_of ops.now ≡ result.0.now ∷ branches_left (option_copied result.1) }
    ensures first { (n : ℕ) × (result.0.now ≡ take n ops.now) }
    ensures after { IfSome result.1 (λ after. (n : ℕ) × (after.now ≡ drop n ops.now)) }
{
    match separator(ops) {
        Some(at) => (&ops[..at], Some(&ops[at + 1..])),
        None => (ops, None),
    }
}

// The place of the first separator.
fn separator(ops: &[Op]) -> Option<usize>
    ensures { result ≡ position is_separator ops.now }
{
    ops.iter().position(is_separator)
}

fn is_separator(op: &Op) -> bool
    ensures { result ≡ is_separator op.now }
{
    matches!(op, Op::OrElse)
}

// Takes an amount from one balance and adds it to another.
fn pay(balances: &mut [u64], source: usize, target: usize, amount: u64)
    requires source { source < length balances.old }
    requires target { target < length balances.old }
    requires enough { amount ≤ slice_index balances.old source }
    requires sum { sum balances.old < 2 ^ 64 }
    ensures moved { balances.new ≡ credit target amount (debit source amount balances.old) }
    ensures sum { sum balances.new ≡ sum balances.old }
{
    balances[source] -= amount;
    balances[target] += amount;
}

fn keys_of(alloc: Global, list: &BTreeSet<u32>) -> Result<Vec<u64>, AllocError>
    ensures { IfOk result (λ keys. keys.items ≡ list.now.keys) }
{
    list.iter().map(|key| u64::from(*key)).collect(alloc)
}

fn items_of(alloc: Global, tree: &BTreeMap<u32, u64>) -> Result<Vec<Item>, AllocError>
    ensures { IfOk result (λ items. items.items ≡ map item_of tree.now.entries) }
{
    let mut items = Vec::with_capacity(alloc, tree.len())?;
    for (key, value) in tree {
        items.push(Item {
            key: u64::from(*key),
            value: *value,
        })?;
    }
    Ok(items)
}
