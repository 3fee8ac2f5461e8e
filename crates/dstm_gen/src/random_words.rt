ghost use Rattle.std.specs.Prelude.{◌≡◌, ◌%◌, ◌<◌};
ghost use Rattle.dstm_gen.specs.Words.{words_of, words_of_seed, Takes};
ghost use Rattle.dstm_gen.specs.Generated.{op_with, op_of, numbers_of, op_size, ops_of, job_size};

use dstm_model::{Op, Ops, Which};
use rand_core::SeedableRng;
use rand_core::utils::NextWord;
use rand_pcg::Lcg64Xsh32;
use std::marker::Model;

/// How many accounts an operation may name.
pub const ACCOUNTS: u32 = 8;

// Every amount is below this number.
const AMOUNTS: u32 = 200;

// Every key of the list is below this number.
const LIST_KEYS: u32 = 128;

// Every key of the tree is below this number.
const TREE_KEYS: u32 = 2_048;

// The greatest number of operations of a job.
const MOST_OPS: u32 = 4;

// How many forms of operation there are. Three of them are a transfer.
const FORMS: u32 = 10;

/// The words of a generator, each used once. A contract sees the generator.
#[derive(Drop)]
pub struct RandomWords {
    generator: Lcg64Xsh32,
}

impl Model for RandomWords {
    ghost use Rattle.rand_pcg.specs.Lcg.{Lcg};

    ghost Value = { Lcg };

    ghost view = { λ words. words.generator };
}

impl RandomWords {
    #[tactic(auto, unfolding(crate::specs::Words::words_of_seed))]
    pub fn of_seed(seed: u64) -> RandomWords
        ensures { words_of result ≡ words_of_seed seed }
    {
        RandomWords {
            generator: Lcg64Xsh32::seed_from_u64(seed),
        }
    }

    /// The operations of the next job.
    pub fn ops(&mut self) -> Ops
        ensures value { result ≡ ops_of (words_of self.old) }
        ensures left { Takes (job_size (words_of self.old)) self.old self.new }
    {
        let count = 1 + self.below(MOST_OPS);
        let mut ops = Ops::new();
        for _ in 0..count {
            ops.push(self.op());
        }
        ops
    }

    // The next operation.
    fn op(&mut self) -> Op
        ensures value { result ≡ op_of (words_of self.old) }
        ensures left { Takes (op_size (words_of self.old)) self.old self.new }
    {
        let form = self.below(FORMS);
        self.op_of_form(form)
    }

    // The next operation, where its form is known.
    #[tactic(auto, using(crate::proofs::Streams::takes_none), unfolding(crate::specs::Generated::op_with))]
    fn op_of_form(&mut self, form: u32) -> Op
        requires { form < FORMS }
        ensures value { let words = words_of self.old in result ≡ op_with form (words 0) (words 1) (words 2) }
        ensures left { Takes (numbers_of result) self.old self.new }
    {
        match form {
            0..=2 => self.transfer(),
            3 => Op::Balance {
                account: self.below(ACCOUNTS),
            },
            4 => Op::Total,
            5 => Op::Insert {
                which: Which::List,
                key: self.below(LIST_KEYS),
            },
            6 => Op::Remove {
                which: Which::List,
                key: self.below(LIST_KEYS),
            },
            7 => Op::Insert {
                which: Which::Tree,
                key: self.below(TREE_KEYS),
            },
            8 => Op::Remove {
                which: Which::Tree,
                key: self.below(TREE_KEYS),
            },
            _ => Op::Member {
                which: Which::Tree,
                key: self.below(TREE_KEYS),
            },
        }
    }

    fn transfer(&mut self) -> Op
        ensures value { let words = words_of self.old in
            result ≡ Op.Transfer (words 0 % 8) (words 1 % 8) (words 2 % 200) }
        ensures left { Takes 3 self.old self.new }
    {
        let source = self.below(ACCOUNTS);
        let target = self.below(ACCOUNTS);
        let amount = self.below(AMOUNTS);
        Op::Transfer {
            source,
            target,
            amount: u64::from(amount),
        }
    }

    // The next word modulo `limit`.
    fn below(&mut self, limit: u32) -> u32
        requires { 0 < limit }
        ensures value { result ≡ words_of self.old 0 % limit }
        ensures left { Takes 1 self.old self.new }
    {
        self.generator.next_word() % limit
    }
}
