//! The lock table.
//!
//! To ask looks up at most four modes of each transaction that holds something, and does not grow with the number of locks. To
//! release or list goes once over the locks of all.

ghost use Rattle.std.specs.Prelude.{◌≡◌, ◌↔◌, [], IsTrue, IfOk, OnOk, OnErr, IsPermutation};
ghost use Rattle.std.specs.List.Sorted.{IsSorted};
ghost use Rattle.std.specs.List.{list_any, filter_map};
ghost use Rattle.std.specs.Ordering.{nat_cmp};
ghost use Rattle.std.specs.BTreeSet.{IsOrdered};
ghost use Rattle.isp_reclock.specs.Modes.{IsKeyMode};
ghost use Rattle.isp_reclock.specs.Tables.{holds, with_lock, without, held_by, table_lock, key_lock, takes, IsTaken};
ghost use Rattle.isp_reclock.specs.Blockers.{first_conflict, blocker_of, AreBlockers, Answers};
ghost use Rattle.isp_reclock.specs.Order.{held_cmp};

use crate::{Asked, Blocker, Held, Lock, Mode};
use indexmap::IndexSet;
use smallvec::SmallVec;
use std::alloc::{AllocError, Global};
use std::collections::BTreeSet;
use std::marker::Model;

/// All locks of all transactions, each once, in the order in which they were granted. A transaction is named by its session.
#[derive(Drop)]
pub struct Locks {
    locks: IndexSet<Lock>,
    /// Who may hold a lock: at least all that do.
    holders: BTreeSet<u32>,
    alloc: Global,
}

impl Model for Locks {
    ghost use Rattle.std.specs.Prelude.{List};
    ghost use Rattle.isp_reclock.specs.declared.entries.Lock.{Lock};

    ghost Value = { List Lock };

    ghost use Rattle.isp_reclock.specs.Holders.{KnowsHolders};

    ghost view = { λ t. t.locks.keys };

    ghost invariant = { KnowsHolders };
}

impl Locks {
    /// A table without a lock. It takes no memory.
    pub fn new(alloc: Global) -> Locks
        ensures { result ≡ [] }
    {
        Locks {
            locks: IndexSet::new(alloc),
            holders: BTreeSet::new(alloc),
            alloc,
        }
    }

    /// Asks for a lock on a table. It is granted where no other transaction holds a conflicting mode; else the answer names
    /// those that do. On an error, which is want of memory, the table is as it was.
    pub fn ask_table(&mut self, trx: u32, table: u32, mode: Mode) -> Result<Asked, AllocError>
        ensures answer { IfOk result (λ answer. Answers self.old (table_lock trx table mode) answer self.new) }
        ensures unchanged { OnErr result (self.new ≡ self.old) }
    {
        self.ask(Lock::on_table(trx, table, mode))
    }

    /// Asks for a lock on a key in mode S or X, as `ask_table` does. The key need not have a row.
    pub fn ask_key(
        &mut self,
        trx: u32,
        table: u32,
        key: i64,
        mode: Mode,
    ) -> Result<Asked, AllocError>
        requires { IsKeyMode mode }
        ensures answer { IfOk result (λ answer. Answers self.old (key_lock trx table key mode) answer self.new) }
        ensures unchanged { OnErr result (self.new ≡ self.old) }
    {
        self.ask(Lock::on_key(trx, table, key, mode))
    }

    /// Whether the transaction holds that key in that mode.
    pub fn holds_key(&self, trx: u32, table: u32, key: i64, mode: Mode) -> bool
        ensures { result ≡ holds self.now (key_lock trx table key mode) }
    {
        self.holds(Lock::on_key(trx, table, key, mode))
    }

    /// Whether some transaction holds X on the key or on its table.
    pub fn key_taken(&self, table: u32, key: i64) -> bool
        ensures { IsTrue result ↔ IsTaken self.now table key }
    {
        self.is_taken_by(&self.holders, table, key)
    }

    /// Takes away all locks of a transaction and no other. It takes no memory.
    pub fn release_all(&mut self, trx: u32)
        ensures { self.new ≡ without self.old trx }
    {
        self.locks.retain(|lock| lock.trx != trx);
        self.holders.remove(&trx);
    }

    /// The locks of a transaction: tables by number and mode, then keys by table number, key and mode.
    pub fn list(&self, alloc: Global, trx: u32) -> Result<Vec<Held>, AllocError>
        ensures all { IfOk result (λ list. IsPermutation (held_by self.now trx) list.items) }
        ensures order { IfOk result (λ list. IsSorted held_cmp list.items) }
    {
        let mut list = self.held_by(alloc, trx)?;
        list.sort_by_key(|held| (held.key.is_some(), held.table, held.key, held.mode))?;
        Ok(list)
    }

    fn held_by(&self, alloc: Global, trx: u32) -> Result<Vec<Held>, AllocError>
        ensures { IfOk result (λ list. list.items ≡ held_by self.now trx) }
    {
        self.locks
            .iter()
            .filter(|lock| lock.trx == trx)
            .map(|lock| lock.held)
            .collect(alloc)
    }

    fn ask(&mut self, asked: Lock) -> Result<Asked, AllocError>
        ensures answer { IfOk result (λ answer. Answers self.old asked answer self.new) }
        ensures unchanged { OnErr result (self.new ≡ self.old) }
    {
        let by = self.blockers(asked)?;
        if !by.is_empty() {
            return Ok(Asked::Conflict(by));
        }
        self.grant(asked)?;
        Ok(Asked::Granted)
    }

    fn grant(&mut self, lock: Lock) -> Result<(), AllocError>
        ensures granted { OnOk result (self.new ≡ with_lock self.old lock) }
        ensures unchanged { OnErr result (self.new ≡ self.old) }
    {
        self.holders.insert(lock.trx)?;
        self.locks.insert(lock)?;
        Ok(())
    }

    fn blockers(&self, asked: Lock) -> Result<SmallVec<Blocker, 17>, AllocError>
        ensures { IfOk result (λ by. AreBlockers self.now asked by.items) }
    {
        self.blockers_among(&self.holders, asked)
    }

    fn blockers_among(
        &self,
        trxs: &BTreeSet<u32>,
        asked: Lock,
    ) -> Result<SmallVec<Blocker, 17>, AllocError>
        ensures named { IfOk result (λ by. by.items ≡ filter_map (blocker_of self.now asked) trxs.now.keys) }
        ensures rising { IsOrdered nat_cmp trxs.now }
    {
        trxs.iter()
            .filter_map(|trx| self.blocker(*trx, asked))
            .collect(self.alloc)
    }

    fn blocker(&self, trx: u32, asked: Lock) -> Option<Blocker>
        ensures { result ≡ blocker_of self.now asked trx }
    {
        if trx == asked.trx {
            return None;
        }
        let held = self.first_conflict(trx, asked)?;
        Some(Blocker { trx, held })
    }

    fn first_conflict(&self, trx: u32, asked: Lock) -> Option<Mode>
        ensures { result ≡ first_conflict self.now asked trx }
    {
        for mode in [Mode::IS, Mode::IX, Mode::S, Mode::X] {
            let held = Held {
                table: asked.held.table,
                key: asked.held.key,
                mode,
            };
            if mode.conflicts_with(asked.held.mode) && self.holds(Lock { trx, held }) {
                return Some(mode);
            }
        }
        None
    }

    fn is_taken_by(&self, holders: &BTreeSet<u32>, table: u32, key: i64) -> bool
        ensures { result ≡ list_any (takes self.now table key) holders.now.keys }
    {
        holders.iter().any(|trx| self.takes(*trx, table, key))
    }

    fn takes(&self, trx: u32, table: u32, key: i64) -> bool
        ensures { result ≡ takes self.now table key trx }
    {
        self.holds_key(trx, table, key, Mode::X) || self.holds(Lock::on_table(trx, table, Mode::X))
    }

    /// Whether the transaction holds that lock.
    fn holds(&self, lock: Lock) -> bool
        ensures { result ≡ holds self.now lock }
    {
        self.locks.contains(&lock)
    }
}
