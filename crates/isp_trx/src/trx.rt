//! A transaction as a value.
ghost use Rattle.std.specs.Prelude.{◌≡◌, ◌<◌, ◌≤◌, OnOk};
ghost use Rattle.isp_format.specs.Undo.{undo_slots};
ghost use Rattle.isp_trx.specs.Transactions.{HasCommitted, HasNoted, HasUndone, IsNew, SameTrx};

use crate::keys::RowKey;
use std::alloc::{AllocError, Global};
use std::marker::Model;

/// A session's transaction: how many of its changes can be taken back, and the keys that it wrote. What stood at each key before
/// it was changed stands in the undo chain of the session's slot.
#[derive(Drop)]
pub struct Trx {
    session: u32,
    count: usize,
    keys: Vec<RowKey>,
}

impl Model for Trx {
    ghost use Rattle.isp_trx.specs.Trxs.{IsTrx, state_of};
    ghost use Rattle.isp_trx.specs.Transactions.{TrxState};

    ghost Value = { TrxState };

    ghost view = { state_of };

    ghost invariant = { IsTrx };
}

impl Trx {
    /// A transaction of that session, which has written nothing. The session's number is that of its undo slot. It takes no
    /// memory.
    pub fn begin(alloc: Global, session: u32) -> Trx
        requires { session < undo_slots }
        ensures { IsNew session result }
    {
        Trx {
            session,
            count: 0,
            keys: Vec::new(alloc),
        }
    }

    /// Its session's number, which is below 32.
    pub fn session(&self) -> u32
        ensures is { result ≡ self.now.session }
        ensures slot { result < undo_slots }
    {
        self.session
    }

    /// How many changes can be taken back.
    pub fn undo_count(&self) -> usize
        ensures { result ≡ self.now.count }
    {
        self.count
    }

    /// Takes the memory that so many more changes need.
    ///
    /// # Errors
    ///
    /// Want of memory, which leaves the transaction as it was.
    pub fn reserve(&mut self, n: usize) -> Result<(), AllocError>
        ensures same { SameTrx self.old self.new }
        ensures room { OnOk result (n ≤ self.new.spare) }
    {
        self.keys.reserve(n)?;
        Ok(())
    }

    // Counts an old row more, of a key that is written.
    pub(crate) fn note(&mut self, at: RowKey)
        requires spare { 1 ≤ self.old.spare }
        ensures { HasNoted at self.old self.new }
    {
        self.count += 1;
        self.keys.push_reserved(at);
    }

    // Counts an old row less, if there is one.
    pub(crate) fn forget_one(&mut self)
        ensures { HasUndone self.old self.new }
    {
        self.count = self.count.saturating_sub(1);
    }

    // Counts none any more.
    pub(crate) fn forget_all(&mut self)
        ensures { HasCommitted self.old self.new }
    {
        self.count = 0;
    }

    /// Each key that it wrote a row at, in order.
    pub fn end(self) -> Vec<RowKey>
        ensures { result.items ≡ self.keys }
    {
        self.keys
    }
}
