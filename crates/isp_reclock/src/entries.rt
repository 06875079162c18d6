//! A lock, as it is held and as it is listed, and the answers to an asker.

ghost use Rattle.std.specs.Prelude.{◌≡◌};

use crate::Mode;
use smallvec::SmallVec;

/// What is locked, and how: the table, or one of its keys where `key` is there.
#[derive(Clone, Copy, Debug, PartialEq, Eq, Hash)]
pub struct Held {
    pub table: u32,
    pub key: Option<i64>,
    pub mode: Mode,
}

/// One lock of one transaction.
#[derive(Clone, Copy, Debug, PartialEq, Eq, Hash)]
pub struct Lock {
    pub trx: u32,
    pub held: Held,
}

impl Lock {
    ghost use Rattle.isp_reclock.specs.Tables.{table_lock, key_lock};

    pub(crate) fn on_table(trx: u32, table: u32, mode: Mode) -> Lock
        ensures { result ≡ table_lock trx table mode }
    {
        Lock {
            trx,
            held: Held {
                table,
                key: None,
                mode,
            },
        }
    }

    pub(crate) fn on_key(trx: u32, table: u32, key: i64, mode: Mode) -> Lock
        ensures { result ≡ key_lock trx table key mode }
    {
        Lock {
            trx,
            held: Held {
                table,
                key: Some(key),
                mode,
            },
        }
    }
}

/// A transaction that stands in the way of an asker, with the first of its modes there that conflicts.
#[derive(Clone, Copy, Debug, Default, PartialEq, Eq)]
pub struct Blocker {
    pub trx: u32,
    pub held: Mode,
}

/// The answer to one that asks for a lock.
#[derive(Debug, Drop)]
pub enum Asked {
    /// The lock is held now.
    Granted,
    /// The transactions that stand in the way, rising, each once. Past 17 of them the list takes memory.
    Conflict(SmallVec<Blocker, 17>),
}
