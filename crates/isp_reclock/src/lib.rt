//! Locks on tables and on keys: who holds what, who stands in the way of whom.
//!
//! A transaction asks for a lock and gets it, or the list of the others that hold a conflicting one. It keeps what it got until
//! all of it is released at its end. Modes and their conflicts are those of InnoDB's table locks (the MySQL 8.0 manual,
//! "InnoDB Locking"); a key takes the modes S and X.
//!
//! - `modes`: the modes and their conflicts.
//! - `entries`: a lock, as it is held and as it is listed, and the answers to an asker.
//! - `table`: the lock table.
#![tactic(auto)]

mod entries;
mod modes;
mod table;

pub use entries::{Asked, Blocker, Held, Lock};
pub use modes::Mode;
pub use table::Locks;
