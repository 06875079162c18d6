//! Transactions over pages: rows that are written with what stood there noted, taken back one by
//! one, and committed. What is noted stands in the undo chain of the session's slot and goes there
//! in the mini-transaction that writes the row, so that a transaction that has begun can be taken
//! back and committed without memory and without a page more.
//!
//! - `keys`, `order`: keys, and their order.
//! - `trx`: a transaction as a value.
//! - `images`: what stands at a key, as an entry of an undo chain.
//! - `writing`, `undoing`, `ending`: its calls over pages, each of which finishes what it changes.
//! - `sweeping`: marked rows that go once it has ended; `laws`: that they may go one by one.
#![tactic(auto)]

mod ending;
mod images;
mod keys;
mod laws;
mod order;
mod roots;
mod sweeping;
mod trx;
mod undoing;
mod writing;

pub use keys::RowKey;
pub use laws::{law_sweeps_begin, law_sweeps_go_on};
pub use order::rising;
pub use sweeping::{drop_if_marked, drop_marked_rows};
pub use trx::Trx;
