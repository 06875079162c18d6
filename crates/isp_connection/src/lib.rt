//! One session's connection to a file, over any store of pages, which it owns while it is open: the texts of its statements are
//! answered one after another, and what they do is committed, or taken back.
//!
//! - `connection`: a connection as a value, and its calls.
//! - `running`: a statement is stepped until it is ready.
//! - `ending`: a transaction is taken back, committed, and its marked rows go.
#![tactic(auto)]

mod connection;
mod ending;
mod running;

pub use connection::Connection;
