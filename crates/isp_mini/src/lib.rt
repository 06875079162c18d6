//! The open mini-transaction: what it changed, and the body of the batch that the log gets of it.
//!
//! - `changes`: of each page the least range that has all bytes changed there.
//! - `body`: the bytes of a batch's body.
#![tactic(auto)]

mod body;
mod changes;

pub use body::{Body, LARGEST_BODY};
pub use changes::{Changes, Extent};
