//! An empty file made. It is one once its made-gate is on the disk, which is written when all else is durable.
//!
//! - `making`: the steps, each with a sync at its end.
//! - `places`: the writing of the made-gate.
#![tactic(auto)]

mod making;
mod places;

pub use making::make;
