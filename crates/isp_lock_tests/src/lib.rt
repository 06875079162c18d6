//! Tests of the locks and of the wait graph through their public calls. They stand in a crate of their own, since a crate
//! with tests is proved with them and without.
//!
//! - `locks`: the modes against each other, who blocks whom, what is listed and released.
//! - `waits`: graphs worked out by hand, their cycles and victims.
#![tactic(auto)]

#[cfg(test)]
mod locks;
#[cfg(test)]
mod waits;
