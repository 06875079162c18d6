//! Tests of predicate locks, through public calls.
//!
//! - `acts`: what is done to a table, and what is seen of it, in order.
//! - `doing`: it is done.
//! - `seen`: what is seen, compared.
//! - `locks`: the tests.
#![tactic(auto)]

#[cfg(test)]
mod acts;
#[cfg(test)]
mod doing;
#[cfg(test)]
mod locks;
#[cfg(test)]
mod seen;
