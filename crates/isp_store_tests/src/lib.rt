//! Tests of a store of pages through its public calls: what the store's clauses say is seen on a disk in memory and on a
//! real file. They stand in a crate of their own, since a crate with tests is proved with them and without.
//!
//! A test is one assertion over a helper that answers a `bool`, a helper has at most two values that are dropped, and rows of
//! acts are plans that take no memory: so each function is proved in a second or two.
//!
//! - `plans`: calls of a store as data, and rows of them.
//! - `plain`: the pages that a plan comes to, as plain bytes.
//! - `acts`: plans done on a store, and its pages compared.
//! - `disks`: disks in memory, with a file on them; what a stop leaves of them, opened.
//! - The others are tests, named for what they try.
#![tactic(auto)]

#[cfg(test)]
mod acts;
#[cfg(test)]
mod counting;
#[cfg(test)]
mod disks;
#[cfg(test)]
mod failing;
#[cfg(test)]
mod files;
#[cfg(test)]
mod filling;
#[cfg(test)]
mod gates;
#[cfg(test)]
mod plain;
#[cfg(test)]
mod plans;
#[cfg(test)]
mod rules;
#[cfg(test)]
mod stopping;
