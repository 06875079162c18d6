//! Tests of the space of pages and of clustered trees through public calls, over pages in memory: rows that are put, rewritten,
//! marked and dropped, beside the list of rows that there are then.
//!
//! - `acts`: calls on a tree as plain data.
//! - `seen`: what a tree answers by its keys, compared.
//! - `scans`: its leaves, compared.
//! - `shapes`: its other pages and the numbers of page 0, compared.
//! - The others are tests, named for what they try.
#![tactic(auto)]

#[cfg(test)]
mod acts;
#[cfg(test)]
mod drawn;
#[cfg(test)]
mod grown;
#[cfg(test)]
mod rising;
#[cfg(test)]
mod scans;
#[cfg(test)]
mod seen;
#[cfg(test)]
mod shapes;
#[cfg(test)]
mod spaces;
#[cfg(test)]
mod trees;
