//! Tests of entries that are put into R-trees on pages, through public calls, over pages in memory with the fan-out 4.
//!
//! - `stages`: points, and the trees that they make, worked out by hand.
//! - `putting`: points are put in.
//! - `seen`: what is seen and told of them, compared.
//! - `counted`: pages in memory that note which of them are read and changed.
//! - The others are tests, named for what they try.
#![tactic(auto)]

#[cfg(test)]
mod counted;
#[cfg(test)]
mod counting;
#[cfg(test)]
mod finding;
#[cfg(test)]
mod inserting;
#[cfg(test)]
mod putting;
#[cfg(test)]
mod seen;
#[cfg(test)]
mod stages;
