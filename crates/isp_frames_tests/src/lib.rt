//! Tests of the frames, of what stands below them and of what brings a file into them, through public calls. They stand in
//! a crate of their own, since a crate with tests is proved with them and without.
//!
//! - `disks`: disks in memory with a file on them.
//! - The others are tests, named for the crates that they try.
#![tactic(auto)]

#[cfg(test)]
mod disks;
#[cfg(test)]
mod frames;
#[cfg(test)]
mod mini;
#[cfg(test)]
mod opening;
#[cfg(test)]
mod pool;
#[cfg(test)]
mod recency;
#[cfg(test)]
mod replay;
