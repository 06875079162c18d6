//! Tests of the crates from the disk up to the stable file, through their public calls. They stand in a crate of their own,
//! since a crate with tests is proved with them and without.
//!
//! - `worlds`: a disk in memory, with what a stop leaves of it.
//! - `sources`: scripts in memory and on standard input.
//! - `files`: a disk in a file.
//! - `paging`: headers and fields of pages, and pages in memory.
//! - `redo`: logs byte by byte, and what they tell.
//! - `doublewrite`: lists of copies, and a batch written in place.
//! - `making`: an empty file byte by byte.
//! - `stable`: a file made, written, logged and emptied.
#![tactic(auto)]

#[cfg(test)]
mod doublewrite;
#[cfg(test)]
mod files;
#[cfg(test)]
mod making;
#[cfg(test)]
mod paging;
#[cfg(test)]
mod redo;
#[cfg(test)]
mod sources;
#[cfg(test)]
mod stable;
#[cfg(test)]
mod worlds;
