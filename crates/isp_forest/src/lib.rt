//! R-trees that split while they are searched, as lists: what an entry is, and in `specs/` the trees of such entries, the
//! small steps in which they change, walks along right links, and searches with what they must not miss. No page's
//! bytes, no lock and no code of the engine: contracts of upper crates cite these definitions.
//!
//! - `Tree`, `Forest`: a tree as its nodes; that they fit together.
//! - `Walk`: what a remembered page and sequence number lead to.
//! - `Steps`, `Place`: adding, raising, splitting, removing; paths, divisions, and the placing of an entry.
//! - `Choice`: the subtree that a new entry goes to.
//! - `Search`, `Visit`, `Attach`: a suspended search, one visit of it, and how an insert attaches it to further pages.
#![tactic(auto)]

mod entry;

pub use entry::{Entry, Seen, To};
