//! Pages of a file in frames of memory: read into them on demand, and written in place from them in batches.
//!
//! - `cache`: the frames over the file, and how a page comes into one.
//! - `cleaning`: dirty pages written in place.
#![tactic(auto)]

mod cache;
mod cleaning;

pub use cache::Cache;
