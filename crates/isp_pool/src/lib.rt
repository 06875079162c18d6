//! The buffer pool: pages of a file in frames of memory.
//!
//! Each frame is free or holds a page, with its bytes and whether it is dirty (changed since it was read or last written) and
//! pinned (not to be evicted). No page stands in two frames. A frame is found by its page's number along a chain of frames, and
//! evicted in the order of use. All memory is taken when the pool is made.
//!
//! - `frames`: a frame, and writes into frames.
//! - `by_page`: chains of frames by page number.
//! - `empty`: vectors of nothing yet.
//! - `buffer`: the pool.
#![tactic(auto)]

mod buffer;
mod by_page;
mod empty;
mod frames;

pub use buffer::Pool;
pub use frames::Frame;
