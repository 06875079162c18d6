//! What every crate cites: strings of bytes, copies that can run out of memory, numbers of pages; in `specs/`, words on lists.
#![tactic(auto)]

mod bytes;
mod duplicate;
mod page_no;

pub use bytes::{Bytes, Name};
pub use duplicate::Duplicate;
pub use page_no::PageNo;
