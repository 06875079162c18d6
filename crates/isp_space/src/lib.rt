//! The space of a file's pages: which are free, and the counters of page 0.
//!
//! Page 0 tells the head and the length of the free chain, the first page never used, how many tables there are, the number
//! of the next entry of an R-tree, and how many bytes were put into clustered trees. `specs/Spaces` reads them as one value.
#![tactic(auto)]

mod giving;
mod space;
mod taking;

pub use giving::give_chain;
pub use space::{add_bytes, count_table, draw_number, free_count, has_room, table_count};
pub use taking::take_page;
