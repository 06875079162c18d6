//! The layout of the file, version 1: what an image of it stands for, and the one place where its bytes are spelled and read.
//!
//! An image is a byte at every place (`isp_disk`). `specs/` reads from it the control block, the doublewrite area, the
//! page area with the copies laid over it, the log's batches, and the contents of all pages that they stand for together.
//!
//! - `sizes`: the sizes and places of the file, and its gates.
//! - `layout`: where a page and a copy lie.
//! - `fields`, `definition_fields`: sizes and places within what pages hold.
//! - `rules`: the numbers of the page rules, and of the pages that have a place of their own.
//! - `page`, `numbers`: the bytes of a page, and the numbers in them.
//! - `header`, `heads`, `kinds`: the header at the front of a page, and what its kind says.
//! - `first_pages`, `space_fields`: the pages that every file has, and the fields of page 0.
//! - `control`, `copy_list`, `log_fields`: the fields of the control block, of the doublewrite area and of the log.
#![tactic(auto)]

mod control;
mod copy_list;
pub mod definition_fields;
mod fields;
mod first_pages;
mod header;
mod heads;
mod kinds;
mod layout;
mod log_fields;
mod numbers;
mod page;
mod rules;
mod sizes;
mod space_fields;

pub use control::{Control, control_bytes, control_in};
pub use copy_list::copy_numbers;
pub use fields::{
    CHILD_PLACE, IMAGE_HEAD, IMAGE_KEY_PLACE, IMAGE_KIND_PLACE, IMAGE_LENGTH_PLACE,
    IMAGE_ROW_PLACE, LAST_PLACE, MOST_NAMES, MOST_SLOT, NAME_BYTES, UNDO_SLOT_BYTES, UNDO_SLOTS,
    law_fields,
};
pub use first_pages::first_page;
pub use header::Head;
pub use heads::{count_of, head, kind_of, level_of, set_head};
pub use isp_base::PageNo;
pub use kinds::{FREE_KIND, INNER_KIND, LEAF_KIND, RTREE_KIND, UNDO_KIND, clustered_owner};
pub use layout::{copy_place, number_place, page_place};
pub use log_fields::{
    RangeHead, be_u16, be_u32, range_head, range_head_bytes, u16_bytes, u32_bytes,
};
pub use numbers::{
    get_i32, get_i64, get_u16, get_u32, get_u64, put_bytes, put_u16, put_u32, put_u64,
};
pub use page::Page;
pub use rules::{
    CATALOGUE_PAGE, CATALOGUE_RULE, CHAIN_RULE, CONTROL_RULE, COPIES_RULE, LOG_RULE, ROWS_RULE,
    RTREE_RULE, SPACE_PAGE, SPACE_RULE, TREE_RULE, UNDO_DIRECTORY_PAGE, UNDO_RULE, WALK_RULE,
    law_rules,
};
pub use sizes::{
    BATCH_HEAD, CONTENT_PLACE, CONTROL_BYTES, COUNT_BYTES, COUNT_PLACE, DOUBLEWRITE_GATE,
    FIRST_FRESH, LEAST_FANOUT, LEAST_PAGES, LENGTH_PLACE, LIST_BYTES, LOG_BYTES, LOG_PLACE,
    MADE_GATE, MARK_PLACE, MOST_COPIES, MOST_FANOUT, MOST_PAGES, MOST_TABLES, PAGE_BYTES,
    RANGE_HEAD, SLOT_PLACE, STORED_HEAD, law_sizes,
};
pub use space_fields::{SpaceNumbers, set_space_numbers, space_numbers};
