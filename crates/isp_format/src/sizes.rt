//! Sizes and places of the file, in bytes, and the numbers that it may have.
ghost use Rattle.isp_format.specs.Sizes.{AreSizes};

/// How many bytes a page has.
pub const PAGE_BYTES: usize = 4_096;

/// How many bytes the control block at the front of the file has.
pub const CONTROL_BYTES: usize = 64;

/// Where the control block has the number of pages.
pub(crate) const PAGES_PLACE: usize = 8;

/// Where it has the fan-out.
pub(crate) const FANOUT_PLACE: usize = 12;

/// The made-gate, its last byte: the file was made whole where it is 1.
pub const MADE_GATE: usize = 63;

/// The least number of pages of a file.
pub const LEAST_PAGES: u32 = 64;

/// The greatest number of pages of a file.
pub const MOST_PAGES: u32 = 65_536;

/// The least fan-out.
pub const LEAST_FANOUT: u32 = 4;

/// The greatest fan-out.
pub const MOST_FANOUT: u32 = 120;

/// The gate of the doublewrite area: the copies count where it is 1.
pub const DOUBLEWRITE_GATE: u64 = 512;

/// The number of copies, in four bytes, and behind it the list of their page numbers.
pub const COUNT_PLACE: u64 = 1_024;

/// How many bytes that number and the list have.
pub const LIST_BYTES: usize = 260;

/// Where the list begins.
pub(crate) const LIST_PLACE: u64 = 1_028;

/// Where the copies begin.
pub(crate) const COPIES_PLACE: u64 = 4_096;

/// How many copies there are at most.
pub const MOST_COPIES: usize = 64;

/// Where the log begins, with its first gate.
pub const LOG_PLACE: u64 = 266_240;

/// How many bytes the log has.
pub const LOG_BYTES: u64 = 1_048_576;

/// How many bytes of a batch stand before its body: its gate, and the body's length.
pub const BATCH_HEAD: u64 = 5;

/// How many bytes the number of a mini-transaction's ranges has.
pub const COUNT_BYTES: u64 = 2;

/// How many bytes of a range stand before its own: its page, its place there and its length.
pub const RANGE_HEAD: u64 = 8;

/// Where the page area begins.
pub(crate) const AREA_PLACE: u64 = 1_314_816;

/// Where what a page holds begins, behind its header and what is free of it.
pub const CONTENT_PLACE: usize = 64;

/// How many pages every file has in use, which is the first page never used.
pub const FIRST_FRESH: u32 = 16;

/// Where page 0 has the number of the first page never used.
pub(crate) const FRESH_PLACE: usize = 72;

/// How many tables a file has at most.
pub const MOST_TABLES: u32 = 64;

/// How many bytes of a row on a leaf stand before its own: its key, its mark, the size of its slot, its length.
pub const STORED_HEAD: usize = 13;

/// Where the mark stands in them.
pub const MARK_PLACE: usize = 8;

/// Where the size of the slot stands in them.
pub const SLOT_PLACE: usize = 9;

/// Where the row's length stands in them.
pub const LENGTH_PLACE: usize = 11;

/// The sizes are those of the definitions.
pub fn law_sizes()
    ensures { AreSizes }
{}
