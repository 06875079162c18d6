//! Numbers of pages.

use std::clone::Clone;

/// The number of a page, counted from the start of the file.
#[derive(Clone, Copy, Debug, PartialEq, Eq)]
pub struct PageNo(pub u32);
