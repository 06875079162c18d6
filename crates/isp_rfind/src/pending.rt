//! Pages that are still to be read.

use isp_format::PageNo;

/// A page that is still to be read, and the level of the page above it.
#[derive(Clone, Copy)]
pub(crate) struct Pending {
    pub page: PageNo,
    pub above: u8,
}
