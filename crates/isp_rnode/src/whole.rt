//! Whether a page is a node of a tree.

ghost use Rattle.std.specs.Prelude.{◌↔◌, IsTrue};
ghost use Rattle.isp_format.specs.Header.{header_of};
ghost use Rattle.isp_rnode.specs.Nodes.{IsEnd, IsNode, SaysNode, node_of};

use crate::reading::{ENTRY_SIZE, readable};
use isp_format::{CONTENT_PLACE, Page, PageNo, head};

/// Whether the page is a node of that owner with that number: it can be read, and its header says both and where its entries
/// end.
pub fn is_node(p: &Page, owner: u32, own: PageNo) -> bool
    ensures { IsTrue result ↔ IsNode owner own.0 (node_of p.now.bytes) p.now.bytes }
{
    readable(p) && says_node(p, owner, own)
}

// Whether the header says them.
fn says_node(p: &Page, owner: u32, own: PageNo) -> bool
    ensures { IsTrue result ↔ SaysNode owner own.0 (header_of p.now.bytes) }
{
    let h = head(p);
    h.owner == owner && h.own.0 == own.0 && is_end(h.used, h.count)
}

// Whether so many entries end there.
fn is_end(used: u32, count: u16) -> bool
    ensures { IsTrue result ↔ IsEnd used count }
{
    used == CONTENT_PLACE as u32 + ENTRY_SIZE as u32 * u32::from(count)
}
