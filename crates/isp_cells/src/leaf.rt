//! What the header of a leaf says.
ghost use Rattle.std.specs.Prelude.{◌≡◌, ◌+◌, ◌≤◌, ℕ, List, Some, length, IfSome};
ghost use Rattle.std.specs.List.{flat_map};
ghost use Rattle.isp_format.specs.Header.{header_of};
ghost use Rattle.isp_format.specs.Kinds.{content_place};
ghost use Rattle.isp_format.specs.Leaf.{IsLeafPage, Stored, stored_bytes};
ghost use Rattle.isp_format.specs.Ranges.{page_bytes};
ghost use Rattle.isp_cells.specs.LeafPages.{SaysTree};

use isp_format::{CONTENT_PLACE, LEAF_KIND, PAGE_BYTES, Page, head};

/// Where the rows of a leaf end, if the page's header says a leaf with that number.
pub fn leaf_end(p: &Page, own: u32) -> Option<usize>
    ensures within { IfSome result (λ used. (content_place ≤ used) × (used ≤ page_bytes)) }
    ensures used { (table next : ℕ) (rows : List Stored)
        → IsLeafPage p.now.bytes table own next rows
        → result ≡ Some (content_place + length (flat_map stored_bytes rows)) }
    ensures says { IfSome result (λ used. SaysTree own (header_of p.now.bytes)) }
{
    let h = head(p);
    let is_leaf = h.kind == LEAF_KIND && h.level == 0 && h.own.0 == own;
    let used = h.used as usize;
    if is_leaf && used >= CONTENT_PLACE && used <= PAGE_BYTES {
        Some(used)
    } else {
        None
    }
}
