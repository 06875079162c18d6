//! The undo directory in the bytes of page 1, in memory: the first and the last page of each slot's chain.
ghost use Rattle.std.specs.Prelude.{◌≡◌, ◌+◌, ◌*◌, ◌<◌, List, set};
ghost use Rattle.isp_format.specs.Header.{number_in};
ghost use Rattle.isp_format.specs.Kinds.{content_place};
ghost use Rattle.isp_format.specs.Undo.{IsUndoDirectory, Slot as Ends, last_place, undo_slot_size, undo_slots};
ghost use Rattle.isp_undo_pages.specs.Directory.{ends_at, ends_in};

use isp_format::{CONTENT_PLACE, LAST_PLACE, Page, PageNo, UNDO_SLOT_BYTES, get_u32, put_u32};

/// The first and the last page of a chain, 0 where there is none.
#[derive(Clone, Copy)]
pub struct Slot {
    pub first: PageNo,
    pub last: PageNo,
}

/// What the directory says of a slot.
pub fn slot_in(p: &Page, slot: u32) -> Slot
    requires { slot < undo_slots }
    ensures ends { (slots : List Ends) → IsUndoDirectory p.now.bytes slots
        → ends_in result ≡ ends_at slot slots }
    ensures numbers { ends_in result
        ≡ (
          number_in 4 p.now.bytes (content_place + undo_slot_size * slot),
          number_in 4 p.now.bytes (content_place + undo_slot_size * slot + last_place),
        ) }
{
    let at = place_of(slot);
    Slot {
        first: PageNo(get_u32(p, at)),
        last: PageNo(get_u32(p, at + LAST_PLACE)),
    }
}

// Where a slot stands in the directory.
fn place_of(slot: u32) -> usize
    requires { slot < undo_slots }
    ensures place { result ≡ content_place + undo_slot_size * slot }
{
    CONTENT_PLACE + UNDO_SLOT_BYTES * slot as usize
}

/// The directory with this said of a slot.
pub fn with_slot(p: &Page, slot: u32, ends: Slot) -> Page
    requires { slot < undo_slots }
    ensures { (slots : List Ends) → IsUndoDirectory p.now.bytes slots
        → IsUndoDirectory result.bytes (set slots slot (ends_in ends)) }
{
    let mut new = *p;
    let at = place_of(slot);
    put_u32(&mut new, at, ends.first.0);
    put_u32(&mut new, at + LAST_PLACE, ends.last.0);
    new
}
