//! A frame, and writes into frames.

ghost use Rattle.std.specs.Prelude.{◌≡◌, ℕ, ◌+◌, ◌<◌, ◌≤◌, true, None, length, slice_index_or, slice_set};
ghost use Rattle.isp_format.specs.Ranges.{page_bytes};
ghost use Rattle.isp_pool.specs.Frames.{edited, flagged, frame_in, is_held, rewritten, IsFirstFree};

use isp_format::{Page, PageNo};

/// What a frame holds that isn't free: a page, its bytes, whether they differ from those of the file, and whether the page has to
/// stay.
#[derive(Clone, Copy)]
pub struct Frame {
    pub page: PageNo,
    pub content: Page,
    pub dirty: bool,
    pub pinned: bool,
}

// Sets both flags.
pub(crate) fn set_flags(frames: &mut Vec<Option<Frame>>, frame: usize, dirty: bool, pinned: bool)
    requires { frame < length frames.old.items }
    ensures { frames.new.items ≡ edited frames.old.items frame (flagged dirty pinned) }
{
    if let Some(held) = &mut frames[frame] {
        held.dirty = dirty;
        held.pinned = pinned;
    }
}

// Writes bytes into a page.
pub(crate) fn overwrite(frames: &mut Vec<Option<Frame>>, frame: usize, at: usize, bytes: &[u8])
    requires below { frame < length frames.old.items }
    requires range { at + length bytes.now ≤ page_bytes }
    ensures { frames.new.items ≡ edited frames.old.items frame (rewritten at bytes.now) }
{
    if let Some(held) = &mut frames[frame] {
        held.content.bytes[at..at + bytes.len()].copy_from_slice(bytes);
    }
}

// The first free frame from one on, where none is free before it; the count of frames where none is.
pub(crate) fn first_free(frames: &[Option<Frame>], from: usize) -> usize
    requires within { from ≤ length frames.now }
    requires held { (j : ℕ) → j < from → is_held (frame_in frames.now j) ≡ true }
    ensures { IsFirstFree frames.now result }
{
    for at in from..frames.len() {
        if frames[at].is_none() {
            return at;
        }
    }
    frames.len()
}
