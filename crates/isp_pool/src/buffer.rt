//! The pool.

ghost use Rattle.std.specs.Prelude.{◌≡◌, ◌≢◌, ℕ, ◌+◌, ◌<◌, ◌≤◌, ◌↔◌, Bool, true, false, not, ◌&&◌, IsTrue, IfOk, IfSome, Some, None, [], ◌∷◌, length, replicate, count_by, slice_set};
ghost use Rattle.isp_format.specs.Ranges.{page_bytes};
ghost use Rattle.isp_recency.specs.Recent.{has, without, last_where};
ghost use Rattle.isp_pool.specs.Frames.{PoolState, IsPool, frame_at, page_of, content_of, is_held, is_dirty, is_pinned, is_unpinned, is_cleanable, most_frames, fresh_frame, loaded, with_frame, one_if, changed, used, victim_of, HoldsPage, MayGo, MayBeCleaned, rewritten, flagged};

use crate::Frame;
use crate::by_page::Chains;
use crate::empty::all_none;
use crate::frames::{first_free, overwrite, set_flags};
use isp_format::{Page, PageNo};
use isp_recency::Recency;
use std::alloc::{AllocError, Global};
use std::marker::Model;

/// Pages in frames. Contracts see the frames by number, and the numbers of those that hold a page in the order of their use, the
/// last used first.
#[derive(Drop)]
pub struct Pool {
    frames: Vec<Option<Frame>>,
    chains: Chains,
    recency: Recency,
    /// Which frames hold a page that isn't pinned.
    unpinned: Vec<bool>,
    /// Which of those are dirty.
    cleanable: Vec<bool>,
    dirty: u32,
    /// The first free frame, or the count of frames.
    fresh: usize,
}

impl Model for Pool {
    ghost use Rattle.isp_pool.specs.Frames.{PoolState};

    ghost Value = { PoolState };

    ghost use Rattle.isp_pool.specs.Kept.{Keeps};

    ghost view = { λ p. record { frames = p.frames.items; recent = p.recency.members } };

    ghost invariant = { λ p. Keeps p.frames.items p.chains p.recency p.unpinned.items
        p.cleanable.items p.dirty p.fresh };
}

impl Pool {
    /// So many free frames, 1 to 4,096. Only this takes memory.
    pub fn new(alloc: Global, frames: usize) -> Result<Pool, AllocError>
        requires least { 0 < frames }
        requires most { frames ≤ most_frames }
        ensures { IfOk result (λ p. p ≡ record { frames = replicate frames None; recent = [] }) }
    {
        let chains = Chains::new(alloc, frames)?;
        let recency = Recency::new(alloc, frames)?;
        let unpinned = all_false(alloc, frames)?;
        let cleanable = all_false(alloc, frames)?;
        let frames = all_none(alloc, frames)?;
        Ok(Pool {
            frames,
            chains,
            recency,
            unpinned,
            cleanable,
            dirty: 0,
            fresh: 0,
        })
    }

    /// How many frames there are.
    pub fn frames(&self) -> usize
        ensures count { result ≡ length self.now.frames }
        ensures kept { IsPool self.now }
    {
        self.recency.size()
    }

    /// The frame that holds the page; None exactly where no frame does. It looks at the frames of one chain alone.
    pub fn find(&self, p: PageNo) -> Option<usize>
        ensures found { IfSome result (HoldsPage self.now p) }
        ensures none { result ≡ None → (frame : ℕ) → page_of (frame_at self.now frame) ≢ Some p }
    {
        self.chains.find(p)
    }

    /// The frame for a page that is to be read: the first free one, else the last unpinned one of the order of use; None exactly
    /// where all are pinned.
    pub fn victim(&self) -> Option<usize>
        ensures which { result ≡ victim_of self.now }
        ensures unpinned { IfSome result (MayGo self.now) }
        ensures none { result ≡ None → (frame : ℕ) → frame < length self.now.frames
            → is_pinned (frame_at self.now frame) ≡ true }
    {
        if self.fresh < self.frames.len() {
            return Some(self.fresh);
        }
        self.recency.last_where_free(&self.unpinned)
    }

    /// Puts a page that no frame holds into a frame that is free, or clean and unpinned. The page is clean and unpinned, and last
    /// used.
    pub fn load(&mut self, frame: usize, p: PageNo, page: &Page)
        requires below { frame < length self.old.frames }
        requires clean { is_dirty (frame_at self.old frame) ≡ false }
        requires unpinned { is_pinned (frame_at self.old frame) ≡ false }
        requires absent { (k : ℕ) → page_of (frame_at self.old k) ≢ Some p }
        ensures { self.new ≡ loaded self.old frame p page.now }
    {
        let held = self.frames[frame].is_some();
        bring_forward(&mut self.recency, frame, held);
        self.chains.unlink(frame);
        self.chains.link(frame, p);
        self.frames[frame] = Some(newly_read(p, page));
        self.unpinned[frame] = true;
        self.cleanable[frame] = false;
        self.fresh = first_free(&self.frames, self.fresh);
    }

    /// The bytes of the page in a frame.
    pub fn page(&self, frame: usize) -> &Page
        requires { is_held (frame_at self.now frame) ≡ true }
        ensures { content_of (frame_at self.now frame) ≡ Some result.now }
    {
        let held = self.frames[frame].as_ref().unwrap();
        &held.content
    }

    /// Writes bytes into the page in a frame, from a place on. The frame is dirty then.
    pub fn change(&mut self, frame: usize, at: u16, bytes: &[u8])
        requires held { is_held (frame_at self.old frame) ≡ true }
        requires range { at + length bytes.now ≤ page_bytes }
        ensures { self.new ≡ changed self.old frame at bytes.now }
    {
        let pinned = self.is_pinned(frame);
        self.write(frame, at as usize, bytes);
        self.mark(frame, true, pinned);
    }

    /// A frame that holds a page was used: it comes first in the order of use.
    pub fn used(&mut self, frame: usize)
        requires { is_held (frame_at self.old frame) ≡ true }
        ensures { self.new ≡ used self.old frame }
    {
        self.recency.touch(frame);
    }

    /// The page in a frame is not to be evicted.
    pub fn pin(&mut self, frame: usize)
        requires { is_held (frame_at self.old frame) ≡ true }
        ensures { self.new ≡ with_frame self.old frame (λ f. record f { pinned = true }) }
    {
        let dirty = self.is_dirty(frame);
        self.mark(frame, dirty, true);
    }

    /// The page in a frame may be evicted.
    pub fn unpin(&mut self, frame: usize)
        requires { is_held (frame_at self.old frame) ≡ true }
        ensures { self.new ≡ with_frame self.old frame (λ f. record f { pinned = false }) }
    {
        let dirty = self.is_dirty(frame);
        self.mark(frame, dirty, false);
    }

    /// The page in a frame was written to the file.
    pub fn clean(&mut self, frame: usize)
        requires { is_held (frame_at self.old frame) ≡ true }
        ensures { self.new ≡ with_frame self.old frame (λ f. record f { dirty = false }) }
    {
        let pinned = self.is_pinned(frame);
        self.mark(frame, false, pinned);
    }

    /// Whether the page in a frame differs from the file's; a free frame isn't dirty.
    pub fn is_dirty(&self, frame: usize) -> bool
        requires { frame < length self.now.frames }
        ensures { result ≡ is_dirty (frame_at self.now frame) }
    {
        match &self.frames[frame] {
            Some(held) => held.dirty,
            None => false,
        }
    }

    /// Whether the page in a frame has to stay; a free frame isn't pinned.
    pub fn is_pinned(&self, frame: usize) -> bool
        requires { frame < length self.now.frames }
        ensures { result ≡ is_pinned (frame_at self.now frame) }
    {
        match &self.frames[frame] {
            Some(held) => held.pinned,
            None => false,
        }
    }

    /// The page in a frame; None exactly where it is free.
    pub fn holds(&self, frame: usize) -> Option<PageNo>
        requires { frame < length self.now.frames }
        ensures { result ≡ page_of (frame_at self.now frame) }
    {
        match &self.frames[frame] {
            Some(held) => Some(held.page),
            None => None,
        }
    }

    /// The last frame of the order of use that is dirty and unpinned; None exactly where no dirty one is unpinned.
    pub fn last_dirty(&self) -> Option<usize>
        ensures which { result
            ≡ last_where (λ frame. is_cleanable (frame_at self.now frame)) self.now.recent }
        ensures dirty { IfSome result (MayBeCleaned self.now) }
        ensures none { result ≡ None → (frame : ℕ) → is_dirty (frame_at self.now frame) ≡ true
            → is_pinned (frame_at self.now frame) ≡ true }
    {
        self.recency.last_where_free(&self.cleanable)
    }

    /// How many frames are dirty.
    pub fn dirty_count(&self) -> u32
        ensures { result ≡ count_by is_dirty self.now.frames }
    {
        self.dirty
    }

    // Changes the bytes of a page alone.
    fn write(&mut self, frame: usize, at: usize, bytes: &[u8])
        requires held { is_held (frame_at self.old frame) ≡ true }
        requires range { at + length bytes.now ≤ page_bytes }
        ensures { self.new ≡ with_frame self.old frame (rewritten at bytes.now) }
    {
        overwrite(&mut self.frames, frame, at, bytes);
    }

    // Sets both flags of a frame.
    fn mark(&mut self, frame: usize, dirty: bool, pinned: bool)
        requires { is_held (frame_at self.old frame) ≡ true }
        ensures { self.new ≡ with_frame self.old frame (flagged dirty pinned) }
    {
        let was = self.is_dirty(frame);
        self.dirty = recount(self.dirty, was, dirty);
        set_flags(&mut self.frames, frame, dirty, pinned);
        self.unpinned[frame] = !pinned;
        self.cleanable[frame] = may_be_cleaned(dirty, pinned);
    }
}

fn newly_read(p: PageNo, page: &Page) -> Frame
    ensures frame { result ≡ fresh_frame p page.now }
    ensures whole { length page.now.bytes ≡ page_bytes }
{
    let bytes = page.bytes;
    Frame {
        page: p,
        content: Page { bytes },
        dirty: false,
        pinned: false,
    }
}

fn may_be_cleaned(dirty: bool, pinned: bool) -> bool
    ensures { result ≡ (dirty && not pinned) }
{
    dirty && !pinned
}

// A count after one of those counted, or not, came to be so or not.
fn recount(count: u32, was: bool, is: bool) -> u32
    requires there { was ≡ true → 0 < count }
    requires few { count ≤ most_frames }
    ensures { result + one_if was ≡ count + one_if is }
{
    let others = if was { count - 1 } else { count };
    if is { others + 1 } else { others }
}

// A number comes to the front of the list, whether it is there or not.
fn bring_forward(recency: &mut Recency, i: usize, there: bool)
    requires below { i < recency.old.size }
    requires there { has recency.old.members i ≡ there }
    ensures { recency.new
        ≡ record { size = recency.old.size; members = i ∷ without recency.old.members i } }
{
    if there {
        recency.touch(i);
    } else {
        recency.push_front(i);
    }
}

fn all_false(alloc: Global, n: usize) -> Result<Vec<bool>, AllocError>
    ensures { IfOk result (λ v. v.items ≡ replicate n false) }
{
    Vec::from_elem(alloc, false, n)
}
