//! Chains of frames by page number.
//!
//! A page's number modulo the count of frames names its chain. In a chain the frames stand in falling order, so that each walk
//! along it comes to its end.

ghost use Rattle.std.specs.Prelude.{◌≡◌, ℕ, ◌%◌, ◌<◌, ◌≤◌, ◌↔◌, IsTrue, IfOk, Some, None, length, replicate, slice_index_or, slice_set};
ghost use Rattle.isp_pool.specs.Chains.{in_its_chain, IsFound, IsAbove, IsLast, AreLinked, follower, start_with, links_with, IsWithin};

use crate::empty::all_none;
use isp_base::PageNo;
use std::alloc::{AllocError, Global};
use std::marker::Model;

/// The page of each frame. Contracts see a list of pages by frame, None where there is none.
#[derive(Drop)]
pub(crate) struct Chains {
    pages: Vec<Option<PageNo>>,
    /// The first frame of each chain.
    heads: Vec<Option<usize>>,
    /// The next frame of the chain that a frame is in.
    next: Vec<Option<usize>>,
}

impl Model for Chains {
    ghost use Rattle.std.specs.Prelude.{List, Option, length};
    ghost use Rattle.isp_base.specs.declared.page_no.PageNo.{PageNo};

    ghost Value = { List (Option PageNo) };

    ghost use Rattle.isp_pool.specs.Chains.{IsChained};

    ghost view = { λ c. c.pages.items };

    ghost invariant = { λ c. IsChained (length c.pages.items) c.pages.items
        c.heads.items c.next.items };
}

impl Chains {
    /// Chains of so many frames that have no page.
    pub(crate) fn new(alloc: Global, frames: usize) -> Result<Chains, AllocError>
        requires { 0 < frames }
        ensures { IfOk result (λ c. c ≡ replicate frames None) }
    {
        let pages = all_none(alloc, frames)?;
        let heads = all_none(alloc, frames)?;
        let next = all_none(alloc, frames)?;
        Ok(Chains { pages, heads, next })
    }

    /// A frame that has the page; None exactly where none has it.
    pub(crate) fn find(&self, p: PageNo) -> Option<usize>
        ensures { IsFound self.now p result }
    {
        let chain = chain_of(p, self.heads.len());
        find_from(&self.pages, &self.next, self.heads[chain], p)
    }

    /// The frame, which has no page, has this one from now on.
    pub(crate) fn link(&mut self, frame: usize, p: PageNo)
        requires below { frame < length self.old }
        requires free { slice_index_or self.old frame None ≡ None }
        ensures { self.new ≡ slice_set self.old frame (Some p) }
    {
        let chain = chain_of(p, self.heads.len());
        let above = above(&self.pages, &self.next, self.heads[chain], frame, p);
        self.next[frame] = follower(&self.heads, &self.next, chain, above);
        point(&mut self.heads, &mut self.next, chain, above, Some(frame));
        self.pages[frame] = Some(p);
    }

    /// The frame has no page any more.
    pub(crate) fn unlink(&mut self, frame: usize)
        requires { frame < length self.old }
        ensures { self.new ≡ slice_set self.old frame None }
    {
        if let Some(p) = self.pages[frame] {
            let chain = chain_of(p, self.heads.len());
            let above = above(&self.pages, &self.next, self.heads[chain], frame, p);
            let below = self.next[frame];
            point(&mut self.heads, &mut self.next, chain, above, below);
            self.pages[frame] = None;
        }
    }
}

fn chain_of(p: PageNo, chains: usize) -> usize
    requires { 0 < chains }
    ensures chain { result ≡ p.0 % chains }
    ensures below { result < chains }
{
    p.0 as usize % chains
}

fn has_page(pages: &[Option<PageNo>], frame: usize, p: PageNo) -> bool
    requires { frame < length pages.now }
    ensures { IsTrue result ↔ (slice_index_or pages.now frame None ≡ Some p) }
{
    match pages[frame] {
        Some(held) => held.0 == p.0,
        None => false,
    }
}

// The walk along a chain from a frame on, where no frame above it has the page.
fn find_from(
    pages: &[Option<PageNo>],
    next: &[Option<usize>],
    start: Option<usize>,
    p: PageNo,
) -> Option<usize>
    requires linked { AreLinked (length pages.now) pages.now next.now }
    requires start { IsLast (in_its_chain pages.now p) (length pages.now) start }
    ensures { IsFound pages.now p result }
{
    let mut at = start;
    while let Some(frame) = at {
        if has_page(pages, frame, p) {
            return Some(frame);
        }
        at = next[frame];
    }
    None
}

// The last frame of the page's chain that stands above a frame; None where none does.
fn above(
    pages: &[Option<PageNo>],
    next: &[Option<usize>],
    start: Option<usize>,
    frame: usize,
    p: PageNo,
) -> Option<usize>
    requires linked { AreLinked (length pages.now) pages.now next.now }
    requires start { IsLast (in_its_chain pages.now p) (length pages.now) start }
    ensures { IsAbove (in_its_chain pages.now p) frame (length pages.now) result }
{
    let mut above = None;
    let mut at = start;
    while let Some(passed) = at {
        if passed <= frame {
            return above;
        }
        above = at;
        at = next[passed];
    }
    above
}

// What stands behind a frame of a chain, or first in it.
fn follower(
    heads: &[Option<usize>],
    next: &[Option<usize>],
    chain: usize,
    above: Option<usize>,
) -> Option<usize>
    requires chain { chain < length heads.now }
    requires above { IsWithin above (length next.now) }
    ensures { result ≡ follower heads.now next.now chain above }
{
    match above {
        None => heads[chain],
        Some(passed) => next[passed],
    }
}

// Lets a frame of a chain be followed by that one, or the chain begin with it.
fn point(
    heads: &mut Vec<Option<usize>>,
    next: &mut Vec<Option<usize>>,
    chain: usize,
    above: Option<usize>,
    to: Option<usize>,
)
    requires chain { chain < length heads.old.items }
    requires above { IsWithin above (length next.old.items) }
    ensures heads { heads.new.items ≡ start_with heads.old.items chain above to }
    ensures next { next.new.items ≡ links_with next.old.items above to }
{
    match above {
        None => heads[chain] = to,
        Some(passed) => next[passed] = to,
    }
}
