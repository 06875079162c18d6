//! What the open mini-transaction changed.
ghost use Rattle.std.specs.Prelude.{◌≡◌, ◌+◌, ◌<◌, ◌≤◌, ◌==◌, ◌++◌, [], ◌∷◌, IfOk, length, vec_capacity};
ghost use Rattle.std.specs.List.{position};
ghost use Rattle.isp_format.specs.Ranges.{page_bytes};
ghost use Rattle.isp_page.specs.State.{most_changed};
ghost use Rattle.isp_mini.specs.Extents.{AreExtents, widened, with_extent};

use isp_format::PageNo;
use isp_page::MOST_CHANGED;
use std::alloc::{AllocError, Global};
use std::marker::Model;

/// The bytes of a page from `at` to before `end`.
#[derive(Clone, Copy, PartialEq, Eq)]
pub struct Extent {
    pub page: PageNo,
    pub at: u16,
    pub end: u16,
}

impl Extent {
    // The least extent of the page that has these bytes and its own.
    fn widened(self, page: PageNo, at: u16, end: u16) -> Extent
        ensures { result ≡ widened page at end self }
    {
        Extent {
            page,
            at: self.at.min(at),
            end: self.end.max(end),
        }
    }
}

/// Of each page that the mini-transaction changed the least range that has all bytes changed there, in the order of first
/// change.
#[derive(Drop)]
pub struct Changes {
    extents: Vec<Extent>,
}

impl Model for Changes {
    ghost use Rattle.std.specs.Prelude.{◌≤◌, List, vec_capacity};
    ghost use Rattle.isp_page.specs.State.{most_changed};
    ghost use Rattle.isp_mini.specs.Extents.{AreExtents};
    ghost use Rattle.isp_mini.specs.declared.changes.Extent.{Extent};

    ghost Value = { List Extent };

    ghost view = { λ c. c.extents.items };

    ghost invariant = { λ c. AreExtents c.extents.items × (most_changed ≤ vec_capacity c.extents) };
}

impl Changes {
    /// No change yet. Only this takes memory.
    pub fn new(alloc: Global) -> Result<Changes, AllocError>
        ensures { IfOk result (λ changes. changes ≡ []) }
    {
        let extents = Vec::with_capacity(alloc, MOST_CHANGED)?;
        Ok(Changes { extents })
    }

    /// The extents, one a page.
    pub fn extents(&self) -> &[Extent]
        ensures value { result.now ≡ self.now }
        ensures kept { AreExtents self.now }
    {
        self.extents.as_slice()
    }

    /// How many pages were changed.
    pub fn len(&self) -> usize
        ensures { result ≡ length self.now }
    {
        self.extents.len()
    }

    /// Whether no page was changed.
    pub fn is_empty(&self) -> bool
        ensures { result ≡ (length self.now == 0) }
    {
        self.extents.is_empty()
    }

    /// Notes that so many bytes of the page from `at` on were changed.
    pub fn note(&mut self, page: PageNo, at: u16, len: u16)
        requires some { 1 ≤ len }
        requires inside { at + len ≤ page_bytes }
        requires few { length (with_extent page at (at + len) self.old) ≤ most_changed }
        ensures { self.new ≡ with_extent page at (at + len) self.old }
    {
        add(&mut self.extents, page, at, at + len);
    }

    /// Forgets all changes.
    pub fn clear(&mut self)
        ensures { self.new ≡ [] }
    {
        self.extents.clear();
    }
}

// The place of the page's extent.
fn place_of(extents: &[Extent], page: PageNo) -> Option<usize>
    ensures { result ≡ position (λ extent. extent.page.0 == page.0) extents.now }
{
    extents.iter().position(|extent| extent.page == page)
}

// Puts an extent behind the others.
fn put_behind(extents: &mut Vec<Extent>, extent: Extent)
    requires { length extents.old.items < vec_capacity extents.old }
    ensures put { extents.new.items ≡ extents.old.items ++ extent ∷ [] }
    ensures capacity { vec_capacity extents.old ≤ vec_capacity extents.new }
{
    match extents.push(extent) {
        Ok(()) => {}
        // There is room for it.
        Err(_) => unreachable!(),
    }
}

// Widens the page's extent to these bytes, or puts a new one behind the others.
fn add(extents: &mut Vec<Extent>, page: PageNo, at: u16, end: u16)
    requires { length (with_extent page at end extents.old.items) ≤ vec_capacity extents.old }
    ensures noted { extents.new.items ≡ with_extent page at end extents.old.items }
    ensures capacity { vec_capacity extents.old ≤ vec_capacity extents.new }
{
    match place_of(extents, page) {
        Some(place) => extents[place] = extents[place].widened(page, at, end),
        None => put_behind(extents, Extent { page, at, end }),
    }
}
