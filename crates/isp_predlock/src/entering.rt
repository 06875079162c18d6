//! The searches that percolate down a path, and those that are copied to a page.
//!
//! To find who percolates goes over all searches once for each page of the path, and for each that isn't on the page above over
//! those found so far. To copy goes once over all searches.

ghost use Rattle.std.specs.Prelude.{◌≡◌, ◌+◌, ◌<◌, ◌≤◌, ◌++◌, filter_map, length, map, true, IfOk, OnOk};
ghost use Rattle.isp_predlock.specs.Entering.{entered, lets_through, percolating_on};
ghost use Rattle.isp_predlock.specs.Tables.{are_there, at_id, copied_by, copied_on, is_copied, passes_at, with_pages, AreNamed};

use crate::testing::is_listed;
use crate::{Box4, Growing, PageNo, Percolation, PredLocks, Predicate, SearchId};
use isp_mbr::may_hold;
use std::alloc::{AllocError, Global};

// Whether the child's box can't hold what the predicate asks for, and can when it has grown.
fn lets_through(p: &Predicate, growing: &Growing) -> bool
    ensures { result ≡ lets_through p.now growing.now }
{
    !may_hold(p, &growing.old) && may_hold(p, &growing.new)
}

impl PredLocks {
    /// The searches that percolate where these boxes grow, from the root down: each that is on the parent or percolates to it,
    /// and that the growing box lets in, percolates to the child. They are told child by child, and for one child in order of
    /// beginning, also where they are on it already.
    pub fn percolating(
        &self,
        alloc: Global,
        grown: &[Growing],
    ) -> Result<Vec<Percolation>, AllocError>
        ensures percolating { IfOk result (λ list. list.items
            ≡ percolating_on self.now.searches grown.now) }
        ensures there { IfOk result (λ list. are_there self.now.searches list.items ≡ true) }
    {
        let mut list = Vec::new(alloc);
        for growing in grown {
            self.percolate(alloc, growing, &mut list)?;
        }
        Ok(list)
    }

    // Those that percolate to this child are added to the list.
    fn percolate(
        &self,
        alloc: Global,
        growing: &Growing,
        list: &mut Vec<Percolation>,
    ) -> Result<(), AllocError>
        ensures { OnOk result (list.new.items ≡ list.old.items
            ++ filter_map (entered list.old.items growing.now) self.now.searches) }
    {
        let more = self.entering_among(alloc, self.ids(), growing, list.as_slice())?;
        list.extend_from_slice(more.as_slice())
    }

    fn entering_among(
        &self,
        alloc: Global,
        ids: &[usize],
        growing: &Growing,
        found: &[Percolation],
    ) -> Result<Vec<Percolation>, AllocError>
        ensures { IfOk result (λ list. list.items
            ≡ filter_map (at_id self.now.searches (entered found.now growing.now)) ids.now) }
    {
        let mut list = Vec::new(alloc);
        for id in ids {
            if let Some(entered) = self.entered(SearchId(*id), growing, found) {
                list.push(entered)?;
            }
        }
        Ok(list)
    }

    // The search with the child, if it percolates to it.
    fn entered(&self, id: SearchId, growing: &Growing, found: &[Percolation]) -> Option<Percolation>
        ensures { result ≡ at_id self.now.searches (entered found.now growing.now) id.0 }
    {
        let on = self.told(id)?;
        if (self.is_on(id, growing.parent) || is_listed(found, on.search, growing.parent))
            && lets_through(&on.predicate, growing)
        {
            Some(Percolation {
                search: on.search,
                session: on.session,
                page: growing.child,
            })
        } else {
            None
        }
    }

    /// Attaches each search of the list to its page. It takes no memory.
    pub fn attach_all(&mut self, list: &[Percolation])
        requires there { are_there self.old.searches list.now ≡ true }
        requires room { length list.now ≤ self.old.spare }
        ensures attached { self.new.searches ≡ map (with_pages list.now) self.old.searches }
        ensures spare { self.old.spare ≤ self.new.spare + length list.now }
    {
        for found in list {
            self.attach(found.search, found.page);
        }
    }

    /// Attaches each search that is on page `from` and that a box may hold something for to page `to` as well. It takes no
    /// memory.
    pub fn copy(&mut self, from: PageNo, to: PageNo, b: &Box4)
        requires room { length self.old.searches ≤ self.old.spare }
        ensures copied { self.new.searches ≡ map (copied_on from.0 to.0 b.now) self.old.searches }
        ensures spare { self.old.spare ≤ self.new.spare + length self.old.searches }
    {
        for i in 0..self.ids().len() {
            let id = SearchId(self.ids()[i]);
            self.copy_one(id, from, to, b);
        }
    }

    // The same of one search.
    fn copy_one(&mut self, id: SearchId, from: PageNo, to: PageNo, b: &Box4)
        requires named { AreNamed self.old.searches }
        requires room { 0 < self.old.spare }
        ensures copied { self.new.searches
            ≡ map (copied_by id.0 from.0 to.0 b.now) self.old.searches }
        ensures spare { self.old.spare ≤ self.new.spare + 1 }
    {
        if self.is_copied(id, from, b) {
            self.attach(id, to);
        }
    }

    // Whether the search is on the page and the box may hold what it looks for.
    fn is_copied(&self, id: SearchId, from: PageNo, b: &Box4) -> bool
        ensures { result ≡ passes_at self.now.searches (is_copied from.0 b.now) id.0 }
    {
        match self.told(id) {
            Some(on) => self.is_on(id, from) && may_hold(&on.predicate, b),
            None => false,
        }
    }
}
