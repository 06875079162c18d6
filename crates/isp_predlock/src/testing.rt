//! The searches that an entry is tested against, and those that stand in its way.
//!
//! Each call goes once over all searches, and for each of another session that isn't on the leaf once over those that
//! percolate.

ghost use Rattle.std.specs.Prelude.{◌≡◌, filter_map, length, IfOk};
ghost use Rattle.isp_events.specs.State.{session_numbers};
ghost use Rattle.isp_predlock.specs.Entering.{listed};
ghost use Rattle.isp_predlock.specs.Tables.{at_id};
ghost use Rattle.isp_predlock.specs.Testing.{blocking, first_of, in_the_way, tested};

use crate::{On, PageNo, Percolation, Placing, PredLocks, SearchId};
use isp_mbr::satisfies;
use std::alloc::{AllocError, Global};

// Whether the search is in the list with that page.
pub(crate) fn is_listed(list: &[Percolation], id: SearchId, page: PageNo) -> bool
    ensures { result ≡ listed list.now id.0 page.0 }
{
    list.iter()
        .any(|found| found.search.0 == id.0 && found.page.0 == page.0)
}

// The first of that session's.
fn first_of(list: &[On], session: u32) -> Option<On>
    ensures { result ≡ first_of list.now session }
{
    for on in list {
        if on.session == session {
            return Some(*on);
        }
    }
    None
}

impl PredLocks {
    /// How many searches an entry is tested against: those of other sessions that are on its leaf, or percolate to it by
    /// `more`. Each counts once.
    pub fn tests(&self, placing: &Placing, more: &[Percolation]) -> usize
        ensures { result ≡ length (filter_map (tested placing.now more.now) self.now.searches) }
    {
        self.tests_among(self.ids(), placing, more)
    }

    fn tests_among(&self, ids: &[usize], placing: &Placing, more: &[Percolation]) -> usize
        ensures { result
            ≡ length (filter_map (at_id self.now.searches (tested placing.now more.now)) ids.now) }
    {
        let mut count = 0;
        for id in ids {
            if self.tested(SearchId(*id), placing, more).is_some() {
                count += 1;
            }
        }
        count
    }

    // The search, if the entry is tested against it.
    fn tested(&self, id: SearchId, placing: &Placing, more: &[Percolation]) -> Option<On>
        ensures { result ≡ at_id self.now.searches (tested placing.now more.now) id.0 }
    {
        let on = self.told(id)?;
        if on.session != placing.session
            && (self.is_on(id, placing.leaf) || is_listed(more, on.search, placing.leaf))
        {
            Some(on)
        } else {
            None
        }
    }

    /// The searches that stand in the way of an entry: it is tested against them, and its box is one that they ask for. Of each
    /// session that has some the first begun is told, by session.
    pub fn conflicts(
        &self,
        alloc: Global,
        placing: &Placing,
        more: &[Percolation],
    ) -> Result<Vec<On>, AllocError>
        ensures { IfOk result (λ list. list.items
            ≡ in_the_way placing.now more.now self.now.searches) }
    {
        let all = self.blocking_among(alloc, self.ids(), placing, more)?;
        firsts(alloc, all.as_slice())
    }

    fn blocking_among(
        &self,
        alloc: Global,
        ids: &[usize],
        placing: &Placing,
        more: &[Percolation],
    ) -> Result<Vec<On>, AllocError>
        ensures { IfOk result (λ list. list.items
            ≡ filter_map (at_id self.now.searches (blocking placing.now more.now)) ids.now) }
    {
        let mut list = Vec::new(alloc);
        for id in ids {
            if let Some(on) = self.blocking(SearchId(*id), placing, more) {
                list.push(on)?;
            }
        }
        Ok(list)
    }

    // The search, if it stands in the entry's way.
    fn blocking(&self, id: SearchId, placing: &Placing, more: &[Percolation]) -> Option<On>
        ensures { result ≡ at_id self.now.searches (blocking placing.now more.now) id.0 }
    {
        let on = self.tested(id, placing, more)?;
        if satisfies(&on.predicate, &placing.b) {
            Some(on)
        } else {
            None
        }
    }
}

// The first of each session, by session.
fn firsts(alloc: Global, all: &[On]) -> Result<Vec<On>, AllocError>
    ensures { IfOk result (λ list. list.items ≡ filter_map (first_of all.now) session_numbers) }
{
    let mut list = Vec::new(alloc);
    for session in 0..17 {
        if let Some(on) = first_of(all, session) {
            list.push(on)?;
        }
    }
    Ok(list)
}
