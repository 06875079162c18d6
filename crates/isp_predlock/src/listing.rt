//! The searches on a page, and those of a session.
//!
//! Each call goes once over all searches.

ghost use Rattle.std.specs.Prelude.{◌≡◌, filter_map, IfOk};
ghost use Rattle.isp_predlock.specs.Tables.{at_id, id_in, told, told_on};

use crate::{On, PageNo, PredLocks, SearchId};
use std::alloc::{AllocError, Global};

impl PredLocks {
    /// The searches that are on a page, in order of beginning.
    pub fn on_page(&self, alloc: Global, page: PageNo) -> Result<Vec<On>, AllocError>
        ensures { IfOk result (λ list. list.items ≡ filter_map (told_on page.0) self.now.searches) }
    {
        self.on_page_among(alloc, self.ids(), page)
    }

    fn on_page_among(
        &self,
        alloc: Global,
        ids: &[usize],
        page: PageNo,
    ) -> Result<Vec<On>, AllocError>
        ensures { IfOk result (λ list. list.items
            ≡ filter_map (at_id self.now.searches (told_on page.0)) ids.now) }
    {
        let mut list = Vec::new(alloc);
        for id in ids {
            if let Some(on) = self.told_on(SearchId(*id), page) {
                list.push(on)?;
            }
        }
        Ok(list)
    }

    // The search, if it is on the page.
    fn told_on(&self, id: SearchId, page: PageNo) -> Option<On>
        ensures { result ≡ at_id self.now.searches (told_on page.0) id.0 }
    {
        let on = self.told(id)?;
        if self.is_on(id, page) { Some(on) } else { None }
    }

    // The search of that number.
    pub(crate) fn told(&self, id: SearchId) -> Option<On>
        ensures { result ≡ at_id self.now.searches told id.0 }
    {
        let sought = self.sought(id)?;
        Some(On {
            search: id,
            session: sought.session,
            predicate: sought.predicate,
        })
    }

    /// The searches of a session, in order of beginning.
    pub fn searches_of(&self, alloc: Global, session: u32) -> Result<Vec<SearchId>, AllocError>
        ensures { IfOk result (λ list. list.items ≡ filter_map (id_in session) self.now.searches) }
    {
        self.searches_among(alloc, self.ids(), session)
    }

    fn searches_among(
        &self,
        alloc: Global,
        ids: &[usize],
        session: u32,
    ) -> Result<Vec<SearchId>, AllocError>
        ensures { IfOk result (λ list. list.items
            ≡ filter_map (at_id self.now.searches (id_in session)) ids.now) }
    {
        let mut list = Vec::new(alloc);
        for id in ids {
            if let Some(search) = self.id_in(SearchId(*id), session) {
                list.push(search)?;
            }
        }
        Ok(list)
    }

    // The search, if it is the session's.
    fn id_in(&self, id: SearchId, session: u32) -> Option<SearchId>
        ensures { result ≡ at_id self.now.searches (id_in session) id.0 }
    {
        let on = self.told(id)?;
        if on.session == session {
            Some(on.search)
        } else {
            None
        }
    }
}
