//! The table.
//!
//! To find a search, to ask whether it is on a page and to attach it to one take a look-up each, however many there are.

ghost use Rattle.std.specs.Prelude.{◌≡◌, ◌+◌, ◌<◌, ◌≤◌, [], true, false, filter_map, is_some, length, map, IfOk, OnOk, OnErr};
ghost use Rattle.isp_events.specs.Lines.{pages_rising};
ghost use Rattle.isp_events.specs.State.{session_count};
ghost use Rattle.isp_predlock.specs.Inside.{page_for};
ghost use Rattle.isp_predlock.specs.Tables.{id_of, is_on, is_there, page_number, pages_of, sought_of, with_begun, with_page_at, without_session, AreNamed};

use crate::releasing::{drop_searches, keep_attached, keep_order};
use crate::{PageNo, SearchId, Sought};
use indexmap::IndexSet;
use slab::Slab;
use std::alloc::{AllocError, Global};
use std::collections::BTreeSet;
use std::marker::Model;

/// All searches in the order in which they were begun, each with the pages that it is on, and how many attachments take no
/// memory.
#[derive(Drop)]
pub struct PredLocks {
    searches: Slab<Sought>,
    /// The numbers of the searches, in order of beginning.
    order: Vec<usize>,
    attached: IndexSet<Attached>,
}

/// That a search is on a page.
#[derive(Clone, Copy, Debug, PartialEq, Eq, Hash)]
pub(crate) struct Attached {
    pub(crate) search: usize,
    pub(crate) page: u32,
}

impl Model for PredLocks {
    ghost use Rattle.isp_predlock.specs.Tables.{PredTable};

    ghost Value = { PredTable };

    ghost use Rattle.isp_predlock.specs.Inside.{view_of, IsKept};

    ghost view = { view_of };

    ghost invariant = { IsKept };
}

impl PredLocks {
    /// A table without a search. It takes no memory.
    pub fn new(alloc: Global) -> PredLocks
        ensures { result.searches ≡ [] }
    {
        PredLocks {
            searches: Slab::new(alloc),
            order: Vec::new(alloc),
            attached: IndexSet::new(alloc),
        }
    }

    /// Takes memory for so many more attachments. On an error, which is want of memory, the searches are as they were.
    pub fn reserve(&mut self, n: usize) -> Result<(), AllocError>
        ensures room { OnOk result (n ≤ self.new.spare) }
        ensures spare { self.old.spare ≤ self.new.spare }
        ensures searches { self.new.searches ≡ self.old.searches }
    {
        self.attached.reserve(n)
    }

    /// Begins a search, which is on no page. On an error, which is want of memory, the table is as it was.
    pub fn begin(&mut self, sought: &Sought) -> Result<SearchId, AllocError>
        requires session { sought.now.session < session_count }
        ensures begun { IfOk result (λ id. self.new ≡ with_begun self.old id.0 sought.now) }
        ensures fresh { IfOk result (λ id. is_there self.old.searches id.0 ≡ false) }
        ensures unchanged { OnErr result (self.new ≡ self.old) }
    {
        self.order.reserve(1)?;
        let id = self.searches.insert(*sought)?;
        self.order.push_reserved(id);
        Ok(SearchId(id))
    }

    /// How many searches there are.
    pub fn count(&self) -> usize
        ensures count { result ≡ length self.now.searches }
        ensures named { AreNamed self.now.searches }
    {
        self.ids().len()
    }

    /// The search of that number, as it began.
    pub fn sought(&self, id: SearchId) -> Option<Sought>
        ensures sought { result ≡ sought_of self.now.searches id.0 }
        ensures there { is_some result ≡ is_there self.now.searches id.0 }
    {
        self.searches.get(id.0).copied()
    }

    /// Whether the search is on the page.
    pub fn is_on(&self, id: SearchId, page: PageNo) -> bool
        ensures { result ≡ is_on self.now.searches id.0 page.0 }
    {
        let pair = Attached {
            search: id.0,
            page: page.0,
        };
        self.attached.contains(&pair)
    }

    /// The numbers of the searches, in order of beginning.
    pub(crate) fn ids(&self) -> &[usize]
        ensures ids { result.now ≡ map id_of self.now.searches }
        ensures named { AreNamed self.now.searches }
    {
        self.order.as_slice()
    }

    /// Attaches a search to a page, which changes nothing where it is there already. It takes no memory.
    pub fn attach(&mut self, id: SearchId, page: PageNo)
        requires there { is_there self.old.searches id.0 ≡ true }
        requires room { 0 < self.old.spare }
        ensures attached { self.new.searches ≡ with_page_at self.old.searches id.0 page.0 }
        ensures spare { self.old.spare ≤ self.new.spare + 1 }
        ensures again { is_on self.old.searches id.0 page.0 ≡ true → self.new ≡ self.old }
    {
        let pair = Attached {
            search: id.0,
            page: page.0,
        };
        if self.attached.contains(&pair) {
            return;
        }
        match self.attached.insert(pair) {
            Ok(_) => {}
            // There is room for it.
            Err(_) => unreachable!(),
        }
    }

    /// The pages that a search is on, rising.
    pub fn pages_of(&self, alloc: Global, id: SearchId) -> Result<Vec<PageNo>, AllocError>
        ensures { IfOk result (λ pages. map page_number pages.items
            ≡ pages_rising (pages_of self.now.searches id.0)) }
    {
        let pages = pages_rising(alloc, self.attached.as_slice(), id)?;
        pages.iter().map(|page| PageNo(*page)).collect(alloc)
    }

    /// Takes away all searches of a session and no other, with what they are attached to. It takes no memory.
    pub fn release_all(&mut self, session: u32)
        ensures searches { self.new.searches ≡ without_session self.old.searches session }
        ensures spare { self.old.spare ≤ self.new.spare }
    {
        drop_searches(&mut self.searches, session);
        keep_order(&mut self.order, &self.searches);
        keep_attached(&mut self.attached, &self.searches);
    }
}

// The pages of the search among these, rising.
fn pages_rising(
    alloc: Global,
    pairs: &[Attached],
    id: SearchId,
) -> Result<BTreeSet<u32>, AllocError>
    ensures { IfOk result (λ pages. pages.keys
        ≡ pages_rising (filter_map (page_for id.0) pairs.now)) }
{
    let mut pages = BTreeSet::new(alloc);
    for pair in pairs {
        if pair.search == id.0 {
            pages.insert(pair.page)?;
        }
    }
    Ok(pages)
}
