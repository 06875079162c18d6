//! What is seen of a table, compared.

use crate::acts::{Grown, Try, Whose};
use isp_predlock::{Box4, Growing, On, PageNo, Percolation, Placing, PredLocks, SearchId};
use std::alloc::{AllocError, Global};

/// The box of these corners, if they are in order.
pub(crate) fn box_of(c: [i32; 4]) -> Option<Box4> {
    Box4::new(c[0], c[1], c[2], c[3])
}

fn are_as(list: &[On], wanted: &[Whose]) -> bool {
    if list.len() != wanted.len() {
        return false;
    }
    for (on, (search, session)) in list.iter().zip(wanted) {
        if on.search.0 != *search || on.session != *session {
            return false;
        }
    }
    true
}

/// Whether these percolate, each to its page.
pub(crate) fn percolate_as(list: &[Percolation], wanted: &[(usize, u32, u32)]) -> bool {
    if list.len() != wanted.len() {
        return false;
    }
    for (found, (search, session, page)) in list.iter().zip(wanted) {
        if found.search.0 != *search || found.session != *session || found.page.0 != *page {
            return false;
        }
    }
    true
}

/// Whether these searches are on the page.
pub(crate) fn sees_page(
    alloc: Global,
    locks: &PredLocks,
    page: u32,
    wanted: &[Whose],
) -> Result<bool, AllocError> {
    let list = locks.on_page(alloc, PageNo(page))?;
    Ok(are_as(list.as_slice(), wanted))
}

/// Whether the search is on these pages, and on no others of those below 64.
pub(crate) fn sees_search(
    alloc: Global,
    locks: &PredLocks,
    search: usize,
    wanted: &[u32],
) -> Result<bool, AllocError> {
    let list = locks.pages_of(alloc, SearchId(search))?;
    if list.len() != wanted.len() {
        return Ok(false);
    }
    for (page, number) in list.iter().zip(wanted) {
        if page.0 != *number || !locks.is_on(SearchId(search), *page) {
            return Ok(false);
        }
    }
    Ok(true)
}

/// Whether these are the session's searches.
pub(crate) fn sees_session(
    alloc: Global,
    locks: &PredLocks,
    session: u32,
    wanted: &[usize],
) -> Result<bool, AllocError> {
    let list = locks.searches_of(alloc, session)?;
    if list.len() != wanted.len() {
        return Ok(false);
    }
    for (search, number) in list.iter().zip(wanted) {
        if search.0 != *number {
            return Ok(false);
        }
    }
    Ok(true)
}

/// Whether the entry is tested and stopped so, where these percolate.
pub(crate) fn is_tried(
    alloc: Global,
    locks: &PredLocks,
    entry: &Try,
    more: &[Percolation],
) -> Result<bool, AllocError> {
    match box_of(entry.corners) {
        None => Ok(false),
        Some(b) => {
            let placing = Placing {
                session: entry.session,
                leaf: PageNo(entry.leaf),
                b,
            };
            let by = locks.conflicts(alloc, &placing, more)?;
            Ok(locks.tests(&placing, more) == entry.tests && are_as(by.as_slice(), entry.by))
        }
    }
}

fn growing(g: &Grown) -> Option<Growing> {
    let old = box_of(g.old)?;
    let new = box_of(g.new)?;
    Some(Growing {
        parent: PageNo(g.parent),
        child: PageNo(g.child),
        old,
        new,
    })
}

/// The boxes that grow.
pub(crate) fn all_growing(alloc: Global, grown: &[Grown]) -> Result<Vec<Growing>, AllocError> {
    let mut list = Vec::new(alloc);
    for g in grown {
        if let Some(one) = growing(g) {
            list.push(one)?;
        }
    }
    Ok(list)
}
