//! A list of acts is done.
ghost use Rattle.std.specs.Prelude.{◌≡◌, ◌≤◌, length, true};
ghost use Rattle.isp_predlock.specs.Tables.{are_there};

use crate::acts::{Act, Grown, Try};
use crate::seen::{
    all_growing, box_of, is_tried, percolate_as, sees_page, sees_search, sees_session,
};
use isp_predlock::{PageNo, Percolation, PredLocks, Predicate, SearchId, Sought, Test};
use std::alloc::{AllocError, Global};

fn begin(
    locks: &mut PredLocks,
    session: u32,
    corners: [i32; 4],
    number: usize,
) -> Result<bool, AllocError> {
    if session > 16 {
        return Ok(false);
    }
    match box_of(corners) {
        None => Ok(false),
        Some(q) => {
            let sought = Sought {
                session,
                statement: 1,
                table: 1,
                column: 1,
                predicate: Predicate {
                    test: Test::Intersects,
                    q,
                },
            };
            let id = locks.begin(&sought)?;
            Ok(id.0 == number)
        }
    }
}

fn attach(locks: &mut PredLocks, search: usize, page: u32) -> Result<bool, AllocError> {
    if locks.sought(SearchId(search)).is_none() {
        return Ok(false);
    }
    locks.reserve(1)?;
    locks.attach(SearchId(search), PageNo(page));
    Ok(true)
}

fn attach_all(locks: &mut PredLocks, list: &[Percolation]) -> Result<(), AllocError>
    requires there { are_there locks.old.searches list.now ≡ true }
{
    locks.reserve(list.len())?;
    locks.attach_all(list);
    Ok(())
}

fn copy(locks: &mut PredLocks, from: u32, to: u32, corners: [i32; 4]) -> Result<bool, AllocError> {
    match box_of(corners) {
        None => Ok(false),
        Some(b) => {
            let count = locks.count();
            locks.reserve(count)?;
            locks.copy(PageNo(from), PageNo(to), &b);
            Ok(true)
        }
    }
}

fn grow(
    alloc: Global,
    locks: &mut PredLocks,
    grown: &[Grown],
    wanted: &[(usize, u32, u32)],
    entry: &Try,
) -> Result<bool, AllocError> {
    let boxes = all_growing(alloc, grown)?;
    let list = locks.percolating(alloc, boxes.as_slice())?;
    if !percolate_as(list.as_slice(), wanted) {
        return Ok(false);
    }
    let tried = is_tried(alloc, locks, entry, list.as_slice())?;
    attach_all(locks, list.as_slice())?;
    Ok(tried && boxes.len() == grown.len())
}

fn does(alloc: Global, locks: &mut PredLocks, act: &Act) -> Result<bool, AllocError> {
    match act {
        Act::Begins(session, corners, number) => begin(locks, *session, *corners, *number),
        Act::Attaches(search, page) => attach(locks, *search, *page),
        Act::Copies(from, to, corners) => copy(locks, *from, *to, *corners),
        Act::Releases(session) => {
            locks.release_all(*session);
            Ok(true)
        }
        Act::Grows(grown, wanted, entry) => grow(alloc, locks, *grown, *wanted, entry),
        _ => sees(alloc, locks, act),
    }
}

fn sees(alloc: Global, locks: &PredLocks, act: &Act) -> Result<bool, AllocError> {
    match act {
        Act::SeesPage(page, wanted) => sees_page(alloc, locks, *page, *wanted),
        Act::SeesSearch(search, wanted) => sees_search(alloc, locks, *search, *wanted),
        Act::SeesSession(session, wanted) => sees_session(alloc, locks, *session, *wanted),
        Act::Tries(entry) => is_tried(alloc, locks, entry, &[]),
        _ => Ok(false),
    }
}

/// Whether all of these acts go as they are told, one after another, from an empty table on.
pub(crate) fn run(alloc: Global, acts: &[Act]) -> Result<bool, AllocError> {
    let mut locks = PredLocks::new(alloc);
    for act in acts {
        if !does(alloc, &mut locks, act)? {
            return Ok(false);
        }
    }
    Ok(true)
}
