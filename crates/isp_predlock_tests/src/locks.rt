//! Searches that share a page and come back to a number, and one that an entry's growing box lets in.

use crate::acts::{Act, Grown, Try};
use crate::doing::run;
use std::test::Fail;

/// Three searches of two sessions on one page. Sessions 1 and 2 stand in the way of an entry at (5 5), each with the first
/// that it began; an entry at (1 1) meets two searches, both of session 2. Once session 2 has released its own, their numbers
/// are taken again, the last released first, and the order is still that of beginning.
static SHARED: [Act; 21] = [
    Act::Begins(2, [0, 0, 6, 6], 0),
    Act::Begins(1, [5, 5, 9, 9], 1),
    Act::Begins(2, [0, 0, 9, 9], 2),
    Act::Attaches(2, 16),
    Act::Attaches(0, 16),
    Act::Attaches(0, 16),
    Act::Attaches(1, 16),
    Act::SeesSearch(0, &[16]),
    Act::SeesPage(16, &[(0, 2), (1, 1), (2, 2)]),
    Act::SeesSession(2, &[0, 2]),
    Act::Tries(Try {
        session: 3,
        leaf: 16,
        corners: [5, 5, 5, 5],
        tests: 3,
        by: &[(1, 1), (0, 2)],
    }),
    Act::Tries(Try {
        session: 3,
        leaf: 16,
        corners: [1, 1, 1, 1],
        tests: 3,
        by: &[(0, 2)],
    }),
    Act::Tries(Try {
        session: 2,
        leaf: 16,
        corners: [5, 5, 5, 5],
        tests: 1,
        by: &[(1, 1)],
    }),
    Act::Releases(2),
    Act::SeesPage(16, &[(1, 1)]),
    Act::Begins(3, [0, 0, 1, 1], 2),
    Act::Begins(3, [0, 0, 2, 2], 0),
    Act::SeesSearch(0, &[]),
    Act::Attaches(0, 16),
    Act::Attaches(2, 16),
    Act::SeesPage(16, &[(1, 1), (2, 3), (0, 3)]),
];

/// Session 1 searches (40 0,45 30), which no box of a tree of sixteen points meets, and is on its root, page 16. Session 2's
/// entry at (50 5) lets the search in, down to the leaf, and is tested against it. Then session 3's entry at (42 6) has to wait, session 1's own doesn't, and where the leaf is
/// divided the search is copied to the part that may hold what it looks for.
static LET_IN: [Act; 12] = [
    Act::Begins(1, [40, 0, 45, 30], 0),
    Act::Attaches(0, 16),
    Act::Grows(
        &[
            Grown {
                parent: 16,
                child: 23,
                old: [20, 0, 30, 30],
                new: [20, 0, 50, 30],
            },
            Grown {
                parent: 23,
                child: 21,
                old: [30, 0, 30, 30],
                new: [30, 0, 50, 30],
            },
        ],
        &[(0, 1, 23), (0, 1, 21)],
        Try {
            session: 2,
            leaf: 21,
            corners: [50, 5, 50, 5],
            tests: 1,
            by: &[],
        },
    ),
    Act::SeesSearch(0, &[16, 21, 23]),
    Act::Tries(Try {
        session: 3,
        leaf: 21,
        corners: [42, 6, 42, 6],
        tests: 1,
        by: &[(0, 1)],
    }),
    Act::Tries(Try {
        session: 1,
        leaf: 21,
        corners: [42, 6, 42, 6],
        tests: 0,
        by: &[],
    }),
    Act::Copies(21, 24, [42, 5, 50, 6]),
    Act::Copies(21, 25, [30, 0, 30, 30]),
    Act::SeesSearch(0, &[16, 21, 23, 24]),
    Act::SeesPage(24, &[(0, 1)]),
    Act::Releases(1),
    Act::SeesPage(24, &[]),
];

#[test]
fn searches_share_a_page(rt: HostRuntime) -> Result<(), Fail> {
    let went = run(rt.alloc(), &SHARED)?;
    assert!(rt; went);
    Ok(())
}

#[test]
fn a_search_is_let_in(rt: HostRuntime) -> Result<(), Fail> {
    let went = run(rt.alloc(), &LET_IN)?;
    assert!(rt; went);
    Ok(())
}
