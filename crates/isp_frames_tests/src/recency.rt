//! Calls on a list of four, worked out by hand.
ghost use Rattle.std.specs.Prelude.{◌≡◌};

use isp_recency::Recency;
use std::alloc::{AllocError, Global};
use std::test::Fail;

/// Which of four numbers are free, and the last of those in the list.
struct Row {
    free: [bool; 4],
    last: Option<usize>,
}

/// The list is 0, 3, 2, 1.
static ROWS: [Row; 6] = [
    Row {
        free: [true, true, true, true],
        last: Some(1),
    },
    Row {
        free: [true, false, true, true],
        last: Some(2),
    },
    Row {
        free: [true, false, false, true],
        last: Some(3),
    },
    Row {
        free: [true, false, false, false],
        last: Some(0),
    },
    Row {
        free: [false, true, false, false],
        last: Some(1),
    },
    Row {
        free: [false, false, false, false],
        last: None,
    },
];

/// The numbers pushed in their order, and then 0 touched.
fn four(alloc: Global) -> Result<Recency, AllocError> {
    let mut list = Recency::new(alloc, 4)?;
    list.push_front(0);
    list.push_front(1);
    list.push_front(2);
    list.push_front(3);
    list.touch(0);
    Ok(list)
}

/// Whether the list answers as the rows say.
fn answers(list: &Recency, rows: &[Row]) -> bool {
    if list.size() != 4 {
        return false;
    }
    for row in rows {
        if list.last_where_free(&row.free) != row.last {
            return false;
        }
    }
    true
}

#[test]
fn last_of_four(rt: HostRuntime) -> Result<(), Fail> {
    let list = four(rt.alloc())?;
    assert!(rt; answers(&list, &ROWS));
    Ok(())
}

/// The last of all but 2 in the list 1, 0, 2, which had 1 at its end before.
fn removed_and_pushed(alloc: Global) -> Result<Option<usize>, AllocError> {
    let mut list = Recency::new(alloc, 4)?;
    list.push_front(1);
    list.push_front(2);
    list.push_front(0);
    list.remove(1);
    list.push_front(1);
    Ok(list.last_where_free(&[true, true, false, true]))
}

#[test]
fn pushed_again_it_is_first(rt: HostRuntime) -> Result<(), Fail> {
    let last = removed_and_pushed(rt.alloc())?;
    assert!(rt; last == Some(0));
    Ok(())
}
