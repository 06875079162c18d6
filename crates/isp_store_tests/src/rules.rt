//! Files that break a rule.

use crate::acts::Task;
use crate::disks::{Check, Outcome, Piece, comes_again_to, ran, writes_behind};
use crate::gates::SMALL;
use crate::plans::Plan;
use isp_page::{Fault, StoreFault};
use std::alloc::Global;

/// An open gate of the copies, over none.
const NO_COPIES: Piece = (512, &[1]);

/// A batch of the log with an empty body.
const EMPTY_BODY: Piece = (266_240, &[1, 0, 0, 0, 0]);

/// A closed made-gate.
const NOT_MADE: Piece = (63, &[0]);

/// That a start named this rule, and wrote nothing.
struct Names(u32);

impl Check for Names {
    fn holds(&self, _alloc: Global, outcome: &Outcome) -> bool {
        let damaged = StoreFault::Damaged {
            page: 0,
            rule: self.0,
        };
        outcome.done == Err(Fault::Store(damaged))
            && writes_behind(&outcome.world, outcome.behind) == 0
    }
}

/// Pieces over an empty file, and the first rule that it breaks then.
static BROKEN: [(&[Piece], Names); 9] = [
    (&[(0, b"J")], Names(1)),
    (&[NOT_MADE], Names(1)),
    // 63 pages; a fan-out of 121.
    (&[(8, &[0, 0, 0, 63])], Names(1)),
    (&[(12, &[0, 0, 0, 121])], Names(1)),
    (&[NO_COPIES], Names(2)),
    // A copy of page 64.
    (&[NO_COPIES, (1_024, &[0, 0, 0, 1, 0, 0, 0, 64])], Names(2)),
    (&[EMPTY_BODY], Names(3)),
    (&[EMPTY_BODY, NO_COPIES], Names(2)),
    (&[EMPTY_BODY, NO_COPIES, NOT_MADE], Names(1)),
];

/// Whether a start on a file with these pieces over it comes to that.
fn is_named(alloc: Global, pieces: &[Piece], wanted: &Names) -> bool {
    let whole = ran(alloc, SMALL, Plan::Given(&[]));
    comes_again_to(alloc, whole, pieces, Task::Do(Plan::Given(&[])), wanted)
}

fn all_are_named(alloc: Global) -> bool {
    for (pieces, wanted) in &BROKEN {
        if !is_named(alloc, *pieces, wanted) {
            return false;
        }
    }
    true
}

#[test]
fn the_first_rule_that_is_broken_is_named(rt: HostRuntime) {
    assert!(rt; all_are_named(rt.alloc()));
}
