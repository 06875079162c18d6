//! Transactions of session 1, one after another, and what stands then.
ghost use Rattle.std.specs.Prelude.{◌≡◌, true, false};

use crate::acts::Act::{Commit, Delete, End, Undo, UndoAll, Write};
use crate::acts::{Act, make, run};
use crate::noted::{File, Used, has_chain, has_free, put_back, read_file};
use crate::seen::{Row, Rows, Seen, look, unmarked};
use isp_page::{Fault, MemPages, Pages};
use isp_undo::is_begun;
use std::alloc::Global;
use std::test::Fail;

/// Calls of a transaction; of the next one, and then of one of session 3; and what stands after them.
struct Case {
    first: &'static [Act],
    acts: &'static [Act],
    other: &'static [Act],
    /// The rows at the keys from 1 on.
    rows: &'static [Option<Seen>],
    /// How many changes the second transaction can take back.
    noted: usize,
    /// Its chain.
    chain: &'static [Used],
    /// The free chain.
    free: &'static [u32],
}

macro_rules! case {
    ($first:expr, $acts:expr, $other:expr => $rows:expr, $noted:expr, $chain:expr, $free:expr) => {
        Case {
            first: &$first,
            acts: &$acts,
            other: &$other,
            rows: &$rows,
            noted: $noted,
            chain: &$chain,
            free: &$free,
        }
    };
}

/// A row of so many bytes in a slot.
macro_rules! row {
    ($byte:expr, $len:expr, $slot:expr, $marked:expr) => {
        Some(Seen {
            row: Row {
                byte: $byte,
                len: $len,
            },
            marked: $marked,
            slot: $slot,
        })
    };
}

static ONE_KEY: [Case; 9] = [
    case!([], [Write(1, 7, 8)], [] => [row!(7, 8, 8, false)], 1, [(17, 81)], []),
    // A shorter row stands in the same slot.
    case!([Write(1, 7, 8), Commit], [Write(1, 6, 4)], [] => [row!(6, 4, 8, false)], 1, [(17, 89)], []),
    // A longer one gets a slot of its own, and takes the mark off.
    case!([], [Write(1, 7, 8), Write(1, 6, 4), Delete(1), Write(1, 5, 10)], []
        => [row!(5, 10, 10, false)], 4, [(17, 148)], []),
    // Taken back in turn: the mark, then the row before it, in the greater slot.
    case!([Write(1, 7, 8), Write(1, 6, 4), Commit], [Delete(1), Write(1, 5, 10), Undo], []
        => [row!(6, 4, 10, true)], 1, [(17, 85)], []),
    case!([Write(1, 7, 8), Write(1, 6, 4), Commit], [Delete(1), Write(1, 5, 10), Undo, Undo], []
        => [row!(6, 4, 10, false)], 0, [(17, 64)], []),
    // Nothing is left to take back.
    case!([], [Write(1, 7, 2), Commit, Undo], [] => [row!(7, 2, 2, false)], 0, [], [17]),
    // Where none stood the row is marked, and goes with the sweep.
    case!([], [Write(1, 7, 3), Undo], [] => [row!(7, 3, 3, true)], 0, [(17, 64)], []),
    case!([], [Write(1, 7, 3), Undo, End], [] => [None], 0, [(17, 64)], []),
    // A deleted row goes, and the next one gets a slot of its length; a row that isn't marked stays.
    case!([Write(1, 7, 8), Delete(1), Commit, End], [Write(1, 6, 3), Commit, End], []
        => [row!(6, 3, 3, false)], 0, [], [17]),
];

/// Five rows of 19 bytes.
macro_rules! five {
    () => {
        [
            Write(1, 1, 19),
            Write(2, 2, 19),
            Write(3, 3, 19),
            Write(4, 4, 19),
            Write(5, 5, 19),
            Commit,
        ]
    };
}

/// One of them rewritten, one deleted, and a sixth one put; and more.
macro_rules! three {
    ($($more:expr),*) => {
        [Write(5, 9, 19), Delete(2), Write(6, 6, 19), $($more),*]
    };
}

/// The rows then, of which the second and the last are so.
macro_rules! six {
    ($second:expr, $fifth:expr, $sixth:expr) => {
        [
            row!(1, 19, 19, false),
            $second,
            row!(3, 19, 19, false),
            row!(4, 19, 19, false),
            row!($fifth, 19, 19, false),
            $sixth,
        ]
    };
}

static ONE_PAGE: [Case; 5] = [
    case!(five!(), three!(), []
        => six!(row!(2, 19, 19, true), 9, row!(6, 19, 19, false)), 3, [(17, 153)], []),
    case!(five!(), three!(Commit, End), [] => six!(None, 9, row!(6, 19, 19, false)), 0, [], [17]),
    case!(five!(), three!(UndoAll), []
        => six!(row!(2, 19, 19, false), 5, row!(6, 19, 19, true)), 0, [(17, 64)], []),
    case!(five!(), three!(UndoAll, Commit, End), [] => six!(row!(2, 19, 19, false), 5, None), 0, [], [17]),
    // Changes of other keys in another slot, taken back and committed.
    case!(five!(), three!(), [Write(3, 8, 19), Delete(4), Write(7, 7, 19), UndoAll, Commit, End]
        => six!(row!(2, 19, 19, true), 9, row!(6, 19, 19, false)), 3, [(17, 153)], [18]),
];

/// Ten rows of 984 bytes, and more.
macro_rules! ten {
    ($byte:expr, $($more:expr),*) => {
        [
            Write(1, $byte, 984),
            Write(2, $byte, 984),
            Write(3, $byte, 984),
            Write(4, $byte, 984),
            Write(5, $byte, 984),
            Write(6, $byte, 984),
            Write(7, $byte, 984),
            Write(8, $byte, 984),
            Write(9, $byte, 984),
            Write(10, $byte, 984),
            $($more),*
        ]
    };
}

// Page 17 is free when the second one begins, 18 to 20 are leaves, and 21 was never used.
static THREE_PAGES: [Case; 4] = [
    case!(ten!(1, Commit), ten!(2,), []
        => [row!(2, 984, 984, false); 10], 10, [(17, 4_068), (21, 4_068), (22, 2_066)], []),
    case!(ten!(1, Commit), ten!(2, Commit), [] => [row!(2, 984, 984, false); 10], 0, [], [17, 21, 22]),
    case!(ten!(1, Commit), ten!(2, UndoAll), []
        => [row!(1, 984, 984, false); 10], 0, [(17, 64)], [21, 22]),
    case!(ten!(1, Commit), ten!(2, UndoAll, Commit), []
        => [row!(1, 984, 984, false); 10], 0, [], [17, 21, 22]),
];

// Whether the chains are so, and old rows put back over those of now make those before.
fn is_noted(file: &File, case: &Case, now: Rows, before: &Rows) -> bool {
    let mut back = now;
    let count = put_back(file, 1, &mut back);
    let chains = has_chain(file, 1, case.chain) && has_chain(file, 3, &[]);
    let are_back = case.chain.is_empty() || back == *before;
    chains && has_free(file, case.free) && are_back && count == case.noted
}

// Whether that stands after the calls.
fn is_so<P: Pages>(alloc: Global, pages: &mut P, case: &Case) -> Result<bool, Fault>
    requires usable { P.usable pages.old ≡ true }
    requires none { (P.mini pages.old).is_begun ≡ false }
{
    make(pages)?;
    run(alloc, pages, 1, case.first)?;
    let before = look(alloc, pages)?;
    let count = run(alloc, pages, 1, case.acts)?;
    run(alloc, pages, 3, case.other)?;
    let now = look(alloc, pages)?;
    let begun = is_begun(pages, 1)?;
    let file = read_file(pages)?;
    let stand = now
        .iter()
        .skip(1)
        .zip(case.rows)
        .all(|(now, row)| now == row);
    let noted = is_noted(&file, case, unmarked(&now), &unmarked(&before));
    Ok(stand && noted && count == case.noted && begun != case.chain.is_empty())
}

// Whether all cases are so, each in a file of 128 pages.
fn are_so(alloc: Global, cases: &[Case]) -> Result<bool, Fault> {
    for case in cases {
        let mut pages = MemPages::new(alloc, 128, 4, 0)?;
        let so = is_so(alloc, &mut pages, case)?;
        if !so {
            return Ok(false);
        }
    }
    Ok(true)
}

#[test]
fn a_row_stands_as_listed(rt: HostRuntime) {
    assert!(rt; are_so(rt.alloc(), &ONE_KEY) == Ok(true));
}

#[test]
fn a_chain_has_one_page(rt: HostRuntime) {
    assert!(rt; are_so(rt.alloc(), &ONE_PAGE) == Ok(true));
}

#[test]
fn a_chain_has_three_pages(rt: HostRuntime) {
    assert!(rt; are_so(rt.alloc(), &THREE_PAGES) == Ok(true));
}
