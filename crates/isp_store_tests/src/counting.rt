//! Calls, syncs and bytes counted by hand.

use crate::disks::{Check, Disk, MADE_BYTES, MADE_SYNCS, Outcome, comes_to, writes_behind};
use crate::plans::{Act, Plan, Run};
use isp_page::{Fault, StoreFault};
use std::alloc::Global;

/// So many bytes of a page, from a place on, to 7.
macro_rules! sevens {
    ($page:expr, $at:expr, $len:expr) => {
        Run {
            page: $page,
            at: $at,
            len: $len,
            byte: 7,
        }
    };
}

/// A byte of page 20 to 7.
const ONE: Act = Act::Put(sevens!(20, 64, 1));

/// Three bytes of two pages.
const OF_TWO_PAGES: Act = Act::PutThree(sevens!(20, 1, 1), sevens!(20, 9, 1), sevens!(21, 1, 1));

/// That so many calls, writes and syncs were made behind the making of the file.
#[derive(Clone, Copy)]
struct Counts {
    calls: u64,
    writes: u64,
    syncs: u64,
}

impl Check for Counts {
    fn holds(&self, _alloc: Global, outcome: &Outcome) -> bool {
        outcome.done == Ok(true)
            && outcome.world.calls() == outcome.behind.saturating_add(self.calls)
            && writes_behind(&outcome.world, outcome.behind) == self.writes
            && outcome.world.syncs() == self.syncs.saturating_add(MADE_SYNCS)
    }
}

/// Counts of calls, writes and syncs.
macro_rules! counts {
    ($calls:expr, $writes:expr, $syncs:expr) => {
        Counts {
            calls: $calls,
            writes: $writes,
            syncs: $syncs,
        }
    };
}

/// Acts on an empty file, and what a store does for them, its start among it.
static CALLS: [(&[Act], Counts); 14] = [
    // A sync, the control block, the copies' gate and the log's gate twice.
    (&[], counts!(6, 0, 1)),
    // A page that isn't held is read once; what is held makes no call.
    (&[Act::Read(20)], counts!(7, 0, 1)),
    (
        &[Act::Read(20), Act::Read(20), Act::Read(20)],
        counts!(7, 0, 1),
    ),
    // The length, the body, the next gate, a sync, the gate and its sync.
    (&[ONE], counts!(13, 4, 3)),
    (&[Act::Read(20), ONE], counts!(13, 4, 3)),
    (&[ONE, ONE], counts!(19, 8, 5)),
    (&[ONE, ONE, Act::Read(20)], counts!(19, 8, 5)),
    (&[OF_TWO_PAGES], counts!(14, 4, 3)),
    // Nothing is logged where nothing was changed, and each finish is durable.
    (
        &[Act::PutNone, Act::Flush, Act::CleanSome, Act::Checkpoint],
        counts!(6, 0, 1),
    ),
    // The count of copies, a number, a copy, their gate, the page, the gate, with four syncs.
    (&[ONE, Act::CleanSome], counts!(23, 10, 7)),
    (&[ONE, Act::CleanSome, Act::CleanSome], counts!(23, 10, 7)),
    // The log's first gate and its sync besides.
    (&[ONE, Act::Checkpoint], counts!(25, 11, 8)),
    (&[ONE, Act::Checkpoint, Act::Checkpoint], counts!(25, 11, 8)),
    (&[ONE, Act::CleanSome, Act::Checkpoint], counts!(25, 11, 8)),
];

/// A disk with room for so many written bytes behind the making of its file.
fn disk(room: usize) -> Disk {
    Disk {
        pages: 200,
        failing: 0,
        room: room.saturating_add(MADE_BYTES),
    }
}

fn calls_agree(alloc: Global) -> bool {
    for (acts, wanted) in &CALLS {
        if !comes_to(alloc, disk(200_000), Plan::Given(*acts), wanted) {
            return false;
        }
    }
    true
}

#[test]
fn calls_of_the_disk(rt: HostRuntime) {
    assert!(rt; calls_agree(rt.alloc()));
}

/// An act, and how many bytes it writes: a gate, four bytes of length and the next gate; two bytes of count, and eight before
/// the bytes of each range. The least range of a page has all that was changed in it, and pages have a range each.
static WRITTEN: [(Act, usize); 6] = [
    (ONE, 17),
    (Act::Put(sevens!(20, 0, 4_096)), 4_112),
    (Act::PutNone, 0),
    (
        Act::PutThree(sevens!(20, 10, 1), sevens!(20, 30, 1), sevens!(20, 20, 2)),
        37,
    ),
    (
        Act::PutThree(sevens!(20, 10, 1), sevens!(21, 30, 1), sevens!(20, 12, 2)),
        29,
    ),
    (
        Act::PutThree(sevens!(20, 10, 1), sevens!(21, 30, 1), sevens!(22, 12, 2)),
        36,
    ),
];

/// That a plan came to this.
#[derive(Clone, Copy)]
struct Done(Result<bool, Fault>);

impl Check for Done {
    fn holds(&self, _alloc: Global, outcome: &Outcome) -> bool {
        outcome.done == self.0
    }
}

/// Whether two hundred times this act, before the log is full, write just so many bytes.
fn writes(alloc: Global, act: Act, bytes: usize) -> bool {
    let plan = Plan::Again(act, 200);
    let enough = comes_to(alloc, disk(bytes), plan, &Done(Ok(true)));
    let short = Done(Err(Fault::Store(StoreFault::Disk)));
    enough && (bytes == 0 || comes_to(alloc, disk(bytes.saturating_sub(1)), plan, &short))
}

fn written_bytes_agree(alloc: Global) -> bool {
    for (act, bytes) in &WRITTEN {
        if !writes(alloc, *act, (*bytes).saturating_mul(200)) {
            return false;
        }
    }
    true
}

#[test]
fn written_bytes(rt: HostRuntime) {
    assert!(rt; written_bytes_agree(rt.alloc()));
}

/// Whether the first six of the seventy pages, and no others, stand in place.
fn six_in_place(image: &[u8]) -> bool {
    for page in 20..90usize {
        let wanted = if page < 26 { 7 } else { 0 };
        if image.get(1_314_816 + page * 4_096 + 64).copied() != Some(wanted) {
            return false;
        }
    }
    true
}

/// That a mini-transaction for each of seventy pages made room for six: each page is read and logged in seven calls; behind
/// the 64th each takes the frame of the one that was used longest ago, which is written in place in ten.
struct MakesRoom;

impl Check for MakesRoom {
    fn holds(&self, alloc: Global, outcome: &Outcome) -> bool {
        let wanted = Counts {
            calls: 6 + 70 * 7 + 6 * 10,
            writes: 70 * 4 + 6 * 6,
            syncs: 1 + 70 * 2 + 6 * 4,
        };
        wanted.holds(alloc, outcome) && six_in_place(outcome.world.image())
    }
}

#[test]
fn a_full_pool_makes_room(rt: HostRuntime) {
    assert!(rt; comes_to(rt.alloc(), disk(1_000_000), Plan::Pages(70), &MakesRoom));
}
