//! Long runs, stopped again and again.
ghost use Rattle.std.specs.Prelude.{◌≡◌, ◌<◌};

use crate::acts::Wanted;
use crate::disks::{Check, Disk, MADE, Outcome, Stop, comes_to, keeps_told, opens_to};
use crate::plans::Plan;
use isp_disk::MemWorld;
use std::alloc::Global;

/// Stops within every so many-th write behind a call, of which there have to be at least so many, and what the bytes hold
/// then that are neither durable nor kept.
#[derive(Clone, Copy)]
pub(crate) struct Stops {
    pub behind: u64,
    pub step: u64,
    pub least: u64,
    pub fills: [u8; 4],
}

/// A stop within a call that keeps none of the bytes that aren't durable, a few, or those of a page and more.
fn stop_at(call: u64, fills: [u8; 4]) -> Stop {
    let kept = match call % 3 {
        0 => 0,
        1 => call % 40,
        _ => call % 6_000,
    };
    let fill = fills[call as usize % 4];
    Stop { call, kept, fill }
}

fn keeps_stop(alloc: Global, world: &MemWorld, stop: Stop, wanted: Wanted) -> bool {
    if wanted.or_one_more {
        keeps_told(alloc, world, stop, wanted)
    } else {
        opens_to(alloc, world, stop, wanted)
    }
}

/// Whether each of these stops leaves these pages; or, where one more mini-transaction may be there, those that were told.
pub(crate) fn all_keep(alloc: Global, world: &MemWorld, stops: Stops, wanted: Wanted) -> bool {
    let step = stops.step.max(1);
    let mut writes = 0u64;
    for before in stops.behind..world.calls() {
        let call = before.saturating_add(1);
        if world.is_write(call) {
            writes = writes.saturating_add(1);
            if writes % step == 0 && !keeps_stop(alloc, world, stop_at(call, stops.fills), wanted) {
                return false;
            }
        }
    }
    writes / step >= stops.least
}

/// That the run came about, and each of these stops leaves these pages.
#[derive(Clone, Copy)]
pub(crate) struct Keeps {
    pub stops: Stops,
    pub wanted: Wanted,
}

impl Check for Keeps {
    fn holds(&self, alloc: Global, outcome: &Outcome) -> bool {
        outcome.done == Ok(true) && all_keep(alloc, &outcome.world, self.stops, self.wanted)
    }
}

/// 200 mini-transactions over 200 pages, stopped within every 19th write.
static LONG: Keeps = Keeps {
    stops: Stops {
        behind: MADE,
        step: 19,
        least: 100,
        fills: [0, 1, 2, 3],
    },
    wanted: Wanted {
        pages: 200,
        plan: Plan::Mixed(200),
        done: 200,
        or_one_more: true,
    },
};

/// A disk of 200 pages.
pub(crate) static LARGE: Disk = Disk {
    pages: 200,
    failing: 0,
    room: 20_000_000,
};

#[test]
fn a_stop_leaves_what_was_told(rt: HostRuntime) {
    assert!(rt; comes_to(rt.alloc(), LARGE, Plan::Mixed(200), &LONG));
}
