//! Stops within the write that makes a mini-transaction count.

use crate::acts::{Task, Wanted};
use crate::disks::{
    Check, Disk, Outcome, Stop, comes_again_to, comes_to, left_by, opens_to, ran, writes_behind,
};
use crate::plans::{Act, Plan, Run};
use isp_disk::MemWorld;
use std::alloc::Global;

/// A disk of 64 pages.
pub(crate) static SMALL: Disk = Disk {
    pages: 64,
    failing: 0,
    room: 200_000,
};

/// Page 20 at 64 to 1.
static CHANGE: [Act; 1] = [Act::Put(Run {
    page: 20,
    at: 64,
    len: 1,
    byte: 1,
})];

/// The pages after that was done so many times.
fn wanted(done: u32) -> Wanted {
    Wanted {
        pages: 64,
        plan: Plan::Given(&CHANGE),
        done,
        or_one_more: false,
    }
}

/// A stop within the last call that is a write: the one behind it is its sync.
fn within_last_write(world: &MemWorld, kept: u64, fill: u8) -> Stop {
    Stop {
        call: world.calls().saturating_sub(1),
        kept,
        fill,
    }
}

/// Of the one byte that is pending whether it is kept, what it reads else, and how many mini-transactions there are.
static LAST_GATE: [(u64, u8, u32); 5] = [(1, 0, 1), (1, 9, 1), (0, 1, 1), (0, 0, 0), (0, 9, 0)];

/// That a stop within the last write leaves as many mini-transactions as it is to.
struct GateDecides;

impl Check for GateDecides {
    fn holds(&self, alloc: Global, outcome: &Outcome) -> bool {
        for (kept, fill, count) in &LAST_GATE {
            let stop = within_last_write(&outcome.world, *kept, *fill);
            if !opens_to(alloc, &outcome.world, stop, wanted(*count)) {
                return false;
            }
        }
        true
    }
}

#[test]
fn a_mini_transaction_counts_where_its_gate_is_1(rt: HostRuntime) {
    assert!(rt; comes_to(rt.alloc(), SMALL, Plan::Given(&CHANGE), &GateDecides));
}

/// That a start found the change not there and made no write, and a stop within any of its calls leaves the change away.
struct StaysAway;

impl Check for StaysAway {
    fn holds(&self, alloc: Global, outcome: &Outcome) -> bool {
        for before in 0..outcome.world.calls() {
            let stop = Stop {
                call: before.saturating_add(1),
                kept: 0,
                fill: 1,
            };
            if !opens_to(alloc, &outcome.world, stop, wanted(0)) {
                return false;
            }
        }
        outcome.done == Ok(true) && writes_behind(&outcome.world, outcome.behind) == 0
    }
}

/// What a stop leaves of a change whose torn gate reads 9.
fn torn(alloc: Global) -> Option<Outcome> {
    let outcome = ran(alloc, SMALL, Plan::Given(&CHANGE))?;
    let stop = within_last_write(&outcome.world, 0, 9);
    let world = left_by(alloc, &outcome.world, stop)?;
    Some(Outcome {
        done: outcome.done,
        behind: 0,
        world,
    })
}

/// Whether no stop within a start on it can open the gate over the whole body that stands behind it.
fn torn_gate_stays_shut(alloc: Global) -> bool {
    let left = torn(alloc);
    comes_again_to(alloc, left, &[], Task::Compare(wanted(0)), &StaysAway)
}

#[test]
fn what_was_never_acknowledged_stays_away(rt: HostRuntime) {
    assert!(rt; torn_gate_stays_shut(rt.alloc()));
}
