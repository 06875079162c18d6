//! A log that is full.

use crate::acts::{Task, Wanted};
use crate::disks::{Check, Outcome, comes_again_to, comes_to, ran};
use crate::plans::Plan;
use crate::stopping::{Keeps, LARGE, Stops, all_keep};
use isp_disk::MemWorld;
use std::alloc::Global;

/// The gate of a batch of the log, counted from 0.
fn gate_of(world: &MemWorld, batch: u16) -> u8 {
    let at = 266_240 + batch as usize * 12_319;
    world.image().get(at).copied().unwrap_or(0)
}

/// That a batch of the log has this gate.
struct Gate {
    batch: u16,
    byte: u8,
}

impl Check for Gate {
    fn holds(&self, _alloc: Global, outcome: &Outcome) -> bool {
        gate_of(&outcome.world, self.batch) == self.byte
    }
}

/// How many wide mini-transactions there were, a batch of the log, and its gate: behind 69 batches there is room for 196,994
/// bytes more, the largest body, and behind 70 there isn't.
static GATES: [(u32, Gate); 6] = [
    (70, Gate { batch: 0, byte: 1 }),
    (70, Gate { batch: 1, byte: 1 }),
    (70, Gate { batch: 69, byte: 1 }),
    (70, Gate { batch: 70, byte: 0 }),
    (71, Gate { batch: 0, byte: 1 }),
    (71, Gate { batch: 1, byte: 0 }),
];

fn gates_agree(alloc: Global) -> bool {
    for (count, wanted) in &GATES {
        if !comes_to(alloc, LARGE, Plan::Wide(*count), wanted) {
            return false;
        }
    }
    true
}

#[test]
fn a_full_log_is_emptied_by_the_next_change(rt: HostRuntime) {
    assert!(rt; gates_agree(rt.alloc()));
}

/// Stops within every so many-th write behind a call, with the gates that are torn open.
fn stops(behind: u64, step: u64, least: u64) -> Stops {
    Stops {
        behind,
        step,
        least,
        fills: [1, 1, 1, 1],
    }
}

/// The pages after so many wide mini-transactions.
fn wanted(done: u32, or_one_more: bool) -> Wanted {
    Wanted {
        pages: 200,
        plan: Plan::Wide(71),
        done,
        or_one_more,
    }
}

/// That a stop within every 23rd write of one mini-transaction more keeps what was told: a batch of 64 pages with its 195
/// writes, and the four of the finish.
struct NextOneKeeps;

impl Check for NextOneKeeps {
    fn holds(&self, alloc: Global, outcome: &Outcome) -> bool {
        let next = Keeps {
            stops: stops(outcome.world.calls(), 23, 8),
            wanted: wanted(71, true),
        };
        comes_to(alloc, LARGE, Plan::Wide(71), &next)
    }
}

#[test]
fn a_stop_while_the_log_is_emptied_keeps_what_was_told(rt: HostRuntime) {
    assert!(rt; comes_to(rt.alloc(), LARGE, Plan::Wide(70), &NextOneKeeps));
}

/// That a start on a full log emptied it, and a stop within every 29th of its writes loses nothing.
struct StartKeeps;

impl Check for StartKeeps {
    fn holds(&self, alloc: Global, outcome: &Outcome) -> bool {
        let stops = stops(outcome.behind, 29, 21);
        outcome.done == Ok(true)
            && gate_of(&outcome.world, 0) == 0
            && all_keep(alloc, &outcome.world, stops, wanted(70, false))
    }
}

fn starting_keeps(alloc: Global) -> bool {
    let full = ran(alloc, LARGE, Plan::Wide(70));
    let task = Task::Compare(wanted(70, false));
    comes_again_to(alloc, full, &[], task, &StartKeeps)
}

#[test]
fn a_stop_within_a_start_is_a_stop_like_any_other(rt: HostRuntime) {
    assert!(rt; starting_keeps(rt.alloc()));
}
