//! Each call of a short run failing in turn.

use crate::acts::{Task, Wanted};
use crate::disks::{
    Check, Disk, MADE, Outcome, Stop, comes_again_to, comes_to, keeps_told, ran, told,
};
use crate::plans::{Act, Plan, Run};
use isp_disk::MemWorld;
use isp_page::{Fault, StoreFault};
use std::alloc::Global;

/// Three mini-transactions with cleaning and a checkpoint, each told.
static ACTS: [Act; 11] = [
    Act::Put(Run {
        page: 20,
        at: 60,
        len: 9,
        byte: 1,
    }),
    Act::Print,
    Act::Read(40),
    Act::CleanSome,
    Act::PutThree(
        Run {
            page: 20,
            at: 60,
            len: 9,
            byte: 2,
        },
        Run {
            page: 21,
            at: 60,
            len: 9,
            byte: 3,
        },
        Run {
            page: 63,
            at: 60,
            len: 9,
            byte: 4,
        },
    ),
    Act::Print,
    Act::Checkpoint,
    Act::Put(Run {
        page: 21,
        at: 60,
        len: 9,
        byte: 5,
    }),
    Act::Flush,
    Act::Print,
    Act::Read(50),
];

/// An empty file after none of the acts.
fn wanted() -> Wanted {
    Wanted {
        pages: 64,
        plan: Plan::Given(&ACTS),
        done: 0,
        or_one_more: false,
    }
}

/// A disk whose call of this number fails.
fn disk(failing: u64) -> Disk {
    Disk {
        pages: 64,
        failing,
        room: 500_000,
    }
}

/// How many bytes are kept of those that aren't durable, and what the others hold.
static KEPT: [(u64, u8); 4] = [(0, 1), (0, 9), (1, 0), (9_999, 0)];

/// Whether each of four stops within a call keeps what was told.
fn keeps_within(alloc: Global, world: &MemWorld, call: u64) -> bool {
    for (kept, fill) in &KEPT {
        let stop = Stop {
            call,
            kept: *kept,
            fill: *fill,
        };
        if !keeps_told(alloc, world, stop, wanted()) {
            return false;
        }
    }
    true
}

/// That a run ends with this fault at this call, and, if a file is made by then, a stop within the call keeps what was told.
#[derive(Clone, Copy)]
struct Fails {
    at: u64,
    fault: StoreFault,
}

impl Check for Fails {
    fn holds(&self, alloc: Global, outcome: &Outcome) -> bool {
        outcome.done == Err(Fault::Store(self.fault))
            && outcome.world.calls() == self.at
            && (self.at <= MADE || keeps_within(alloc, &outcome.world, self.at))
    }
}

/// The fault of a run in which the call of this number fails, by what a good run tells before this call and the next one.
fn fault_at(alloc: Global, good: &MemWorld, failing: u64) -> StoreFault {
    if told(alloc, good, failing) < told(alloc, good, failing.saturating_add(1)) {
        StoreFault::Print
    } else {
        StoreFault::Disk
    }
}

/// That a run came about, and each of its calls fails in its way, from the first one of the making on.
struct EachFails;

impl Check for EachFails {
    fn holds(&self, alloc: Global, outcome: &Outcome) -> bool {
        for call in 0..outcome.world.calls() {
            let at = call.saturating_add(1);
            let fault = fault_at(alloc, &outcome.world, at);
            if !comes_to(alloc, disk(at), Plan::Given(&ACTS), &Fails { at, fault }) {
                return false;
            }
        }
        outcome.done == Ok(true) && outcome.world.calls() > MADE + 50
    }
}

#[test]
fn a_failing_call_is_told_and_the_file_opens(rt: HostRuntime) {
    assert!(rt; comes_to(rt.alloc(), disk(0), Plan::Given(&ACTS), &EachFails));
}

/// That a first start failed at its first call, and the second one found the file.
struct Opens;

impl Check for Opens {
    fn holds(&self, _alloc: Global, outcome: &Outcome) -> bool {
        outcome.behind == MADE + 1 && outcome.done == Ok(true)
    }
}

/// Whether a start that fails leaves the file.
fn second_start_opens(alloc: Global) -> bool {
    let first = ran(alloc, disk(MADE + 1), Plan::Given(&[]));
    comes_again_to(alloc, first, &[], Task::Compare(wanted()), &Opens)
}

#[test]
fn a_start_that_failed_leaves_the_file(rt: HostRuntime) {
    assert!(rt; second_start_opens(rt.alloc()));
}
