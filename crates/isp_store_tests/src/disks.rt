//! Disks in memory, with a file on them; what a stop leaves of them, opened.

use crate::acts::{FANOUT, Task, Wanted, started};
use crate::plans::Plan;
use isp_disk::{MemWorld, World};
use isp_page::{Fault, StoreFault};
use isp_store::Store;
use std::alloc::Global;

/// How many calls of the disk make an empty file, how many of them are writes and syncs, and how many bytes they write: 16
/// pages, two gates, the control block and its gate.
pub(crate) const MADE: u64 = 24;

pub(crate) const MADE_SYNCS: u64 = 3;

pub(crate) const MADE_BYTES: usize = 65_602;

/// A disk of zeros that is to have a file of so many pages. The call of this number fails, and there is room for so many
/// written and printed bytes.
#[derive(Clone, Copy)]
pub(crate) struct Disk {
    pub pages: u32,
    pub failing: u64,
    pub room: usize,
}

/// What the last start on a disk and its task came to, how many calls were made before it, and the disk after it.
#[derive(Drop)]
pub(crate) struct Outcome {
    pub done: Result<bool, Fault>,
    pub behind: u64,
    pub world: MemWorld,
}

/// What is seen of an outcome.
pub(crate) trait Check {
    /// Whether the outcome is as it has to be.
    fn holds(&self, alloc: Global, outcome: &Outcome) -> bool;
}

/// Makes an empty file, and answers whether it came about.
pub(crate) fn make<W: World>(world: &mut W, pages: u32) -> bool {
    if pages < 64 || pages > 65_536 {
        return false;
    }
    Store::make(world, pages, FANOUT).is_ok()
}

/// Makes an empty file and carries out a plan on it.
pub(crate) fn ran(alloc: Global, disk: Disk, plan: Plan) -> Option<Outcome> {
    let size = 1_314_816 + u64::from(disk.pages) * 4_096;
    let mut world = MemWorld::new(alloc, size, &[], &[disk.failing], 20_000, disk.room).ok()?;
    let is_made = make(&mut world, disk.pages);
    let behind = world.calls();
    if !is_made {
        let done = Err(Fault::Store(StoreFault::Disk));
        return Some(Outcome {
            done,
            behind,
            world,
        });
    }
    let (done, world) = started(alloc, world, Task::Do(plan));
    Some(Outcome {
        done,
        behind,
        world,
    })
}

/// Whether a plan on an empty file comes to what has to be.
pub(crate) fn comes_to<C: Check>(alloc: Global, disk: Disk, plan: Plan, check: &C) -> bool {
    match ran(alloc, disk, plan) {
        Some(outcome) => check.holds(alloc, &outcome),
        None => false,
    }
}

/// Bytes at a place of the disk.
pub(crate) type Piece = (u64, &'static [u8]);

/// Writes these pieces.
fn write_all(world: &mut MemWorld, pieces: &[Piece]) {
    for (at, piece) in pieces {
        let _ = world.write(*at, *piece);
    }
}

/// Writes these pieces over the disk and starts a store on it once more.
fn ran_again(alloc: Global, first: Outcome, pieces: &[Piece], task: Task) -> Outcome {
    let mut world = first.world;
    write_all(&mut world, pieces);
    let behind = world.calls();
    let (done, world) = started(alloc, world, task);
    Outcome {
        done,
        behind,
        world,
    }
}

/// Whether a second start, behind a plan on an empty file and with these pieces written over it, comes to what has to be.
pub(crate) fn comes_again_to<C: Check>(
    alloc: Global,
    outcome: Option<Outcome>,
    pieces: &[Piece],
    task: Task,
    check: &C,
) -> bool {
    match outcome {
        Some(first) => check.holds(alloc, &ran_again(alloc, first, pieces, task)),
        None => false,
    }
}

/// How many writes were made behind a call.
pub(crate) fn writes_behind(world: &MemWorld, behind: u64) -> u64 {
    let mut writes = 0u64;
    for call in behind..world.calls() {
        if world.is_write(call.saturating_add(1)) {
            writes = writes.saturating_add(1);
        }
    }
    writes
}

/// A stop within a call: how many of the bytes that aren't durable are kept, and what the others hold.
#[derive(Clone, Copy)]
pub(crate) struct Stop {
    pub call: u64,
    pub kept: u64,
    pub fill: u8,
}

/// The disk that a stop leaves.
pub(crate) fn left_by(alloc: Global, world: &MemWorld, stop: Stop) -> Option<MemWorld> {
    if stop.call == 0 || stop.call > world.calls() {
        return None;
    }
    let image = world.image_at(alloc, stop.call, stop.kept, stop.fill).ok()?;
    MemWorld::new(alloc, image.len() as u64, &image, &[], 20_000, 10_000_000).ok()
}

/// How many bytes were told before a call. Each mini-transaction of a plan tells one.
pub(crate) fn told(alloc: Global, world: &MemWorld, call: u64) -> u32 {
    if call == 0 || call > world.calls() {
        return 0;
    }
    match world.printed_at(alloc, call) {
        Ok(printed) => printed.len().min(1_000_000) as u32,
        Err(_) => 0,
    }
}

/// Whether what a stop leaves opens to these pages.
pub(crate) fn opens_to(alloc: Global, world: &MemWorld, stop: Stop, wanted: Wanted) -> bool {
    match left_by(alloc, world, stop) {
        Some(left) => started(alloc, left, Task::Compare(wanted)).0 == Ok(true),
        None => false,
    }
}

/// Whether it opens to those after the mini-transactions that were told, or after one more.
pub(crate) fn keeps_told(alloc: Global, world: &MemWorld, stop: Stop, wanted: Wanted) -> bool {
    let done = told(alloc, world, stop.call);
    let kept = Wanted {
        pages: wanted.pages,
        plan: wanted.plan,
        done,
        or_one_more: true,
    };
    opens_to(alloc, world, stop, kept)
}
