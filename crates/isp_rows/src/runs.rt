//! A run of the program on a disk in memory.

use isp_disk::{MemSource, MemWorld};
use isp_run::{Status, run};
use std::alloc::{AllocError, Global};

// The most calls and bytes of the world in memory.
pub(crate) const CALLS: usize = 100_000;

pub(crate) const BYTES: usize = 1 << 25;

/// How a run ended: its status, what it printed, the disk that it left, and how many calls and good syncs it made.
#[derive(Drop)]
pub(crate) struct Outcome {
    pub status: Status,
    pub printed: Vec<u8>,
    pub disk: Vec<u8>,
    pub calls: u64,
    pub syncs: u64,
}

// Runs the program with the words and this script on the disk. The reads of the source and the calls of the world of these
// numbers fail.
pub(crate) fn ran(
    alloc: Global,
    disk: &[u8],
    words: &str,
    script: &[u8],
    unread: &[u64],
    failing: &[u64],
) -> Result<Outcome, AllocError> {
    let words = words_of(alloc, words)?;
    let mut source = MemSource::new(alloc, script, unread)?;
    let size = disk.len() as u64;
    let world = MemWorld::new(alloc, size, disk, failing, CALLS, BYTES)?;
    let (status, world) = run(alloc, words.as_slice(), &mut source, world);
    end_of(alloc, status, &world)
}

fn end_of(alloc: Global, status: Status, world: &MemWorld) -> Result<Outcome, AllocError> {
    let printed = world.printed().to_vec(alloc)?;
    let disk = world.image().to_vec(alloc)?;
    Ok(Outcome {
        status,
        printed,
        disk,
        calls: world.calls(),
        syncs: world.syncs(),
    })
}

// The words that stand behind one another, with blanks between them.
pub(crate) fn words_of(alloc: Global, text: &str) -> Result<Vec<String>, AllocError> {
    let mut words = Vec::new(alloc);
    if text.is_empty() {
        return Ok(words);
    }
    for word in text.split(' ') {
        words.push(String::from_str(alloc, word)?)?;
    }
    Ok(words)
}

// The number of a status, and what it names.
pub(crate) fn shown(alloc: Global, status: Status) -> Result<String, AllocError> {
    let number = status.number();
    match status {
        Status::Damaged { page, rule } => format!(in alloc; "{number} page {page} rule {rule}"),
        Status::BadScript { line } => format!(in alloc; "{number} line {line}"),
        _ => format!(in alloc; "{number}"),
    }
}
