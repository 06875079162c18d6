//! Rows on the disk in memory.

use crate::bytes::{placed, scrambled};
use crate::counted::CountedWorld;
use crate::ends::{no_ends, say_ends, with_end};
use crate::runs::{BYTES, CALLS, Outcome, ran, shown, words_of};
use isp_disk::{MemSource, MemWorld};
use isp_run::{Status, run};
use std::alloc::{AllocError, Global};
use std::fs::Files;
use std::{fs, io};

// The words of a run, with as few frames as there may be.
pub(crate) const RUN: &str = "rows.db run --frames 64";

pub(crate) fn script_of<R: Files + Alloc<A = Global>>(rt: &R, name: &str) -> io::Result<Vec<u8>> {
    let path = format!(in rt.alloc(); "{name}.isp")?;
    fs::read(rt, path.as_str())
}

fn printed_of<R: Files + Alloc<A = Global>>(rt: &R, name: &str) -> io::Result<Vec<u8>> {
    let path = format!(in rt.alloc(); "{name}.out")?;
    fs::read(rt, path.as_str())
}

pub(crate) fn say_words<R: Print + Alloc<A = Global>>(
    rt: &R,
    disk: &mut Vec<u8>,
    text: &str,
) -> io::Result<()> {
    let ended = ran(rt.alloc(), disk.as_slice(), text, &[], &[], &[])?;
    let end = shown(rt.alloc(), ended.status)?;
    *disk = ended.disk;
    println!(rt; "{text}: {end}")
}

pub(crate) fn say_run<R: Files + Print + Alloc<A = Global>>(
    rt: &R,
    disk: &mut Vec<u8>,
    name: &str,
    unread: &[u64],
) -> io::Result<()> {
    let script = script_of(rt, name)?;
    let expected = printed_of(rt, name)?;
    let ended = ran(
        rt.alloc(),
        disk.as_slice(),
        RUN,
        script.as_slice(),
        unread,
        &[],
    )?;
    let text = said_of(ended.printed.as_slice(), expected.as_slice());
    let left = left_of(ended.disk.as_slice(), disk.as_slice());
    let end = shown(rt.alloc(), ended.status)?;
    *disk = ended.disk;
    println!(rt; "{name}: {end}, {text}{left}")
}

fn said_of(printed: &[u8], expected: &[u8]) -> &'static str {
    if printed == expected {
        "as written"
    } else {
        "another text"
    }
}

fn left_of(now: &[u8], before: &[u8]) -> &'static str {
    if now == before { ", same disk" } else { "" }
}

// ---- calls that fail

pub(crate) fn say_fails<R: Files + Print + Alloc<A = Global>>(
    rt: &R,
    disk: &[u8],
    name: &str,
) -> io::Result<()> {
    let script = script_of(rt, name)?;
    println!(rt; "{name}, each call failing:")?;
    say_failing(rt, disk, RUN, script.as_slice())
}

pub(crate) fn say_words_fail<R: Print + Alloc<A = Global>>(
    rt: &R,
    disk: &[u8],
    text: &str,
) -> io::Result<()> {
    println!(rt; "{text}, each call failing:")?;
    say_failing(rt, disk, text, &[])
}

// The same run once for each call of the world, which fails.
fn say_failing<R: Print + Alloc<A = Global>>(
    rt: &R,
    disk: &[u8],
    words: &str,
    script: &[u8],
) -> io::Result<()> {
    let whole = ran(rt.alloc(), disk, words, script, &[], &[])?;
    let mut ends = no_ends();
    let mut fronts: u64 = 0;
    let mut stopped: u64 = 0;
    let mut first_sync: u64 = 0;
    let mut first_print: u64 = 0;
    for k in 0..whole.calls {
        let call = k.saturating_add(1);
        let ended = ran(rt.alloc(), disk, words, script, &[], &[call])?;
        ends = with_end(ends, ended.status);
        fronts = more_if(fronts, is_front(&ended, &whole));
        stopped = more_if(stopped, ended.calls == call);
        first_sync = if ended.syncs == 0 { call } else { first_sync };
        first_print = first_of(first_print, call, ended.status);
    }
    let calls = whole.calls;
    println!(rt;
        "  {calls} calls, the first sync is call {first_sync}, the first print {first_print}"
    )?;
    println!(rt;
        "  {stopped} ended at the call that failed, {fronts} printed a front of the whole"
    )?;
    say_ends(rt, ends)
}

fn more_if(count: u64, is: bool) -> u64 {
    if is { count.saturating_add(1) } else { count }
}

// Whether the one printed a front of what the other printed.
fn is_front(ended: &Outcome, whole: &Outcome) -> bool {
    whole
        .printed
        .as_slice()
        .starts_with(ended.printed.as_slice())
}

// The first call that ends with a fault of the printer.
fn first_of(first: u64, call: u64, status: Status) -> u64 {
    match status {
        Status::PrintFault if first == 0 => call,
        _ => first,
    }
}

// ---- pages of random bytes

pub(crate) fn say_random<R: Files + Print + Alloc<A = Global>>(
    rt: &R,
    disk: &[u8],
    text: &str,
) -> io::Result<()> {
    if let Some((from, name)) = placed(text) {
        let script = script_of(rt, name)?;
        println!(rt; "{name}, a hundred times with random bytes from {from} on:")?;
        say_scrambled(rt, disk, from, script.as_slice())?;
    }
    Ok(())
}

fn say_scrambled<R: Print + Alloc<A = Global>>(
    rt: &R,
    disk: &[u8],
    from: usize,
    script: &[u8],
) -> io::Result<()> {
    let mut ends = no_ends();
    for k in 0..100_u64 {
        let status = on_scrambled(rt.alloc(), disk, from, k.saturating_add(1), script)?;
        ends = with_end(ends, status);
        if k == 0 {
            let end = shown(rt.alloc(), status)?;
            println!(rt; "  the first: {end}")?;
        }
    }
    say_ends(rt, ends)
}

fn on_scrambled(
    alloc: Global,
    disk: &[u8],
    from: usize,
    seed: u64,
    script: &[u8],
) -> Result<Status, AllocError> {
    let bytes = scrambled(alloc, disk, from, seed)?;
    let ended = ran(alloc, bytes.as_slice(), RUN, script, &[], &[])?;
    Ok(ended.status)
}

// ---- counts

pub(crate) fn say_counts<R: Files + Print + Alloc<A = Global>>(
    rt: &R,
    disk: &[u8],
    name: &str,
) -> io::Result<()> {
    let script = script_of(rt, name)?;
    let words = words_of(rt.alloc(), RUN)?;
    let mut source = MemSource::new(rt.alloc(), script.as_slice(), &[])?;
    let size = disk.len() as u64;
    let inner = MemWorld::new(rt.alloc(), size, disk, &[], CALLS, BYTES)?;
    let world = CountedWorld {
        world: inner,
        written: 0,
    };
    let (status, world) = run(rt.alloc(), words.as_slice(), &mut source, world);
    let end = shown(rt.alloc(), status)?;
    let calls = world.world.calls();
    let syncs = world.world.syncs();
    let written = world.written;
    println!(rt; "{name}: {end}, {calls} calls, {syncs} syncs, {written} bytes written")
}
