//! Rows of the whole program. Each line of standard input is one of these:
//!
//! - `disk N`: a new disk in memory, with zeros for a file of N pages.
//! - `words W..`: the program is run on the disk with these words and an empty script. Its status is printed, and the page and rule, or
//!   the line, that it names.
//! - `run NAME`: it runs the script `NAME.isp` on the disk. The status is printed, whether it printed what `NAME.out` has, and
//!   whether the disk stayed as it was.
//! - `unread NAME`: the same, with a source that fails at its first call.
//! - `fails NAME`, `fails_words W..`: the script, or the words, once for each call of the world, which fails, each time on the disk as
//!   it is. How many runs ended how is printed.
//! - `random PLACE NAME`: the script a hundred times, each time with other bytes from that place of the disk on.
//! - `counts NAME`: the script on the disk. The calls, syncs and written bytes are printed.
//! - `bytes PLACE HEX`: whether these bytes stand at that place of the disk.
//! - `poke PLACE HEX`: they are put there.
//! - `file_gone`: the file `rows.db` of the program's folder is removed.
//! - `file_words W..`, `file_run NAME`: the words, and the script, on that file. What is printed is seen.
//! - `file_bytes`: whether the file and the disk in memory have the same bytes.
#![tactic(auto)]

mod bytes;
mod counted;
mod ends;
mod on_disk;
mod on_file;
mod runs;

use bytes::{poke, renew, say_bytes};
use on_disk::{say_counts, say_fails, say_random, say_run, say_words, say_words_fail};
use on_file::{remove, say_file_bytes, say_file_run, say_file_words};
use std::alloc::Global;
use std::fs::Files;
use std::io;

fn main(rt: HostRuntime) -> io::Result<()> {
    let mut disk = Vec::new(rt.alloc());
    for line in rt.lines(rt.alloc()) {
        let line = line?;
        act(&rt, &mut disk, line.as_str())?;
    }
    Ok(())
}

// Does what a line says.
fn act<R: Files + Print + Alloc<A = Global>>(
    rt: &R,
    disk: &mut Vec<u8>,
    line: &str,
) -> io::Result<()> {
    let (command, rest) = parted(line);
    match command.as_bytes() {
        b"disk" => renew(rt.alloc(), disk, rest),
        b"words" => say_words(rt, disk, rest),
        b"run" => say_run(rt, disk, rest, &[]),
        b"unread" => say_run(rt, disk, rest, &[1]),
        b"fails" => say_fails(rt, disk, rest),
        b"fails_words" => say_words_fail(rt, disk, rest),
        b"random" => say_random(rt, disk, rest),
        b"counts" => say_counts(rt, disk, rest),
        b"bytes" => say_bytes(rt, disk, rest),
        b"poke" => poke(disk, rest),
        b"file_gone" => remove(rt),
        b"file_words" => say_file_words(rt, rest),
        b"file_run" => say_file_run(rt, rest),
        b"file_bytes" => say_file_bytes(rt, disk),
        _ => println!(rt; "no command: {command}"),
    }
}

// The first word of a line, and what stands behind it and a blank.
fn parted(line: &str) -> (&str, &str) {
    match line.split_once(' ') {
        Some(parts) => parts,
        None => (line, ""),
    }
}
