//! Rows on a real file in the program's folder.

use crate::bytes::is_all_of;
use crate::on_disk::script_of;
use crate::runs::{shown, words_of};
use isp_disk::{FileWorld, MemSource};
use isp_run::{Status, run};
use std::alloc::Global;
use std::fs::Files;
use std::{fs, io};

// The words of a run.
const RUN: &str = "rows.db run";

// The file.
const FILE: &str = "rows.db";

// Removes the file, if there is one.
pub(crate) fn remove<R: Files>(rt: &R) -> io::Result<()> {
    let _ = fs::remove_file(rt, FILE);
    Ok(())
}

// Runs the program with the words and this script on the file. It prints to standard output.
fn ran_on_file<R: Files + Print + Alloc<A = Global>>(
    rt: &R,
    words: &str,
    script: &[u8],
) -> io::Result<Status> {
    let words = words_of(rt.alloc(), words)?;
    let mut source = MemSource::new(rt.alloc(), script, &[])?;
    let path = String::from_str(rt.alloc(), FILE)?;
    let world = FileWorld::new(rt, path);
    let (status, _world) = run(rt.alloc(), words.as_slice(), &mut source, world);
    Ok(status)
}

pub(crate) fn say_file_words<R: Files + Print + Alloc<A = Global>>(
    rt: &R,
    text: &str,
) -> io::Result<()> {
    let status = ran_on_file(rt, text, &[])?;
    let end = shown(rt.alloc(), status)?;
    println!(rt; "{text} on a file: {end}")
}

pub(crate) fn say_file_run<R: Files + Print + Alloc<A = Global>>(
    rt: &R,
    name: &str,
) -> io::Result<()> {
    let script = script_of(rt, name)?;
    let status = ran_on_file(rt, RUN, script.as_slice())?;
    let end = shown(rt.alloc(), status)?;
    println!(rt; "{name} on a file: {end}")
}

pub(crate) fn say_file_bytes<R: Files + Print + Alloc<A = Global>>(
    rt: &R,
    disk: &[u8],
) -> io::Result<()> {
    let bytes = fs::read(rt, FILE)?;
    let text = if is_all_of(bytes.as_slice(), disk) {
        "those of the disk"
    } else {
        "others"
    };
    println!(rt; "bytes of the file: {text}")
}
