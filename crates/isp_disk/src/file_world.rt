//! The world of the running program: its disk is a file, and it prints to standard output.
ghost use Rattle.std.specs.Prelude.{◌≡◌, [], false};
ghost use Rattle.isp_disk.specs.Moments.{no_place};
ghost use Rattle.isp_disk.specs.Outside.{HasCause};

use crate::world::count_fault;
use crate::{Failed, World};
use std::fs::{OpenFile, OpenOptions};
use std::io::{self, Read, Seek, SeekFrom, Write};
use std::rt::Files;

/// A world over the runtime, with its disk in the file at `path`. It tells no bytes and counts each failure.
#[derive(Drop)]
pub struct FileWorld<'a, R: Files + Print> {
    rt: &'a R,
    path: String,
    file: Option<R::File>,
    disk_faults: u64,
    print_faults: u64,
}

impl<'a, R: Files + Print> FileWorld<'a, R> {
    /// A world that prints to standard output. The file is opened, or made where it is missing, at the first call
    /// of its disk.
    pub fn new(rt: &'a R, path: String) -> FileWorld<'a, R>
        ensures disk { result.disk_faults ≡ 0 }
        ensures printer { result.print_faults ≡ 0 }
    {
        FileWorld {
            rt,
            path,
            file: None,
            disk_faults: 0,
            print_faults: 0,
        }
    }
}

// The file that is open, or that is opened now. The caller puts it back.
fn taken<R: Files>(rt: &R, path: &str, file: &mut Option<R::File>) -> io::Result<R::File> {
    match file.take() {
        Some(file) => Ok(file),
        None => OpenOptions::new()
            .read(true)
            .write(true)
            .create(true)
            .open(rt, path),
    }
}

// Fills the piece from where the file stands, with zeros behind its end.
fn fill<F: Read>(file: &mut F, into: &mut [u8]) -> io::Result<()> {
    let mut filled = 0;
    while filled < into.len() {
        match file.read(&mut into[filled..])? {
            0 => {
                into[filled..].fill(0);
                return Ok(());
            }
            n => filled += n,
        }
    }
    Ok(())
}

fn read_at<F: Read + Seek>(file: &mut F, at: u64, into: &mut [u8]) -> io::Result<()> {
    file.seek(SeekFrom::Start(at))?;
    fill(file, into)
}

fn write_at<F: Write + Seek>(file: &mut F, at: u64, bytes: &[u8]) -> io::Result<()> {
    file.seek(SeekFrom::Start(at))?;
    file.write_all(bytes)
}

fn read_from<R: Files>(
    rt: &R,
    path: &str,
    kept: &mut Option<R::File>,
    at: u64,
    into: &mut [u8],
) -> io::Result<()> {
    let mut file = taken(rt, path, kept)?;
    let outcome = read_at(&mut file, at, into);
    *kept = Some(file);
    outcome
}

fn write_to<R: Files>(
    rt: &R,
    path: &str,
    kept: &mut Option<R::File>,
    at: u64,
    bytes: &[u8],
) -> io::Result<()> {
    let mut file = taken(rt, path, kept)?;
    let outcome = write_at(&mut file, at, bytes);
    *kept = Some(file);
    outcome
}

fn sync_file<R: Files>(rt: &R, path: &str, kept: &mut Option<R::File>) -> io::Result<()> {
    let file = taken(rt, path, kept)?;
    let outcome = file.sync_all();
    *kept = Some(file);
    outcome
}

// What a call of the system came to, with its count of faults.
fn told(outcome: io::Result<()>, faults: &mut u64) -> Result<(), Failed>
    ensures cause { HasCause faults.old faults.new result }
{
    match outcome {
        Ok(()) => Ok(()),
        Err(_) => {
            *faults = count_fault(*faults);
            Err(Failed)
        }
    }
}

impl<R: Files + Print> World for FileWorld<'_, R> {
    ghost use Rattle.std.proofs.Common.{rules};

    ghost tells = { ⊥ };

    ghost printed = { λ world. [] };

    ghost image = { λ world place. 0 };

    ghost pending = { λ world. no_place };

    ghost clock = { λ world. 0 };

    ghost left_since = { λ world t left told. ⊥ };

    ghost disk_faults = { λ world. world.disk_faults };

    ghost print_faults = { λ world. world.print_faults };

    ghost counts_now = { λ world t left none. absurd none };

    ghost only_now = { λ world left told none. absurd none };

    fn read(&mut self, at: u64, into: &mut [u8]) -> Result<(), Failed> {
        let outcome = read_from(self.rt, self.path.as_str(), &mut self.file, at, into);
        told(outcome, &mut self.disk_faults)
    }

    fn write(&mut self, at: u64, bytes: &[u8]) -> Result<(), Failed> {
        let outcome = write_to(self.rt, self.path.as_str(), &mut self.file, at, bytes);
        told(outcome, &mut self.disk_faults)
    }

    fn sync(&mut self) -> Result<(), Failed> {
        let outcome = sync_file(self.rt, self.path.as_str(), &mut self.file);
        told(outcome, &mut self.disk_faults)
    }

    fn print(&mut self, bytes: &[u8]) -> Result<(), Failed> {
        told(self.rt.write_all(bytes), &mut self.print_faults)
    }
}
