//! `isp FILE make` makes a database file; `isp FILE run` runs the script of standard input on it, and prints its answers.
#![tactic(auto)]

use isp_disk::{FileWorld, StdinSource};
use isp_run::{Status, run};
use std::alloc::{AllocError, Global};
use std::env::Env;
use std::fs::Files;
use std::process::ExitCode;
use std::{env, io};

fn main(rt: HostRuntime) -> ExitCode {
    let status = match words(&rt) {
        Ok(words) => run_words(&rt, words.as_slice()),
        Err(status) => status,
    };
    let _ = say(&rt, status);
    ExitCode::from(status.number())
}

// The words behind the program's name. One that isn't UTF-8 is no word of a command.
fn words<R: Env + Alloc<A = Global>>(rt: &R) -> Result<Vec<String>, Status> {
    let mut words = Vec::new(rt.alloc());
    let args = match env::args(rt) {
        Ok(args) => args,
        Err(error) if error.kind() == io::ErrorKind::OutOfMemory => {
            return Err(Status::OutOfMemory);
        }
        Err(_) => return Err(Status::Usage),
    };
    for word in args.skip(1) {
        if words.push(word).is_err() {
            return Err(Status::OutOfMemory);
        }
    }
    Ok(words)
}

// Runs the words over standard input and output. FILE is the first word, or an empty path.
fn run_words<R: Files + Print + Input + Alloc<A = Global>>(rt: &R, words: &[String]) -> Status {
    let path = match words {
        [file, ..] => file.as_str(),
        [] => "",
    };
    let Ok(path) = String::from_str(rt.alloc(), path) else {
        return Status::OutOfMemory;
    };
    let mut script = StdinSource::new(rt);
    let world = FileWorld::new(rt, path);
    let (status, _world) = run(rt.alloc(), words, &mut script, world);
    status
}

// Tells on standard error why not all was done.
fn say<R: Eprint>(rt: &R, status: Status) -> io::Result<()> {
    match status {
        Status::Done => Ok(()),
        Status::Usage => eprintln!(rt; "isp: usage"),
        Status::BadScript { line } => eprintln!(rt; "isp: bad script at line {line}"),
        Status::NotMade => eprintln!(rt; "isp: not made"),
        Status::AlreadyMade => eprintln!(rt; "isp: already made"),
        Status::Damaged { page, rule } => eprintln!(rt; "isp: damaged page {page} rule {rule}"),
        Status::ReadFault => eprintln!(rt; "isp: read fault"),
        Status::DiskFault => eprintln!(rt; "isp: disk fault"),
        Status::PrintFault => eprintln!(rt; "isp: print fault"),
        Status::OutOfMemory => eprintln!(rt; "isp: out of memory"),
    }
}
