//! A store over a real file.

use crate::acts::{Task, Wanted, started};
use crate::disks::make;
use crate::plans::{Act, Plan, Run};
use isp_disk::{FileWorld, World};
use isp_page::{Fault, StoreFault};
use std::alloc::{AllocError, Global};
use std::fs;

const FOLDER: &str = "isp_store_test";

const FILE: &str = "isp_store_test/a.db";

/// Two mini-transactions, of which the pages of the first are written in place and those of the second are in the log alone.
static ACTS: [Act; 5] = [
    Act::Put(Run {
        page: 20,
        at: 64,
        len: 100,
        byte: 7,
    }),
    Act::CleanSome,
    Act::PutThree(
        Run {
            page: 20,
            at: 64,
            len: 100,
            byte: 8,
        },
        Run {
            page: 21,
            at: 64,
            len: 100,
            byte: 9,
        },
        Run {
            page: 63,
            at: 64,
            len: 100,
            byte: 255,
        },
    ),
    Act::Read(40),
    Act::Flush,
];

/// What is tried on a world over the file, one after the other: there is no folder; the file is empty; it is made and changed;
/// a second store finds the log, and a third the pages in their places.
#[derive(Clone, Copy)]
enum Try {
    Fails(StoreFault),
    Change,
    Find,
}

/// Whether that comes out.
fn comes_out<W: World + Drop>(alloc: Global, world: W, act: Try) -> bool {
    let mut world = world;
    let (task, wanted) = match act {
        Try::Fails(fault) => (Task::Do(Plan::Given(&[])), Err(Fault::Store(fault))),
        Try::Change => (Task::Do(Plan::Given(&ACTS)), Ok(true)),
        Try::Find => (
            Task::Compare(Wanted {
                pages: 64,
                plan: Plan::Given(&ACTS),
                done: 2,
                or_one_more: false,
            }),
            Ok(true),
        ),
    };
    let made = !matches!(act, Try::Change) || make(&mut world, 64);
    let (found, _world) = started(alloc, world, task);
    made && found == wanted
}

/// Whether that comes out on a world over the file.
fn tried(rt: &HostRuntime, act: Try) -> Result<bool, AllocError> {
    let path = String::from_str(rt.alloc(), FILE)?;
    let world = FileWorld::new(rt, path);
    Ok(comes_out(rt.alloc(), world, act))
}

static TRIES: [Try; 4] = [
    Try::Fails(StoreFault::Damaged { page: 0, rule: 1 }),
    Try::Change,
    Try::Find,
    Try::Find,
];

fn file_is_kept(rt: &HostRuntime) -> Result<bool, AllocError> {
    for act in &TRIES {
        if !tried(rt, *act)? {
            return Ok(false);
        }
    }
    Ok(true)
}

/// Whether a store fails by the disk where there is no folder, and keeps its file where there is one.
fn folder_is_used(rt: &HostRuntime) -> bool {
    let _ = fs::remove_dir_all(rt, FOLDER);
    let away = tried(rt, Try::Fails(StoreFault::Disk)) == Ok(true);
    let there = fs::create_dir(rt, FOLDER).is_ok();
    let kept = file_is_kept(rt) == Ok(true);
    let gone = fs::remove_dir_all(rt, FOLDER).is_ok();
    away && there && kept && gone
}

#[test]
fn a_file_is_made_changed_closed_and_opened_again(rt: HostRuntime) {
    assert!(rt; folder_is_used(&rt));
}
