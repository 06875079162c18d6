//! How many runs ended how.

use isp_run::Status;
use std::alloc::Global;
use std::io;

/// How many runs ended with these statuses.
#[derive(Clone, Copy)]
pub(crate) struct Ends {
    done: u64,
    damaged: u64,
    disk_faults: u64,
    print_faults: u64,
    others: u64,
}

pub(crate) fn no_ends() -> Ends {
    Ends {
        done: 0,
        damaged: 0,
        disk_faults: 0,
        print_faults: 0,
        others: 0,
    }
}

// The numbers once one more run ended so.
pub(crate) fn with_end(ends: Ends, status: Status) -> Ends {
    match status {
        Status::Done => Ends {
            done: ends.done.saturating_add(1),
            ..ends
        },
        Status::Damaged { .. } => Ends {
            damaged: ends.damaged.saturating_add(1),
            ..ends
        },
        Status::DiskFault => Ends {
            disk_faults: ends.disk_faults.saturating_add(1),
            ..ends
        },
        Status::PrintFault => Ends {
            print_faults: ends.print_faults.saturating_add(1),
            ..ends
        },
        _ => Ends {
            others: ends.others.saturating_add(1),
            ..ends
        },
    }
}

pub(crate) fn say_ends<R: Print + Alloc<A = Global>>(rt: &R, ends: Ends) -> io::Result<()> {
    let done = ends.done;
    let damaged = ends.damaged;
    let disk = ends.disk_faults;
    let print = ends.print_faults;
    let others = ends.others;
    println!(rt;
        "  {done} done, {damaged} damaged, {disk} disk faults, {print} print faults, {others} others"
    )
}
