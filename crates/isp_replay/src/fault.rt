//! Why the log isn't put into the pages.
ghost use Rattle.std.specs.Prelude.{◌≡◌};
ghost use Rattle.isp_replay.specs.Faults.{fault_of};
ghost use Rattle.isp_replay.specs.declared.fault.ReplayFault.TheVariants.{DiskFailed};

use isp_disk::Failed;
use isp_format::{LOG_RULE, SPACE_PAGE};
use isp_page::StoreFault;

/// Why the log isn't put into the pages.
#[derive(Clone, Copy)]
pub enum ReplayFault {
    /// A call of the disk failed.
    DiskFailed,
    /// A range of the log lies in a page that the file doesn't have.
    NoSuchPage,
}

impl From<Failed> for ReplayFault {
    ghost from_gives = { λ _ e. e ≡ DiskFailed };

    fn from(_: Failed) -> ReplayFault {
        ReplayFault::DiskFailed
    }
}

impl From<ReplayFault> for StoreFault {
    ghost from_gives = { λ fault e. e ≡ fault_of fault };

    // Page 0 has the blocks in which the rules show.
    fn from(fault: ReplayFault) -> StoreFault {
        match fault {
            ReplayFault::DiskFailed => StoreFault::Disk,
            ReplayFault::NoSuchPage => StoreFault::Damaged {
                page: SPACE_PAGE,
                rule: LOG_RULE,
            },
        }
    }
}
