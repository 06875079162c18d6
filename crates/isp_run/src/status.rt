//! How a call ends.

ghost use Rattle.std.specs.Prelude.{◌≡◌, ℕ};
ghost use Rattle.isp_run.specs.Ending.{number_of};

/// How a call of the program ended.
#[derive(Clone, Copy, PartialEq, Eq)]
pub enum Status {
    /// All was done.
    Done,
    /// The words are no command.
    Usage,
    /// The script is outside its grammar. `line`, counted from 1, is the first line up to which the lines begin no
    /// script, or the one behind the last where only more lines are missing; it is 0 where the bytes are too many.
    BadScript { line: u64 },
    /// A file that no `make` has made, or not to its end.
    NotMade,
    /// A file that was made already.
    AlreadyMade,
    /// The file breaks the page rule of this number, and the page shows it.
    Damaged { page: u32, rule: u32 },
    /// The script could not be read to its end.
    ReadFault,
    /// A call of the disk failed.
    DiskFault,
    /// An answer could not be printed.
    PrintFault,
    /// There was no memory.
    OutOfMemory,
}

impl Status {
    /// The number with which the program ends.
    pub fn number(self) -> u8
        ensures { result ≡ number_of self }
    {
        match self {
            Status::Done => 0,
            Status::Usage => 2,
            Status::BadScript { .. } => 3,
            Status::NotMade => 4,
            Status::AlreadyMade => 5,
            Status::Damaged { .. } => 6,
            Status::ReadFault => 7,
            Status::DiskFault => 8,
            Status::PrintFault => 9,
            Status::OutOfMemory => 10,
        }
    }
}
