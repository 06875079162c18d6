//! The script: what a setup and the sessions say, and in which order the sessions take their turns.

use isp_base::Bytes;
use sqlite_items::Items;

/// The texts of statements, in order.
pub type Texts = Items<Bytes>;

/// A session's statements. Its number is 1 to 16; session 0 is the setup.
#[derive(Drop)]
pub struct Session {
    pub number: u32,
    pub texts: Texts,
}

/// Sessions, by rising number.
pub type Sessions = Items<Session>;

/// A word of the schedule: turns of a session, a purge turn, a flush turn, or a list of the locks.
#[derive(Clone, Copy, PartialEq, Eq)]
pub enum Word {
    Turn { session: u32, times: u32 },
    Purge,
    Flush,
    Locks,
}

/// Words of the schedule, in order.
pub type Words = Items<Word>;

/// A whole script. `stop` ends the run where the schedule does.
#[derive(Drop)]
pub struct Script {
    pub setup: Texts,
    pub sessions: Sessions,
    pub words: Words,
    pub stop: bool,
}

/// Where a statement stands: in the setup, in a session, or in a session's transaction.
#[derive(Clone, Copy, PartialEq, Eq)]
pub enum Place {
    Setup,
    Session,
    InTransaction,
}
