//! Why a statement is refused, and what of a refusal is told.

ghost use Rattle.std.specs.Prelude.{◌≡◌};
ghost use Rattle.isp_plain.specs.Refusals.{cause_number, cause_words, number, shown, state, words};

use isp_wkt::WktCause;

/// Why a statement is refused. It is told by a number, a state and words, and by a key or a place where it has one. The
/// numbers and states up to 1406 are those of the MySQL 8.0 manual; the numbers from 9001 on, and all words but a
/// deadlock's, are this project's own.
#[derive(Clone, Copy, PartialEq, Eq)]
pub enum Refusal {
    /// CREATE TABLE of a name that is there.
    TableExists,
    /// A named column isn't there.
    UnknownColumn,
    /// A row of INSERT has a key that is there already, or that an earlier row of the statement has.
    DuplicateKey { key: i64 },
    /// The text isn't in the grammar.
    Syntax,
    /// The file has no room for the change.
    FileFull,
    /// A row of INSERT has another number of values than the table has columns.
    ColumnCount,
    /// The table isn't there.
    NoSuchTable,
    /// The transaction was given up to end a deadlock.
    Deadlock,
    /// A number outside of 64 bits.
    OutOfRange,
    /// A text to be stored that is longer than its column.
    TooLong,
    /// A fault in the text of a geometry, and its place, in bytes from 0.
    Geometry { cause: WktCause, at: u32 },
    /// In the setup a statement other than CREATE TABLE and INSERT, in a session CREATE TABLE.
    NotAllowedHere,
    /// A row has more than 1,000 row bytes.
    RowTooLarge,
    /// A table outside the limits of a definition, or one too many.
    OutOfLimits,
    /// The form of a value isn't the column's.
    WrongType,
    /// BEGIN or START TRANSACTION inside a transaction.
    AlreadyBegun,
    /// SET names the key.
    KeyCannotBeSet,
}

fn cause_number(cause: WktCause) -> u32
    ensures { result ≡ cause_number cause }
{
    match cause {
        WktCause::NotWhole => 9001,
        WktCause::OutOfRange => 9002,
        WktCause::Unclosed => 9003,
        WktCause::TooFew => 9004,
        WktCause::Empty => 9005,
        WktCause::Unknown => 9006,
        WktCause::Trailing => 9007,
        WktCause::Truncated => 9008,
        WktCause::TooDeep => 9009,
    }
}

#[tactic(auto, unfolding(crate::specs::Refusals::cause_words))]
fn cause_words(cause: WktCause) -> &'static [u8]
    ensures { result.now ≡ cause_words cause }
{
    match cause {
        WktCause::NotWhole => b"coordinate not whole at ",
        WktCause::OutOfRange => b"coordinate out of range at ",
        WktCause::Unclosed => b"ring not closed at ",
        WktCause::TooFew => b"too few points at ",
        WktCause::Empty => b"empty geometry at ",
        WktCause::Unknown => b"unknown text at ",
        WktCause::Trailing => b"trailing text at ",
        WktCause::Truncated => b"truncated text at ",
        WktCause::TooDeep => b"nested too deep at ",
    }
}

impl Refusal {
    /// The number by which it is told.
    pub fn number(self) -> u32
        ensures { result ≡ number self }
    {
        match self {
            Refusal::TableExists => 1050,
            Refusal::UnknownColumn => 1054,
            Refusal::DuplicateKey { .. } => 1062,
            Refusal::Syntax => 1064,
            Refusal::FileFull => 1114,
            Refusal::ColumnCount => 1136,
            Refusal::NoSuchTable => 1146,
            Refusal::Deadlock => 1213,
            Refusal::OutOfRange => 1264,
            Refusal::TooLong => 1406,
            Refusal::Geometry { cause, .. } => cause_number(cause),
            Refusal::NotAllowedHere => 9010,
            Refusal::RowTooLarge => 9011,
            Refusal::OutOfLimits => 9013,
            Refusal::WrongType => 9014,
            Refusal::AlreadyBegun => 9015,
            Refusal::KeyCannotBeSet => 9016,
        }
    }

    /// The state that stands behind the number (SQLSTATE in the MySQL 8.0 manual).
    #[tactic(auto, unfolding(crate::specs::Refusals::state))]
    pub fn state(self) -> &'static [u8]
        ensures { result.now ≡ state self }
    {
        match self {
            Refusal::TableExists => b"42S01",
            Refusal::UnknownColumn => b"42S22",
            Refusal::DuplicateKey { .. } => b"23000",
            Refusal::Syntax => b"42000",
            Refusal::ColumnCount => b"21S01",
            Refusal::NoSuchTable => b"42S02",
            Refusal::Deadlock => b"40001",
            Refusal::OutOfRange => b"22003",
            Refusal::TooLong => b"22001",
            _ => b"HY000",
        }
    }

    /// The words that stand behind the state. Where a key or a place is shown they end with the space before it.
    #[tactic(auto, unfolding(crate::specs::Refusals::words))]
    pub fn words(self) -> &'static [u8]
        ensures { result.now ≡ words self }
    {
        match self {
            Refusal::TableExists => b"table exists",
            Refusal::UnknownColumn => b"unknown column",
            Refusal::DuplicateKey { .. } => b"duplicate key ",
            Refusal::Syntax => b"syntax",
            Refusal::FileFull => b"file is full",
            Refusal::ColumnCount => b"column count",
            Refusal::NoSuchTable => b"no such table",
            Refusal::Deadlock => {
                b"Deadlock found when trying to get lock; try restarting transaction"
            }
            Refusal::OutOfRange => b"out of range",
            Refusal::TooLong => b"too long",
            Refusal::Geometry { cause, .. } => cause_words(cause),
            Refusal::NotAllowedHere => b"not allowed here",
            Refusal::RowTooLarge => b"row too large",
            Refusal::OutOfLimits => b"definition out of limits",
            Refusal::WrongType => b"wrong type",
            Refusal::AlreadyBegun => b"transaction already begun",
            Refusal::KeyCannotBeSet => b"key cannot be set",
        }
    }

    /// The key, or the place in bytes from 0, that stands behind the words; None where nothing does.
    pub fn shown(self) -> Option<i64>
        ensures { result ≡ shown self }
    {
        match self {
            Refusal::DuplicateKey { key } => Some(key),
            Refusal::Geometry { at, .. } => Some(i64::from(at)),
            _ => None,
        }
    }
}
