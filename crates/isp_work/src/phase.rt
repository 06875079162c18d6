//! What comes next of a statement.

use isp_plain::Refusal;

/// What the next step of a statement is.
#[derive(Clone, Copy, PartialEq, Eq)]
pub enum Phase {
    /// The table is made.
    Creating,
    /// A leaf of its table is read, or the row of a key.
    Reading,
    /// The next key is looked up.
    Looking,
    /// The next row is written.
    Changing,
    /// Its newest change is taken back.
    Undoing(Refusal),
    /// The newest change of the transaction is taken back.
    RollingBack,
    /// It is ready.
    Ready,
}
