//! The modes of a lock.

ghost use Rattle.std.specs.Prelude.{◌≡◌};
ghost use Rattle.isp_reclock.specs.Modes.{conflicts};

/// How a lock is held: as the intention to share or to write rows of a table, or shared or exclusive as a whole.
///
/// The order of the variants is that in which locks are listed. The modes and their conflicts are those of InnoDB's table
/// locks (the MySQL 8.0 manual, "InnoDB Locking").
#[derive(Clone, Copy, Debug, Default, PartialEq, Eq, PartialOrd, Ord, Hash)]
pub enum Mode {
    /// Intention shared.
    #[default]
    IS,
    /// Intention exclusive.
    IX,
    /// Shared.
    S,
    /// Exclusive.
    X,
}

impl Mode {
    /// Whether a lock held in this mode by one transaction keeps another from `asked` on the same thing.
    pub fn conflicts_with(self, asked: Mode) -> bool
        ensures { result ≡ conflicts self asked }
    {
        match (self, asked) {
            (Mode::IS, Mode::X) => true,
            (Mode::IX, Mode::S | Mode::X) => true,
            (Mode::S, Mode::IX | Mode::X) => true,
            (Mode::X, _) => true,
            _ => false,
        }
    }
}
