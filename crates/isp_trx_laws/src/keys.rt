//! The keys that are written.

ghost use Rattle.isp_trx_laws.specs.Laws.{CommitAddsNone, CreateAddsNone, NoneWritten, SweepLeavesNone, UndoAddsNone, WriteAddsKey, WrittenInAnyOrder, WrittenMaySweep};

/// A file at rest has none.
pub fn law_none_written()
    ensures { NoneWritten }
{}

/// A row that is written adds its key.
pub fn law_write_adds_key()
    ensures { WriteAddsKey }
{}

/// An old row that is put back adds none.
pub fn law_undo_adds_none()
    ensures { UndoAddsNone }
{}

/// A commit adds none.
pub fn law_commit_adds_none()
    ensures { CommitAddsNone }
{}

/// A table more adds none.
pub fn law_create_adds_none()
    ensures { CreateAddsNone }
{}

/// Where no old row is noted any more the keys may be swept.
pub fn law_written_may_sweep()
    ensures { WrittenMaySweep }
{}

/// After that no row is marked.
pub fn law_sweep_leaves_none()
    ensures { SweepLeavesNone }
{}

/// The order of the keys doesn't matter.
pub fn law_written_in_any_order()
    ensures { WrittenInAnyOrder }
{}
