//! What the steps of a database with chains leave of its tables, and the calls on chains of its pages.
ghost use Rattle.isp_chained.specs.Laws.{AloneIsNone, AloneIsOne, ChainedIsLocal, ChainedIsPlain, CourseGoesOn, FinishingCommits, FinishingHolds, FinishingKeepsDisjoint, NotingKeeps, PlainIsChained, PlainStands, PoppingHolds, PoppingKeepsDisjoint, PushingHolds, PushingKeepsDisjoint, PushingNotes, SlotsHaveStacks, SlotsStandInOrder, UndoingKeeps, UnnamedIsCommitted};

/// A row that is written, with what stood there noted in a slot, leaves the committed tables.
pub fn law_noting_keeps()
    ensures { NotingKeeps }
{}

/// So does the newest old row of a slot that is put back.
pub fn law_undoing_keeps()
    ensures { UndoingKeeps }
{}

/// Old rows of a slot that go make the rows of their keys the committed ones, and no others.
pub fn law_finishing_commits()
    ensures { FinishingCommits }
{}

/// Each slot has what the calls on its chain stand on.
pub fn law_slots_have_stacks()
    ensures { SlotsHaveStacks }
{}

/// After an image is pushed, tables and chains stand beside each other.
pub fn law_pushing_holds()
    ensures { PushingHolds }
{}

/// So they do after one is popped.
pub fn law_popping_holds()
    ensures { PoppingHolds }
{}

/// And after a chain is finished.
pub fn law_finishing_holds()
    ensures { FinishingHolds }
{}

/// The old rows of a slot stand between those of the slots behind it and those of the slots before it.
pub fn law_slots_stand_in_order()
    ensures { SlotsStandInOrder }
{}

/// An image that is pushed is the newest of its slot.
pub fn law_pushing_notes()
    ensures { PushingNotes }
{}

/// An image of a key that no other slot names leaves no two slots that name one.
pub fn law_pushing_keeps_disjoint()
    ensures { PushingKeepsDisjoint }
{}

/// So does one that is popped.
pub fn law_popping_keeps_disjoint()
    ensures { PoppingKeepsDisjoint }
{}

/// And a chain that is finished.
pub fn law_finishing_keeps_disjoint()
    ensures { FinishingKeepsDisjoint }
{}

/// A kept file without old rows is one with chains that has none.
pub fn law_plain_is_chained()
    ensures { PlainIsChained }
{}

/// A file with chains that has none is a kept file without old rows.
pub fn law_chained_is_plain()
    ensures { ChainedIsPlain }
{}

/// A kept file without old rows stands for its tables of now.
pub fn law_plain_stands()
    ensures { PlainStands }
{}

/// Where one slot alone has a chain the old rows are its own.
pub fn law_alone_is_one()
    ensures { AloneIsOne }
{}

/// Where that one is empty no slot has a chain.
pub fn law_alone_is_none()
    ensures { AloneIsNone }
{}

/// Where no old row is of a key the committed row is that of now.
pub fn law_unnamed_is_committed()
    ensures { UnnamedIsCommitted }
{}

/// A file with chains stands on its pages in use alone.
pub fn law_chained_is_local()
    ensures { ChainedIsLocal }
{}

/// A course goes on by what is kept.
pub fn law_course_goes_on()
    ensures { CourseGoesOn }
{}
