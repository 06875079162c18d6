//! Files whose old rows stand in undo chains on their pages: definitions, and laws about them.
//!
//! `specs/Chained` says that contents are a database with 32 chains, that its old rows are those of the chains, and for which
//! tables they stand: those of now with the old rows put back, the newest first, from the last slot to the first. `Steps` has
//! what changes of such a database where a row is written and what stood there noted, where the newest old row of a slot is put
//! back, and where the old rows of a slot go; `Courses` how a file goes from one database to another by such steps; `Laws` what each
//! leaves of the committed tables and of the pages.
#![tactic(auto)]

mod laws;

pub use laws::{
    law_alone_is_none, law_alone_is_one, law_chained_is_local, law_chained_is_plain,
    law_course_goes_on, law_finishing_commits, law_finishing_holds, law_finishing_keeps_disjoint,
    law_noting_keeps, law_plain_is_chained, law_plain_stands, law_popping_holds,
    law_popping_keeps_disjoint, law_pushing_holds, law_pushing_keeps_disjoint, law_pushing_notes,
    law_slots_have_stacks, law_slots_stand_in_order, law_undoing_keeps, law_unnamed_is_committed,
};
