//! Full files.

ghost use Rattle.isp_full.specs.FullLaws.{FullIsCaused};

/// A full file's answer comes only where its statement found no room for a change, or is a CREATE without room.
pub fn law_full_is_caused()
    ensures { FullIsCaused }
{}
