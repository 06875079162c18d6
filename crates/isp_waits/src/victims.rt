//! Which member of a cycle gives way.

ghost use Rattle.std.specs.Prelude.{◌<◌, All, MatchBool, length};
ghost use Rattle.isp_waits.specs.Victims.{GivesWay, IsVictim};

use crate::Cycle;

/// The member of the cycle that gives way: that with the fewest undo entries, and of several the one with the greatest number.
/// `undo` has the number of undo entries of each session.
pub fn victim(c: &Cycle, undo: &[u64; 17]) -> u32
    requires members { 0 < length c.now.members.items }
    requires sessions { All (λ s. s < 17) c.now.members.items }
    ensures { IsVictim c.now.members.items undo.now result }
{
    let members = c.members.as_slice();
    let mut best = members[0];
    for s in members {
        if gives_way(undo, *s, best) {
            best = *s;
        }
    }
    best
}

/// Whether `s` gives way rather than `best`.
fn gives_way(undo: &[u64; 17], s: u32, best: u32) -> bool
    requires s { s < 17 }
    requires best { best < 17 }
    ensures { MatchBool result (GivesWay undo.now s best) (GivesWay undo.now best s) }
{
    let entries = undo[s as usize];
    let least = undo[best as usize];
    entries < least || entries == least && s > best
}
