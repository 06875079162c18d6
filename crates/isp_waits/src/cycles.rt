//! The search for a cycle.
//!
//! Level by level it finds from which sessions just 0, 1, 2, .. waits lead to the session. The first level above 0 on which the
//! session itself is gives the length of the shortest cycle through it, and the levels below lead back: each time on to the
//! least session from which the right number of waits is left.

ghost use Rattle.std.specs.Prelude.{ℕ, ◌≡◌, ◌<◌, ◌≤◌, All, IfNone, IfSome, false, filter, nat_eq, slice_index_or, length, min};
ghost use Rattle.std.specs.List.{list_any, reduce};
ghost use Rattle.isp_waits.specs.Graphs.{waits_of};
ghost use Rattle.isp_waits.specs.Cycles.{IsFree, IsLeastCycle};
ghost use Rattle.isp_waits.specs.Levels.{reaches, walk, AreLevels};

use crate::{Cycle, Waits};
use smallvec::SmallVec;

/// For each session whether it is on the level.
type Level = [bool; 17];

impl Waits {
    /// The shortest cycle through the session, and of several the least as a list that begins with it. None exactly where no
    /// cycle passes through it.
    pub fn cycle_from(&self, s: u32) -> Option<Cycle>
        ensures found { IfSome result (λ cycle. IsLeastCycle self.now s cycle.members.items) }
        ensures sessions { IfSome result (λ cycle. All (λ member. member < 17) cycle.members.items) }
        ensures none { IfNone result (IsFree self.now s) }
    {
        if self.waits_for(s).is_empty() {
            return None;
        }
        let mut levels = [[false; 17]; 18];
        levels[0] = alone(s);
        for steps in 0..17 {
            levels[steps + 1] = self.before(&levels[steps]);
            if is_on(&levels[steps + 1], s) {
                return Some(Cycle {
                    members: self.trace(s, steps + 1, &levels),
                });
            }
        }
        None
    }

    /// The sessions of which one wait leads to the level.
    fn before(&self, level: &Level) -> Level
        ensures on { (v : ℕ) → slice_index_or result v false ≡ list_any (λ b. slice_index_or level.now b false) (waits_of self.now v) }
        ensures sessions { length self.now ≡ 17 }
    {
        let mut found = [false; 17];
        for v in 0..17 {
            found[v as usize] = self.leads_to(v, level);
        }
        found
    }

    fn leads_to(&self, v: u32, level: &Level) -> bool
        ensures on { result ≡ list_any (λ b. slice_index_or level.now b false) (waits_of self.now v) }
        ensures sessions { length self.now ≡ 17 }
    {
        self.waits_for(v).iter().any(|b| is_on(level, *b))
    }

    /// The members of the cycle of so many steps.
    fn trace(&self, s: u32, steps: usize, levels: &[Level]) -> SmallVec<u32, 17>
        requires few { steps ≤ 17 }
        requires levels { AreLevels self.now s steps levels.now }
        ensures { result.items ≡ walk self.now s steps s }
    {
        let mut members = SmallVec::new(self.allocator());
        let mut at = s;
        for left in (0..steps).rev() {
            members.push_reserved(at);
            at = self.least_on(at, &levels[left]).unwrap_or(0);
        }
        members
    }

    /// The least session on the level that v waits for.
    fn least_on(&self, v: u32, level: &Level) -> Option<u32>
        ensures { result ≡ reduce min (filter (λ b. slice_index_or level.now b false) (waits_of self.now v)) }
    {
        self.waits_for(v)
            .iter()
            .copied()
            .filter(|b| is_on(level, *b))
            .min()
    }
}

/// The level with one session.
fn alone(s: u32) -> Level
    requires { s < 17 }
    ensures { (v : ℕ) → slice_index_or result v false ≡ nat_eq s v }
{
    let mut level = [false; 17];
    level[s as usize] = true;
    level
}

fn is_on(level: &Level, s: u32) -> bool
    ensures { result ≡ slice_index_or level.now s false }
{
    level.get(s as usize).copied().unwrap_or(false)
}
