//! The list, in a deque that never grows.

ghost use Rattle.std.specs.Prelude.{◌≡◌, ℕ, ◌+◌, ◌-◌, ◌<◌, ◌≤◌, ◌==◌, true, false, IfOk, [], ◌∷◌, length, slice_index_or};
ghost use Rattle.std.specs.List.{position};
ghost use Rattle.isp_recency.specs.Recent.{has, without, last_where, most_frames, IsRecency};

use std::alloc::{AllocError, Global};
use std::collections::VecDeque;
use std::marker::Model;

/// Distinct numbers below a size, the last used first and the least recently used at the end.
#[derive(Drop)]
pub struct Recency {
    size: usize,
    /// There is room for all numbers below the size.
    members: VecDeque<usize>,
}

impl Model for Recency {
    ghost use Rattle.std.specs.Prelude.{◌≤◌};
    ghost use Rattle.std.specs.VecDeque.{deque_capacity};
    ghost use Rattle.isp_recency.specs.Recent.{RecencyList, IsRecency};

    ghost Value = { RecencyList };

    ghost view = { λ r. record { size = r.size; members = r.members.items } };

    ghost invariant = { λ r. (r.size ≤ deque_capacity r.members)
        × IsRecency (record { size = r.size; members = r.members.items }) };
}

impl Recency {
    /// The empty list, for numbers below `n`, which is 1 to 4,096. Only this takes memory: room for all of them.
    pub fn new(alloc: Global, n: usize) -> Result<Recency, AllocError>
        requires least { 0 < n }
        requires most { n ≤ most_frames }
        ensures { IfOk result (λ r. r ≡ record { size = n; members = [] }) }
    {
        let members = VecDeque::with_capacity(alloc, n)?;
        Ok(Recency { size: n, members })
    }

    /// All numbers that may come are below this.
    pub fn size(&self) -> usize
        ensures size { result ≡ self.now.size }
        ensures kept { IsRecency self.now }
    {
        self.size
    }

    /// A number that isn't there comes to the front.
    pub fn push_front(&mut self, i: usize)
        requires below { i < self.old.size }
        requires absent { has self.old.members i ≡ false }
        ensures { self.new ≡ record { size = self.old.size; members = i ∷ self.old.members } }
    {
        self.members.push_front_reserved(i);
    }

    /// A number that is there goes to the front.
    pub fn touch(&mut self, i: usize)
        requires { has self.old.members i ≡ true }
        ensures { self.new
            ≡ record { size = self.old.size; members = i ∷ without self.old.members i } }
    {
        self.remove(i);
        self.push_front(i);
    }

    /// A number that is there goes away.
    pub fn remove(&mut self, i: usize)
        requires { has self.old.members i ≡ true }
        ensures list { self.new
            ≡ record { size = self.old.size; members = without self.old.members i } }
        ensures below { i < self.old.size }
    {
        if let Some(place) = place_of(&self.members, i) {
            self.members.remove(place);
        }
    }

    /// The last member whose flag is set; None exactly where no member's is. There is a flag for each number below the size.
    pub fn last_where_free(&self, free: &[bool]) -> Option<usize>
        requires { length free.now ≡ self.now.size }
        ensures { result ≡ last_where (λ i. slice_index_or free.now i false) self.now.members }
    {
        last_flagged(&self.members, free)
    }
}

fn place_of(members: &VecDeque<usize>, i: usize) -> Option<usize>
    ensures { result ≡ position (λ member. member == i) members.now.items }
{
    members.iter().position(|member| *member == i)
}

fn last_flagged(members: &VecDeque<usize>, free: &[bool]) -> Option<usize>
    requires { (i : ℕ) → has members.now.items i ≡ true → i < length free.now }
    ensures { result ≡ last_where (λ i. slice_index_or free.now i false) members.now.items }
{
    for place in (0..members.len()).rev() {
        let member = members[place];
        if free[member] {
            return Some(member);
        }
    }
    None
}
