//! The lists of a wait graph.

ghost use Rattle.std.specs.Prelude.{ℕ, ◌≡◌, ◌≢◌, ◌==◌, ◌<◌, ◌≤◌, ◌↔◌, [], IsTrue, filter, length, not};
ghost use Rattle.isp_waits.specs.Graphs.{waits_of};

use smallvec::SmallVec;
use std::alloc::Global;
use std::array;
use std::marker::Model;

/// For each session the sessions that it waits for.
#[derive(Drop)]
pub struct Waits {
    lists: [SmallVec<u32, 17>; 17],
    alloc: Global,
}

impl Model for Waits {
    ghost use Rattle.std.specs.Prelude.{◌≡◌, List, ℕ, length, map};

    ghost Value = { List (List ℕ) };

    ghost view = { λ w. map (λ list. list.items) w.lists };

    ghost invariant = { λ w. length w.lists ≡ 17 };
}

/// Sessions of which each waits for the next and the last for the first.
#[derive(Debug, Drop)]
pub struct Cycle {
    pub members: SmallVec<u32, 17>,
}

impl Waits {
    /// The graph in which nobody waits. It takes no memory, nor does any later call.
    pub fn new(alloc: Global) -> Waits
        ensures { (s : ℕ) → waits_of result s ≡ [] }
    {
        Waits {
            lists: array::from_fn(|_| SmallVec::new(alloc)),
            alloc,
        }
    }

    /// From now on the session waits for just these, of which there may be as many as a list has places. Distinct sessions
    /// other than itself are never more.
    pub fn wait(&mut self, s: u32, on: &[u32])
        requires session { s < 17 }
        requires places { length on.now ≤ 17 }
        ensures own { waits_of self.new s ≡ on.now }
        ensures others { (k : ℕ) → k ≢ s → waits_of self.new k ≡ waits_of self.old k }
    {
        self.store(s, list_of(self.alloc, on));
    }

    /// The session's transaction has ended: nobody waits for it any more, nor does it wait.
    pub fn ended(&mut self, s: u32)
        ensures own { waits_of self.new s ≡ [] }
        ensures others { (k : ℕ) → k ≢ s → waits_of self.new k ≡ filter (λ b. not (b == s)) (waits_of self.old k) }
    {
        for k in 0..17 {
            self.forget(k, s);
        }
        self.stop_waiting(s);
    }

    /// The session no longer waits; others may still wait for it.
    pub fn stop_waiting(&mut self, s: u32)
        ensures own { waits_of self.new s ≡ [] }
        ensures others { (k : ℕ) → k ≢ s → waits_of self.new k ≡ waits_of self.old k }
    {
        if self.waits_for(s).is_empty() {
            return;
        }
        self.store(s, SmallVec::new(self.alloc));
    }

    /// Whether the session waits for another.
    pub fn blocked(&self, s: u32) -> bool
        ensures { IsTrue result ↔ (waits_of self.now s ≢ []) }
    {
        !self.waits_for(s).is_empty()
    }

    /// The sessions that a session waits for.
    pub(crate) fn waits_for(&self, s: u32) -> &[u32]
        ensures list { result.now ≡ waits_of self.now s }
        ensures sessions { length self.now ≡ 17 }
    {
        match self.lists.get(s as usize) {
            Some(list) => list.as_slice(),
            None => &[],
        }
    }

    fn store(&mut self, s: u32, list: SmallVec<u32, 17>)
        requires { s < 17 }
        ensures own { waits_of self.new s ≡ list.items }
        ensures others { (k : ℕ) → k ≢ s → waits_of self.new k ≡ waits_of self.old k }
    {
        self.lists[s as usize] = list;
    }

    /// Session k no longer waits for s.
    fn forget(&mut self, k: u32, s: u32)
        requires { k < 17 }
        ensures own { waits_of self.new k ≡ filter (λ b. not (b == s)) (waits_of self.old k) }
        ensures others { (j : ℕ) → j ≢ k → waits_of self.new j ≡ waits_of self.old j }
        ensures sessions { length self.new ≡ 17 }
    {
        let list = &mut self.lists[k as usize];
        list.retain(|b| *b != s);
    }

    pub(crate) fn allocator(&self) -> Global {
        self.alloc
    }
}

fn list_of(alloc: Global, on: &[u32]) -> SmallVec<u32, 17>
    requires { length on.now ≤ 17 }
    ensures { result.items ≡ on.now }
{
    let mut list = SmallVec::new(alloc);
    for b in on {
        list.push_reserved(*b);
    }
    list
}
