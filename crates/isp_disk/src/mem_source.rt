//! A source in memory, which tells what is left and fails where it is told to.
ghost use Rattle.std.specs.Prelude.{◌≡◌, ◌<◌, ◌≤◌, ◌++◌, length, take, drop, min, not, IfOk, is_ok, ⊤};
ghost use Rattle.isp_disk.specs.InMemory.{SourceState, new_source, after_next, filled, is_failing};
ghost use Rattle.isp_disk.specs.Outside.{HasCause, Reads};

use crate::world::count_fault;
use crate::{Failed, Source};
use std::alloc::{AllocError, Global};
use std::marker::Model;

/// A source whose calls are numbered from 1, and which fails at the numbers that it was given.
#[derive(Drop)]
pub struct MemSource {
    bytes: Vec<u8>,
    given: usize,
    failing: Vec<u64>,
    made: u64,
    faults: u64,
}

impl Model for MemSource {
    ghost Value = { SourceState };

    ghost view = { λ s. record {
      left = drop s.given s.bytes.items;
      failing = s.failing.items;
      made = s.made;
      faults = s.faults;
    } };

    ghost invariant = { λ s. s.given ≤ length s.bytes.items };
}

impl MemSource {
    /// A source that gives these bytes and fails at the calls of these numbers.
    pub fn new(alloc: Global, bytes: &[u8], failing: &[u64]) -> Result<MemSource, AllocError>
        ensures { IfOk result (λ source. source ≡ new_source bytes.now failing.now) }
    {
        Ok(MemSource {
            bytes: bytes.to_vec(alloc)?,
            given: 0,
            failing: failing.to_vec(alloc)?,
            made: 0,
            faults: 0,
        })
    }
}

// Whether the call behind so many others fails.
fn fails(failing: &[u64], made: u64) -> bool
    ensures { result ≡ is_failing failing.now made }
{
    if made < u64::MAX {
        failing.contains(&(made + 1))
    } else {
        false
    }
}

// Puts the first bytes at the front of the piece, as many as it has room for.
fn put_front(bytes: &[u8], into: &mut [u8]) -> usize
    ensures count { result ≡ min (length into.old) (length bytes.now) }
    ensures piece { into.new ≡ take (length into.old) bytes.now ++ drop (length bytes.now) into.old }
{
    let n = into.len().min(bytes.len());
    into[..n].copy_from_slice(&bytes[..n]);
    n
}

impl Source for MemSource {
    ghost tells = { ⊤ };

    ghost left = { λ source. source.left };

    ghost faults = { λ source. source.faults };

    fn next(&mut self, into: &mut [u8]) -> Result<usize, Failed>
        requires { 0 < length into.old }
        ensures done { is_ok result ≡ not (is_failing self.old.failing self.old.made) }
        ensures count { IfOk result (λ n. n ≡ min (length into.old) (length self.old.left)) }
        ensures after { self.new ≡ after_next self.old (length into.old) }
        ensures piece { into.new ≡ filled self.old into.old }
        ensures read { Reads self.old.left into.new self.new.left result }
        ensures cause { HasCause self.old.faults self.new.faults result }
    {
        let is_to_fail = fails(&self.failing, self.made);
        self.made = self.made.saturating_add(1);
        if is_to_fail {
            self.faults = count_fault(self.faults);
            return Err(Failed);
        }
        let n = put_front(&self.bytes[self.given..], into);
        self.given += n;
        Ok(n)
    }
}
