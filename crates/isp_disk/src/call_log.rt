//! The calls that a world in memory was asked for, kept in memory that is taken once.
ghost use Rattle.std.specs.Prelude.{◌≡◌, ◌+◌, ◌<◌, ◌≤◌, [], length, nat_le, count_by, take, drop, false, IfOk, vec_capacity};
ghost use Rattle.isp_disk.specs.InMemory.{LogState, is_spent, with_call};
ghost use Rattle.isp_disk.specs.Stops.{call_at, is_good_sync};
ghost use Rattle.isp_disk.specs.Kept.{AreKept, event_with, events_of};

use std::alloc::{AllocError, Global};
use std::marker::Model;

/// What a call asks for.
#[derive(Clone, Copy, Debug, PartialEq, Eq)]
pub(crate) enum CallKind {
    Read,
    Write { at: u64 },
    Sync,
    Print,
}

/// A call, with the place of the bytes that it was given among those of all calls.
#[derive(Clone, Copy, Debug, PartialEq, Eq)]
pub(crate) struct Call {
    pub kind: CallKind,
    pub is_ok: bool,
    pub from: usize,
    pub length: usize,
}

/// The calls in order, and memory for more of them.
#[derive(Drop)]
pub(crate) struct CallLog {
    calls: Vec<Call>,
    kept: Vec<u8>,
    most: usize,
    room: usize,
}

impl Model for CallLog {
    ghost Value = { LogState };

    ghost view = { λ l. record { calls = events_of l.kept.items l.calls.items; most = l.most; room = l.room } };

    ghost invariant = { λ l. AreKept (length l.kept.items) l.calls.items
        × (l.most ≤ vec_capacity l.calls)
        × (length l.kept.items + l.room ≤ vec_capacity l.kept) };
}

impl CallLog {
    /// No calls, and memory for so many calls and so many of their bytes together.
    pub fn new(alloc: Global, most: usize, room: usize) -> Result<CallLog, AllocError>
        ensures { IfOk result (λ log. log ≡ record { calls = []; most = most; room = room }) }
    {
        Ok(CallLog {
            calls: Vec::with_capacity(alloc, most)?,
            kept: Vec::with_capacity(alloc, room)?,
            most,
            room,
        })
    }

    /// The number of the next call, from 1.
    pub fn next_number(&self) -> u64
        ensures { result ≡ length self.now.calls + 1 }
    {
        self.calls.len() as u64 + 1
    }

    /// Whether no memory is left for one more call with so many bytes.
    pub fn is_spent(&self, size: usize) -> bool
        ensures { result ≡ is_spent self.now size }
    {
        self.most <= self.calls.len() || self.room < size
    }

    /// How many calls there are.
    pub fn count(&self) -> usize
        ensures { result ≡ length self.now.calls }
    {
        self.calls.len()
    }

    /// The call behind so many others: what it asked for, whether it came about, and its bytes.
    pub fn call(&self, made: usize) -> (CallKind, bool, &[u8])
        requires { made < length self.now.calls }
        ensures { event_with result.0 result.1 result.2.now ≡ call_at self.now.calls made }
    {
        let call = self.calls[made];
        let bytes = part(&self.kept, call.from, call.length);
        (call.kind, call.is_ok, bytes)
    }

    /// How many syncs came about.
    pub fn good_syncs(&self) -> usize
        ensures { result ≡ count_by is_good_sync self.now.calls }
    {
        self.calls.iter().filter(|call| is_good_sync(call)).count()
    }

    /// Adds a call.
    pub fn push(&mut self, kind: CallKind, is_ok: bool, bytes: &[u8])
        requires { is_spent self.old (length bytes.now) ≡ false }
        ensures { self.new ≡ with_call self.old (event_with kind is_ok bytes.now) (length bytes.now) }
    {
        let call = Call {
            kind,
            is_ok,
            from: self.kept.len(),
            length: bytes.len(),
        };
        self.room -= bytes.len();
        match self.kept.extend_from_slice(bytes) {
            Ok(()) => {}
            // The memory was taken at `new`.
            Err(_) => unreachable!(),
        }
        match self.calls.push(call) {
            Ok(()) => {}
            Err(_) => unreachable!(),
        }
    }
}

// A part of the bytes that are kept.
fn part(kept: &[u8], from: usize, size: usize) -> &[u8]
    requires { from + size ≤ length kept.now }
    ensures { result.now ≡ take size (drop from kept.now) }
{
    &kept[from..from + size]
}

fn is_good_sync(call: &Call) -> bool
    ensures { result ≡ is_good_sync (event_with call.now.kind call.now.is_ok []) }
{
    match call.kind {
        CallKind::Sync => call.is_ok,
        CallKind::Read | CallKind::Write { .. } | CallKind::Print => false,
    }
}
