//! A world in memory, which tells its bytes and what it printed, fails where it is told to, and keeps all its calls.
ghost use Rattle.std.specs.Prelude.{◌≡◌, ◌+◌, ◌-◌, ◌^◌, ◌<◌, ◌≤◌, ◌++◌, ◌&&◌, ◌==◌, not, nat_le, ℕ, count_by, length, replicate, slice_index, [], is_ok, IfOk, OnOk, ⊤, vec_capacity};
ghost use Rattle.std.specs.List.{list_any};
ghost use Rattle.isp_disk.specs.InMemory.{KeepsDisk, LeftSince, Passes, WorldState, after_print, after_read, after_sync, after_write, held_first, held_now, is_spent, is_to_fail, is_written, new_world};
ghost use Rattle.isp_disk.specs.Kept.{IsReplayed};
ghost use Rattle.isp_disk.specs.Moments.{Quiet, Touches, image_of, in_range, no_place, put, slice};
ghost use Rattle.isp_disk.specs.Outside.{HasCause, Prints};
ghost use Rattle.isp_disk.specs.Stops.{call_at, is_good_sync, is_write, printed_behind, stopped};

use crate::call_log::{CallKind, CallLog};
use crate::stops::{image_behind, last_writes, printed_behind, put_over, put_writes, written_by};
use crate::world::count_fault;
use crate::{Failed, World};
use std::alloc::{AllocError, Global};
use std::marker::Model;

/// A world whose calls are numbered from 1, and which fails at the numbers that it was given, at a write that ends past
/// the size of its disk, and once the memory that was taken at `new` is spent.
#[derive(Drop)]
pub struct MemWorld {
    first: Vec<u8>,
    image: Vec<u8>,
    printed: Vec<u8>,
    log: CallLog,
    failing: Vec<u64>,
    disk_faults: u64,
    print_faults: u64,
}

impl Model for MemWorld {
    ghost Value = { WorldState };

    ghost view = { λ w. record {
      first = w.first.items;
      log = w.log;
      failing = w.failing.items;
      disk_faults = w.disk_faults;
      print_faults = w.print_faults;
    } };

    ghost invariant = { λ w. IsReplayed w.first.items w.image.items w.printed.items w.log.calls
        × (length w.printed.items + w.log.room ≤ vec_capacity w.printed) };
}

impl MemWorld {
    /// A world with a disk of `size` bytes that begin with `bytes`, then zeros. It fails at the calls of these numbers,
    /// and has memory for `calls` calls and for `room` written and printed bytes together.
    pub fn new(
        alloc: Global,
        size: u64,
        bytes: &[u8],
        failing: &[u64],
        calls: usize,
        room: usize,
    ) -> Result<MemWorld, AllocError>
        requires { length bytes.now ≤ size }
        ensures { IfOk result (λ world. world ≡ new_world size bytes.now failing.now calls room) }
    {
        Ok(MemWorld {
            first: filled_up(alloc, bytes, size)?,
            image: filled_up(alloc, bytes, size)?,
            printed: Vec::with_capacity(alloc, room)?,
            log: CallLog::new(alloc, calls, room)?,
            failing: failing.to_vec(alloc)?,
            disk_faults: 0,
            print_faults: 0,
        })
    }

    /// The bytes of the disk as they read now.
    pub fn image(&self) -> &[u8]
        ensures { result.now ≡ slice (held_now self.now).image 0 (length self.now.first) }
    {
        &self.image
    }

    /// How many calls have a number.
    pub fn calls(&self) -> u64
        ensures { result ≡ length self.now.log.calls }
    {
        self.log.count() as u64
    }

    /// How many syncs came about.
    pub fn syncs(&self) -> u64
        ensures { result ≡ count_by is_good_sync self.now.log.calls }
    {
        self.log.good_syncs() as u64
    }

    /// Whether the call of this number is a write, failed or not.
    pub fn is_write(&self, call: u64) -> bool
        requires from_one { 0 < call }
        requires made { call ≤ length self.now.log.calls }
        ensures { result ≡ is_write (call_at self.now.log.calls (call - 1)) }
    {
        let (kind, _, _) = self.log.call(call as usize - 1);
        matches!(kind, CallKind::Write { .. })
    }

    /// The image of a stop within the call of this number. Of the bytes below the size of the disk that were written
    /// since the last good sync before that call, up to and with that call and failed writes included, each once at its
    /// last write and in order of writing, the first `kept` hold what was written and the others hold `fill`.
    pub fn image_at(
        &self,
        alloc: Global,
        call: u64,
        kept: u64,
        fill: u8,
    ) -> Result<Vec<u8>, AllocError>
        requires from_one { 0 < call }
        requires made { call ≤ length self.now.log.calls }
        ensures image { IfOk result (λ image. image.items
            ≡ stopped self.now.first self.now.log.calls (call - 1) kept fill) }

        // With what `printed_at` gives it is left by a stop at a moment since any that was before the call.
        ensures moment { IfOk result (λ image. (t : ℕ) → t < call →
            LeftSince (held_first self.now.first) self.now.log.calls t (image_of image.items)
            (printed_behind self.now.first self.now.log.calls (call - 1))) }
    {
        let made = call as usize - 1;
        let size = self.first.len();
        let mut image = image_behind(alloc, &self.first, &self.log, made)?;
        let writes = written_by(alloc, &self.log, made, size)?;
        let last = last_writes(alloc, &writes, size)?;
        put_writes(&mut image, &last, kept, fill);
        Ok(image)
    }

    /// The bytes that were printed before the call of this number.
    pub fn printed_at(&self, alloc: Global, call: u64) -> Result<Vec<u8>, AllocError>
        requires from_one { 0 < call }
        requires made { call ≤ length self.now.log.calls }
        ensures { IfOk result (λ printed. printed.items
            ≡ printed_behind self.now.first self.now.log.calls (call - 1)) }
    {
        printed_behind(alloc, &self.log, call as usize - 1)
    }

    /// The bytes that were printed so far.
    pub fn printed(&self) -> &[u8]
        ensures { result.now ≡ (held_now self.now).printed }
    {
        &self.printed
    }
}

// These bytes, and zeros up to the size.
fn filled_up(alloc: Global, bytes: &[u8], size: u64) -> Result<Vec<u8>, AllocError>
    requires { length bytes.now ≤ size }
    ensures { IfOk result (λ all. all.items ≡ bytes.now ++ replicate (size - length bytes.now) 0) }
{
    let mut all = bytes.to_vec(alloc)?;
    all.resize(size as usize, 0)?;
    Ok(all)
}

// Whether the call of this number is one of those that are to fail.
fn is_to_fail(failing: &[u64], number: u64) -> bool
    ensures { result ≡ list_any (λ other. other == number) failing.now }
{
    failing.contains(&number)
}

// Whether a range ends at this size or before.
fn ends_within(at: u64, length: usize, size: usize) -> bool
    ensures { result ≡ nat_le (at + length) size }
{
    match (at as usize).checked_add(length) {
        Some(end) => end <= size,
        None => false,
    }
}

// Whether the write of this number comes about.
fn is_good_write(failing: &[u64], number: u64, is_inside: bool) -> bool
    ensures { result ≡ (is_inside && not (list_any (λ other. other == number) failing.now)) }
{
    is_inside && !is_to_fail(failing, number)
}

// The byte so many places behind `at`, or 0 past the end.
fn byte_behind(image: &[u8], at: u64, count: usize) -> u8
    ensures { result ≡ slice_index image.now (at + count) }
{
    match (at as usize).checked_add(count) {
        Some(place) => image.get(place).copied().unwrap_or(0),
        None => 0,
    }
}

// Fills the piece from this place of the image on.
fn read_out(image: &[u8], at: u64, into: &mut [u8])
    ensures { into.new ≡ slice (image_of image.now) at (length into.old) }
{
    for (count, byte) in into.iter_mut().enumerate() {
        *byte = byte_behind(image, at, count);
    }
}

impl MemWorld {
    fn read_kept(&mut self, at: u64, into: &mut [u8]) -> Result<(), Failed>
        ensures done { is_ok result ≡ (not (is_spent self.old.log 0) && not (is_to_fail self.old)) }
        ensures after { self.new ≡ after_read self.old }
        ensures bytes { OnOk result (into.new ≡ slice (held_now self.old).image at (length into.old)) }
        ensures cause { HasCause self.old.disk_faults self.new.disk_faults result }
    {
        if self.log.is_spent(0) {
            self.disk_faults = count_fault(self.disk_faults);
            return Err(Failed);
        }
        let fails = is_to_fail(&self.failing, self.log.next_number());
        self.log.push(CallKind::Read, !fails, &[]);
        if fails {
            self.disk_faults = count_fault(self.disk_faults);
            return Err(Failed);
        }
        read_out(&self.image, at, into);
        Ok(())
    }

    fn write_kept(&mut self, at: u64, bytes: &[u8]) -> Result<(), Failed>
        ensures done { is_ok result
            ≡ (not (is_spent self.old.log (length bytes.now)) && is_written self.old at (length bytes.now)) }
        ensures after { self.new ≡ after_write self.old at bytes.now }
        ensures cause { HasCause self.old.disk_faults self.new.disk_faults result }
    {
        if self.log.is_spent(bytes.len()) {
            self.disk_faults = count_fault(self.disk_faults);
            return Err(Failed);
        }
        let is_good = is_good_write(
            &self.failing,
            self.log.next_number(),
            ends_within(at, bytes.len(), self.image.len()),
        );
        self.log.push(CallKind::Write { at }, is_good, bytes);
        if !is_good {
            self.disk_faults = count_fault(self.disk_faults);
            return Err(Failed);
        }
        put_over(&mut self.image, at as usize, bytes);
        Ok(())
    }

    fn sync_kept(&mut self) -> Result<(), Failed>
        ensures done { is_ok result ≡ (not (is_spent self.old.log 0) && not (is_to_fail self.old)) }
        ensures after { self.new ≡ after_sync self.old }
        ensures cause { HasCause self.old.disk_faults self.new.disk_faults result }
    {
        if self.log.is_spent(0) {
            self.disk_faults = count_fault(self.disk_faults);
            return Err(Failed);
        }
        let fails = is_to_fail(&self.failing, self.log.next_number());
        self.log.push(CallKind::Sync, !fails, &[]);
        if fails {
            self.disk_faults = count_fault(self.disk_faults);
            return Err(Failed);
        }
        Ok(())
    }

    fn print_kept(&mut self, bytes: &[u8]) -> Result<(), Failed>
        ensures done { is_ok result
            ≡ (not (is_spent self.old.log (length bytes.now)) && not (is_to_fail self.old)) }
        ensures after { self.new ≡ after_print self.old bytes.now }
        ensures cause { HasCause self.old.print_faults self.new.print_faults result }
    {
        if self.log.is_spent(bytes.len()) {
            self.print_faults = count_fault(self.print_faults);
            return Err(Failed);
        }
        let fails = is_to_fail(&self.failing, self.log.next_number());
        self.log.push(CallKind::Print, !fails, bytes);
        if fails {
            self.print_faults = count_fault(self.print_faults);
            return Err(Failed);
        }
        match self.printed.extend_from_slice(bytes) {
            Ok(()) => Ok(()),
            // The room for these bytes was taken at `new`.
            Err(_) => unreachable!(),
        }
    }
}

impl World for MemWorld {
    ghost use Rattle.std.specs.Prelude.{refl};
    ghost use Rattle.isp_disk.specs.Laws.{now_counts, now_only};

    ghost tells = { ⊤ };

    ghost printed = { λ world. (held_now world).printed };

    ghost image = { λ world. (held_now world).image };

    ghost pending = { λ world. (held_now world).pending };

    ghost clock = { λ world. length world.log.calls };

    ghost left_since = { λ world. LeftSince (held_first world.first) world.log.calls };

    ghost disk_faults = { λ world. world.disk_faults };

    ghost print_faults = { λ world. world.print_faults };

    ghost counts_now = { λ world t left tells le agree.
        now_counts (held_first world.first) world.log.calls t left (held_now world).printed le
        record { agree = agree; printed = refl } };

    ghost only_now = { λ world left told since.
        let now = now_only (held_first world.first) world.log.calls left told since in
        (now.agree, now.printed) };

    fn read(&mut self, at: u64, into: &mut [u8]) -> Result<(), Failed>
        ensures done { is_ok result ≡ (not (is_spent self.old.log 0) && not (is_to_fail self.old)) }
        ensures after { self.new ≡ after_read self.old }
        ensures bytes { OnOk result (into.new ≡ slice (held_now self.old).image at (length into.old)) }
        ensures disk { KeepsDisk self.old self.new }
        ensures printed { (held_now self.new).printed ≡ (held_now self.old).printed }
        ensures time { Passes self.old self.new no_place [] }
        ensures cause { HasCause self.old.disk_faults self.new.disk_faults result }
        ensures printer { self.new.print_faults ≡ self.old.print_faults }
    {
        self.read_kept(at, into)
    }

    fn write(&mut self, at: u64, bytes: &[u8]) -> Result<(), Failed>
        ensures done { is_ok result
            ≡ (not (is_spent self.old.log (length bytes.now)) && is_written self.old at (length bytes.now)) }
        ensures after { self.new ≡ after_write self.old at bytes.now }
        ensures written { OnOk result ((held_now self.new).image ≡ put (held_now self.old).image at bytes.now) }
        ensures disk { Touches (held_now self.old).image (held_now self.old).pending at (length bytes.now)
            (held_now self.new).image (held_now self.new).pending }
        ensures printed { (held_now self.new).printed ≡ (held_now self.old).printed }
        ensures time { Passes self.old self.new (in_range at (length bytes.now)) [] }
        ensures cause { HasCause self.old.disk_faults self.new.disk_faults result }
        ensures printer { self.new.print_faults ≡ self.old.print_faults }
    {
        self.write_kept(at, bytes)
    }

    fn sync(&mut self) -> Result<(), Failed>
        ensures done { is_ok result ≡ (not (is_spent self.old.log 0) && not (is_to_fail self.old)) }
        ensures after { self.new ≡ after_sync self.old }
        ensures durable { OnOk result (Quiet (held_now self.new).pending) }
        ensures disk { KeepsDisk self.old self.new }
        ensures printed { (held_now self.new).printed ≡ (held_now self.old).printed }
        ensures time { Passes self.old self.new no_place [] }
        ensures cause { HasCause self.old.disk_faults self.new.disk_faults result }
        ensures printer { self.new.print_faults ≡ self.old.print_faults }
    {
        self.sync_kept()
    }

    fn print(&mut self, bytes: &[u8]) -> Result<(), Failed>
        ensures done { is_ok result
            ≡ (not (is_spent self.old.log (length bytes.now)) && not (is_to_fail self.old)) }
        ensures after { self.new ≡ after_print self.old bytes.now }
        ensures printed { Prints (held_now self.old).printed bytes.now (held_now self.new).printed result }
        ensures disk { KeepsDisk self.old self.new }
        ensures time { Passes self.old self.new no_place bytes.now }
        ensures cause { HasCause self.old.print_faults self.new.print_faults result }
        ensures disk_count { self.new.disk_faults ≡ self.old.disk_faults }
    {
        self.print_kept(bytes)
    }
}
