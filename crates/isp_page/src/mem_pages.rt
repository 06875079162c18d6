//! Pages in memory, with no disk below them. They tell their contents and what was printed, and no moments.
ghost use Rattle.std.specs.Prelude.{◌≡◌, ◌+◌, ◌*◌, ◌-◌, ◌<◌, ◌≤◌, ◌++◌, [], ℕ, is_ok, length, nat_le, replicate, true, false, vec_capacity, IfErr, IfOk, OnOk, OnErr, ⊤};
ghost use Rattle.isp_disk.specs.InMemory.{counted};
ghost use Rattle.isp_disk.specs.Moments.{image_of, put, slice};
ghost use Rattle.isp_format.specs.Control.{IsFanout, IsPages};
ghost use Rattle.isp_disk.specs.Outside.{HasCause};
ghost use Rattle.isp_format.specs.Empty.{empty_contents, first_fresh};
ghost use Rattle.isp_format.specs.Ranges.{page_bytes, page_of};
ghost use Rattle.isp_page.specs.State.{FileShape, MiniTransaction, is_among, most_changed, with_page};
ghost use Rattle.isp_page.specs.InMemory.{MemState, PrintsInMemory, new_pages};
ghost use Rattle.isp_page.specs.declared.fault.StoreFault.TheVariants.{Print};

use crate::fault::StoreFault;
use crate::pages::{MOST_CHANGED, Pages};
use isp_format::{FIRST_FRESH, PAGE_BYTES, Page, PageNo, first_page};
use std::alloc::{AllocError, Global};
use std::marker::Model;

/// A store of pages in memory. A stop leaves nothing of it; its one fault is a line that passes the room for printed
/// bytes.
#[derive(Drop)]
pub struct MemPages {
    bytes: Vec<u8>,
    pages: u32,
    fanout: u32,
    is_begun: bool,
    changed: Vec<u32>,
    printed: Vec<u8>,
    room: usize,
    print_faults: u64,
}

impl Model for MemPages {
    ghost Value = { MemState };

    ghost view = { λ m. record {
      bytes = m.bytes.items;
      shape = record { pages = m.pages; fanout = m.fanout };
      mini = record { is_begun = m.is_begun; changed = m.changed.items };
      printed = m.printed.items;
      room = m.room;
      print_faults = m.print_faults;
    } };

    ghost invariant = { λ m. (length m.bytes.items ≡ m.pages * page_bytes) × IsPages m.pages × IsFanout m.fanout
        × (length m.printed.items + m.room ≤ vec_capacity m.printed) × (most_changed ≤ vec_capacity m.changed) };
}

impl MemPages {
    /// The pages of an empty file with these numbers, and memory for `room` printed bytes.
    pub fn new(alloc: Global, pages: u32, fanout: u32, room: usize) -> Result<MemPages, AllocError>
        requires pages { IsPages pages }
        requires fanout { IsFanout fanout }
        ensures new { IfOk result (λ m. m ≡ new_pages pages fanout room m.bytes) }
        ensures contents { IfOk result (λ m. image_of m.bytes ≡ empty_contents) }
    {
        Ok(MemPages {
            bytes: empty_bytes(alloc, pages)?,
            pages,
            fanout,
            is_begun: false,
            changed: Vec::with_capacity(alloc, MOST_CHANGED)?,
            printed: Vec::with_capacity(alloc, room)?,
            room,
            print_faults: 0,
        })
    }

    /// The bytes that were printed so far.
    pub fn printed(&self) -> &[u8]
        ensures { result.now ≡ self.now.printed }
    {
        &self.printed
    }

    fn tell_kept(&mut self, line: &[u8]) -> Result<(), StoreFault>
        ensures done { is_ok result ≡ nat_le (length line.now) self.old.room }
        ensures whole { OnOk result (self.new ≡ record self.old {
          printed = self.old.printed ++ line.now;
          room = self.old.room - length line.now;
        }) }
        ensures refused { OnErr result (self.new ≡ record self.old {
          print_faults = counted self.old.print_faults;
        }) }
        ensures cause { HasCause self.old.print_faults self.new.print_faults result }
        ensures by_print { IfErr result (λ fault. fault ≡ Print) }
    {
        if line.len() > self.room {
            self.print_faults = self.print_faults.saturating_add(1);
            return Err(StoreFault::Print);
        }
        self.room -= line.len();
        match self.printed.extend_from_slice(line) {
            Ok(()) => Ok(()),
            // The room for these bytes was taken at `new`.
            Err(_) => unreachable!(),
        }
    }
}

// Puts the bytes over those that stand there.
fn put_over(bytes: &mut Vec<u8>, at: usize, piece: &[u8])
    requires { at + length piece.now ≤ length bytes.old.items }
    ensures size { length bytes.new.items ≡ length bytes.old.items }
    ensures put { (place : ℕ) → image_of bytes.new.items place
        ≡ put (image_of bytes.old.items) at piece.now place }
{
    bytes[at..at + piece.len()].copy_from_slice(piece);
}

// Adds the page to those that were changed, unless it is one of them.
fn note(changed: &mut Vec<u32>, page: u32)
    requires { is_among page changed.old.items ≡ false
        → length changed.old.items < vec_capacity changed.old }
    ensures noted { changed.new.items ≡ with_page page changed.old.items }
    ensures capacity { vec_capacity changed.old ≤ vec_capacity changed.new }
{
    if changed.contains(&page) {
        return;
    }
    match changed.push(page) {
        Ok(()) => {}
        // There is room for it.
        Err(_) => unreachable!(),
    }
}

// Puts one of the pages that every file has.
fn put_first_page(bytes: &mut Vec<u8>, page: u32)
    requires first { page < first_fresh }
    requires inside { page * page_bytes + page_bytes ≤ length bytes.old.items }
    requires before { (place : ℕ) → place < page * page_bytes
        → image_of bytes.old.items place ≡ empty_contents place }
    requires behind { (place : ℕ) → page * page_bytes ≤ place → image_of bytes.old.items place ≡ 0 }
    ensures size { length bytes.new.items ≡ length bytes.old.items }
    ensures before { (place : ℕ) → place < (page + 1) * page_bytes
        → image_of bytes.new.items place ≡ empty_contents place }
    ensures behind { (place : ℕ) → (page + 1) * page_bytes ≤ place
        → image_of bytes.new.items place ≡ 0 }
{
    let first = first_page(page);
    put_over(bytes, page as usize * PAGE_BYTES, &first.bytes);
}

// The bytes of all pages of an empty file.
fn empty_bytes(alloc: Global, pages: u32) -> Result<Vec<u8>, AllocError>
    requires { IsPages pages }
    ensures size { IfOk result (λ bytes. length bytes.items ≡ pages * page_bytes) }
    ensures contents { IfOk result (λ bytes. (place : ℕ)
        → image_of bytes.items place ≡ empty_contents place) }
{
    let mut bytes = vec![in alloc; 0u8; pages as usize * PAGE_BYTES]?;
    for page in 0..FIRST_FRESH {
        put_first_page(&mut bytes, page);
    }
    Ok(bytes)
}

impl Pages for MemPages {
    ghost tells = { ⊤ };

    ghost contents = { λ m. image_of m.bytes };

    ghost printed = { λ m. m.printed };

    ghost may_leave = { λ m left. ⊥ };

    ghost clock = { λ m. 0 };

    ghost left_since = { λ m t left printed. ⊥ };

    ghost shape = { λ m. m.shape };

    ghost mini = { λ m. m.mini };

    ghost dirty = { λ m. 0 };

    ghost disk_faults = { λ m. 0 };

    ghost print_faults = { λ m. m.print_faults };

    ghost usable = { λ m. true };

    fn pages(&self) -> u32 {
        self.pages
    }

    fn fanout(&self) -> u32 {
        self.fanout
    }

    fn begin(&mut self) {
        self.is_begun = true;
        self.changed.clear();
    }

    fn read(&mut self, p: PageNo, into: &mut Page) -> Result<(), StoreFault> {
        let at = p.0 as usize * PAGE_BYTES;
        into.bytes.copy_from_slice(&self.bytes[at..at + PAGE_BYTES]);
        Ok(())
    }

    fn change(&mut self, p: PageNo, at: u16, bytes: &[u8]) -> Result<(), StoreFault> {
        note(&mut self.changed, p.0);
        let place = p.0 as usize * PAGE_BYTES + at as usize;
        put_over(&mut self.bytes, place, bytes);
        Ok(())
    }

    fn finish(&mut self) -> Result<(), StoreFault> {
        self.is_begun = false;
        self.changed.clear();
        Ok(())
    }

    fn flush(&mut self) -> Result<(), StoreFault> {
        Ok(())
    }

    fn clean_some(&mut self) -> Result<u32, StoreFault> {
        Ok(0)
    }

    fn print(&mut self, line: &[u8]) -> Result<(), StoreFault>
        ensures done { is_ok result ≡ nat_le (length line.now) self.old.room }
        ensures whole { OnOk result (self.new ≡ record self.old {
          printed = self.old.printed ++ line.now;
          room = self.old.room - length line.now;
        }) }
        ensures refused { OnErr result (self.new ≡ record self.old {
          print_faults = counted self.old.print_faults;
        }) }
        ensures printed { PrintsInMemory line.now self.old self.new result }
        ensures contents { image_of self.new.bytes ≡ image_of self.old.bytes }
        ensures mini { self.new.mini ≡ self.old.mini }
        ensures dirty { ◌≡◌ {A = ℕ} 0 0 }
    {
        self.tell_kept(line)
    }
}
