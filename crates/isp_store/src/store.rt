//! The store.
ghost use Rattle.std.specs.Prelude.{◌≡◌, ◌≢◌, ◌+◌, ◌*◌, ◌<◌, ◌≤◌, true, false, length, IfErr, IfOk, OnOk};
ghost use Rattle.isp_disk.specs.Moments.{Agree, either, put};
ghost use Rattle.isp_disk.specs.Phases.{EndsQuiet};
ghost use Rattle.isp_format.specs.Control.{IsFanout, IsPages, made_gate};
ghost use Rattle.isp_format.specs.Doublewrite.{most_copies};
ghost use Rattle.isp_format.specs.Ranges.{page_bytes, page_of};
ghost use Rattle.isp_making.specs.Making.{IsMade, LeavesMaking};
ghost use Rattle.isp_making.specs.Places.{file_places, made_place};
ghost use Rattle.isp_mini.specs.Extents.{with_extent};
ghost use Rattle.isp_opening.specs.Opening.{KeepsWorld};
ghost use Rattle.isp_page.specs.Calls.{Continued, Flushes, PrintsPiece};
ghost use Rattle.isp_page.specs.State.{HasRoom, just_begun, with_change};
ghost use Rattle.isp_page.specs.Steps.{IsNoDamage, done};
ghost use Rattle.isp_pool.specs.Frames.{most_frames};
ghost use Rattle.isp_store.specs.Calls.{BringsInPage, ChangesHeld, CleansOldest, ContinuesWhole, EndsChanges, FlushesWhole, HoldsSame, IsAllInPlace, IsStill, LeavesHeld, LeavesWhole, LogsChanges, MakesWhole, StandsNow};
ghost use Rattle.isp_store.specs.Starting.{IsFresh, IsStarted, StartRefuses, started_world};
ghost use Rattle.isp_store.specs.State.{clock, contents, dirty, disk_faults, left_since, may_leave, mini, print_faults, shape, store, printed};

use crate::changing::change_page;
use crate::cleaning::{checkpoint_pages, clean_pages};
use crate::finishing::log_changes;
use crate::reading::read_page;
use crate::starting::{Parts, recover};
use isp_disk::{Failed, World};
use isp_format::{Page, PageNo};
use isp_frames::Cache;
use isp_making::make;
use isp_mini::{Body, Changes};
use isp_page::{Fault, Pages, StoreFault};
use std::alloc::Global;
use std::marker::Model;

/// Pages of a file that survive a stop at any byte of any write. After a call of the disk that failed it isn't used again.
pub struct Store<W: World> {
    cache: Cache<W>,
    changes: Changes,
    body: Body,
    is_begun: bool,
    is_usable: bool,
}

impl<W: World> Model for Store<W> {
    ghost use Rattle.isp_store.specs.State.{StoreState};

    ghost Value = { StoreState W };

    ghost use Rattle.isp_store.specs.Inside.{IsStore, seen};

    ghost view = { seen };

    ghost invariant = { λ s. IsStore W.World s };
}

impl<W: World> Store<W> {
    /// Makes an empty file of so many pages, with this fan-out for its R-trees, as `isp_making::make`.
    pub fn make(world: &mut W, pages: u32, fanout: u32) -> Result<(), Failed>
        requires pages { IsPages pages }
        requires fanout { IsFanout fanout }
        ensures made { W.tells → OnOk result (IsMade pages fanout (W.image world.new)) }
        ensures others { Agree file_places (W.image world.old) (W.image world.new) }
        ensures stops { W.tells → LeavesMaking W.World pages fanout
            (either (W.pending world.old) made_place) world.old world.new }
        ensures closed { W.tells → W.image world.old made_gate ≢ 1
            → LeavesMaking W.World pages fanout (W.pending world.old) world.old world.new }
        ensures ends { EndsQuiet W.World world.old world.new result }
    {
        make(world, pages, fanout)
    }

    /// Starts a store with so many frames, 64 to 4,096, on a file that a stop may have left in the middle of anything. What
    /// the file reads is made durable; its first three page rules are tested by reads alone; copies that count are laid over
    /// their pages, the log is put into them, all are written in place and the log is emptied. Only this takes memory. The
    /// world comes back with the fault.
    ///
    /// # Errors
    ///
    /// Memory, and then nothing was done; Disk; or Damaged, with page 0 and the first rule that the file breaks.
    pub fn start(alloc: Global, world: W, frames: usize) -> Result<Store<W>, (Fault, W)>
        requires least { most_copies ≤ frames }
        requires most { frames ≤ most_frames }
        ensures started { IfOk result (λ s. IsStarted W.World world s) }
        ensures fresh { IfOk result (λ s. IsFresh W.World world frames s) }
        ensures refused { IfErr result (λ e. StartRefuses W.World world e.0 e.1) }
        ensures kept { KeepsWorld W.World world (started_world result) }
    {
        let Parts {
            pool,
            batch,
            changes,
            body,
        } = match Parts::new(alloc, frames) {
            Ok(parts) => parts,
            Err(_) => return Err((Fault::Memory, world)),
        };
        match recover(world, pool, batch) {
            Ok(cache) => Ok(Store {
                cache,
                changes,
                body,
                is_begun: false,
                is_usable: true,
            }),
            Err((fault, world)) => Err((Fault::Store(fault), world)),
        }
    }

    /// The world below the store. What isn't finished is lost.
    pub fn into_world(self) -> W
        ensures { result ≡ self.stable.world }
    {
        let Store {
            cache,
            changes: _,
            body: _,
            is_begun: _,
            is_usable: _,
        } = self;
        cache.into_world()
    }

    /// Writes all pages in place and empties the log. No mini-transaction is begun.
    pub fn checkpoint(&mut self) -> Result<(), StoreFault>
        requires usable { self.old.is_usable ≡ true }
        requires none { (mini W.World self.old).is_begun ≡ false }
        ensures flushed { FlushesWhole W.World self.old self.new result }
        ensures sound { IfErr result IsNoDamage }
        ensures contents { W.tells
            → OnOk result (contents W.World self.new ≡ contents W.World self.old) }
        ensures mini { OnOk result (mini W.World self.new ≡ mini W.World self.old) }
        ensures in_place { OnOk result (IsAllInPlace W.World self.new) }
        ensures held { OnOk result (HoldsSame self.old self.new) }
    {
        match checkpoint_pages(&mut self.cache) {
            Ok(()) => Ok(()),
            Err(_) => {
                self.is_usable = false;
                Err(StoreFault::Disk)
            }
        }
    }
}

impl<W: World> Store<W> {
    /// Begins a mini-transaction: the body of `Pages::begin`, which calls no disk.
    pub fn begin_changes(&mut self)
        requires usable { self.old.is_usable ≡ true }
        requires none { (mini W.World self.old).is_begun ≡ false }
        ensures kept { Continued (store W.World) self.old self.new }
        ensures contents { W.tells → contents W.World self.new ≡ contents W.World self.old }
        ensures mini { mini W.World self.new ≡ just_begun }
        ensures still { IsStill self.old self.new }
    {
        self.is_begun = true;
        self.changes.clear();
    }

    /// Fills `into` with the page: the body of `Pages::read`. A page that is held costs no call of the disk; any other is brought
    /// in, and no page is torn by what has to go for it.
    pub fn read_page(&mut self, p: PageNo, into: &mut Page) -> Result<(), StoreFault>
        requires usable { self.old.is_usable ≡ true }
        requires page { p.0 < (shape W.World self.old).pages }
        ensures kept { ContinuesWhole W.World self.old self.new result }
        ensures sound { IfErr result IsNoDamage }
        ensures page { W.tells
            → OnOk result (into.new.bytes ≡ page_of (contents W.World self.old) p.0) }
        ensures contents { W.tells
            → OnOk result (contents W.World self.new ≡ contents W.World self.old) }
        ensures mini { OnOk result (mini W.World self.new ≡ mini W.World self.old) }
        ensures held { BringsInPage p self.old self.new result }
    {
        match read_page(&mut self.cache, p, into) {
            Ok(()) => Ok(()),
            Err(_) => {
                self.is_usable = false;
                Err(StoreFault::Disk)
            }
        }
    }

    /// Puts bytes into a page: the body of `Pages::change`. The page is brought in as by `read_page`, and what is changed of it
    /// is what the next finish logs. Only a mini-transaction's first change may call the disk where the page is held.
    pub fn change_page(&mut self, p: PageNo, at: u16, bytes: &[u8]) -> Result<(), StoreFault>
        requires usable { self.old.is_usable ≡ true }
        requires page { p.0 < (shape W.World self.old).pages }
        requires some { 1 ≤ length bytes.now }
        requires inside { at + length bytes.now ≤ page_bytes }
        requires begun { (mini W.World self.old).is_begun ≡ true }
        requires room { HasRoom p.0 (mini W.World self.old) }
        ensures kept { ContinuesWhole W.World self.old self.new result }
        ensures sound { IfErr result IsNoDamage }
        ensures contents { W.tells → OnOk result (contents W.World self.new
            ≡ put (contents W.World self.old) (p.0 * page_bytes + at) bytes.now) }
        ensures mini { OnOk result (mini W.World self.new
            ≡ with_change p.0 (mini W.World self.old)) }
        ensures noted { OnOk result (self.new.open_ranges
            ≡ with_extent p at (at + length bytes.now) self.old.open_ranges) }
        ensures held { ChangesHeld p self.old self.new result }
    {
        match change_page(&mut self.cache, &mut self.changes, p, at, bytes) {
            Ok(()) => Ok(()),
            Err(_) => {
                self.is_usable = false;
                Err(StoreFault::Disk)
            }
        }
    }

    /// Finishes the mini-transaction: the body of `Pages::finish`. One batch with what it changed is appended to the log, and
    /// nothing else is written; where it changed nothing the disk isn't called.
    pub fn finish_changes(&mut self) -> Result<(), StoreFault>
        requires usable { self.old.is_usable ≡ true }
        requires begun { (mini W.World self.old).is_begun ≡ true }
        ensures made { MakesWhole W.World self.old self.new result }
        ensures sound { IfErr result IsNoDamage }
        ensures contents { W.tells
            → OnOk result (contents W.World self.new ≡ contents W.World self.old) }
        ensures ended { OnOk result (EndsChanges W.World self.old self.new) }
        ensures logged { LogsChanges W.World self.old self.new result }
        ensures held { HoldsSame self.old self.new }
    {
        if self.changes.is_empty() {
            self.is_begun = false;
            return Ok(());
        }
        match log_changes(&mut self.cache, &mut self.changes, &mut self.body) {
            Ok(()) => {
                self.is_begun = false;
                Ok(())
            }
            Err(_) => {
                self.is_usable = false;
                Err(StoreFault::Disk)
            }
        }
    }

    /// What a stop leaves now is the contents: the body of `Pages::flush`. The last finish made its batch durable already, so
    /// no disk is called.
    pub fn flush_changes(&mut self) -> Result<(), StoreFault>
        requires usable { self.old.is_usable ≡ true }
        requires none { (mini W.World self.old).is_begun ≡ false }
        ensures flushed { Flushes (store W.World) self.old self.new result }
        ensures sound { IfErr result IsNoDamage }
        ensures contents { W.tells
            → OnOk result (contents W.World self.new ≡ contents W.World self.old) }
        ensures mini { OnOk result (mini W.World self.new ≡ mini W.World self.old) }
        ensures image { W.tells → OnOk result (StandsNow W.World self.new) }
        ensures still { IsStill self.old self.new }
    {
        prove!(!self.is_begun);
        Ok(())
    }

    /// Writes up to 64 dirty pages in place, the least recently used first, and answers how many: the body of
    /// `Pages::clean_some`.
    pub fn clean_oldest(&mut self) -> Result<u32, StoreFault>
        requires usable { self.old.is_usable ≡ true }
        requires none { (mini W.World self.old).is_begun ≡ false }
        ensures kept { ContinuesWhole W.World self.old self.new result }
        ensures sound { IfErr result IsNoDamage }
        ensures contents { W.tells
            → OnOk result (contents W.World self.new ≡ contents W.World self.old) }
        ensures mini { OnOk result (mini W.World self.new ≡ mini W.World self.old) }
        ensures cleaned { IfOk result (CleansOldest self.old self.new) }
    {
        match clean_pages(&mut self.cache) {
            Ok(cleaned) => Ok(cleaned),
            Err(_) => {
                self.is_usable = false;
                Err(StoreFault::Disk)
            }
        }
    }

    /// Prints a line: the body of `Pages::print`. No page moves.
    pub fn print_line(&mut self, line: &[u8]) -> Result<(), StoreFault>
        requires usable { self.old.is_usable ≡ true }
        ensures printed { PrintsPiece (store W.World) line.now self.old self.new result }
        ensures contents { W.tells → contents W.World self.new ≡ contents W.World self.old }
        ensures mini { mini W.World self.new ≡ mini W.World self.old }
        ensures still { LeavesHeld self.old self.new }
        ensures whole { LeavesWhole W.World self.old self.new done }
    {
        match self.cache.print(line) {
            Ok(()) => {}
            Err(_) => return Err(StoreFault::Print),
        }
        Ok(())
    }
}

impl<W: World> Pages for Store<W> {
    ghost tells = { W.tells };

    ghost contents = { contents W.World };

    ghost printed = { printed W.World };

    ghost may_leave = { may_leave W.World };

    ghost clock = { clock W.World };

    ghost left_since = { left_since W.World };

    ghost shape = { λ s. shape W.World s };

    ghost mini = { λ s. mini W.World s };

    ghost dirty = { λ s. dirty W.World s };

    ghost disk_faults = { disk_faults W.World };

    ghost print_faults = { print_faults W.World };

    ghost usable = { λ s. s.is_usable };

    fn pages(&self) -> u32 {
        self.cache.stable().pages()
    }

    fn fanout(&self) -> u32 {
        self.cache.stable().fanout()
    }

    fn begin(&mut self) {
        self.begin_changes();
    }

    fn read(&mut self, p: PageNo, into: &mut Page) -> Result<(), StoreFault> {
        self.read_page(p, into)
    }

    fn change(&mut self, p: PageNo, at: u16, bytes: &[u8]) -> Result<(), StoreFault> {
        self.change_page(p, at, bytes)
    }

    fn finish(&mut self) -> Result<(), StoreFault> {
        self.finish_changes()
    }

    fn flush(&mut self) -> Result<(), StoreFault> {
        self.flush_changes()
    }

    fn clean_some(&mut self) -> Result<u32, StoreFault> {
        self.clean_oldest()
    }

    fn print(&mut self, line: &[u8]) -> Result<(), StoreFault> {
        self.print_line(line)
    }
}
