//! A file of pages and its log, between two calls.
ghost use Rattle.std.specs.Prelude.{◌≡◌, ◌↔◌, ◌⊎◌, ◌+◌, ◌<◌, ◌++◌, [], ◌∷◌, All, List, IfOk, IsTrue, OnOk, length, map};
ghost use Rattle.isp_disk.specs.Moments.{Agree, Quiet, slice};
ghost use Rattle.isp_disk.specs.Phases.{OnlyReads};
ghost use Rattle.isp_doublewrite.specs.Batches.{FitsBatch, number_of, whole_page};
ghost use Rattle.isp_format.specs.Contents.{ranges_of};
ghost use Rattle.isp_format.specs.Log.{IsBody, Transaction, batch_head, log_of};
ghost use Rattle.isp_format.specs.Ranges.{Range, cover, page_bytes, page_of, puts};
ghost use Rattle.isp_redo.specs.Places.{IsAt, IsFurther, LiesInPage, TakesRange, place_of};
ghost use Rattle.isp_stable.specs.File.{HasRoomFor, HasWritten, IsFile, KeepsStable, LaysOnly, MakesLog, PrintsBeside, ReadsStable, StandsOnly, flushed, placed};

use isp_disk::{Failed, World};
use isp_doublewrite::write_batch;
use isp_format::{PAGE_BYTES, Page, PageNo, page_place};
use isp_redo::{Log, LogRange, read_range};

/// A file of pages with its redo log, between two calls: nothing is pending, and no copy counts.
pub struct Stable<W: World> {
    /// The disk that has the file, at its beginning.
    world: W,
    /// The place behind the last batch of the log.
    log: Log,
    /// How many pages the file has.
    pages: u32,
    /// How many entries a page of its R-trees has at most.
    fanout: u32,
}

impl<W: World> Stable<W> {
    /// The file of a world that has this log, so many pages, and this fan-out.
    pub fn new(world: W, log: Log, pages: u32, fanout: u32) -> Stable<W>
        ensures { result ≡ record { world = world; log = log; pages = pages; fanout = fanout } }
    {
        Stable {
            world,
            log,
            pages,
            fanout,
        }
    }

    /// The disk that has the file, and the printer beside it.
    pub fn into_world(self) -> W
        ensures { result ≡ self.world }
    {
        let Stable {
            world,
            log: _,
            pages: _,
            fanout: _,
        } = self;
        world
    }

    /// The disk, to look at.
    pub fn world(&self) -> &W
        ensures { result.now ≡ self.now.world }
    {
        &self.world
    }

    /// How many pages the file has.
    pub fn pages(&self) -> u32
        ensures { result ≡ self.now.pages }
    {
        self.pages
    }

    /// How many entries a page of its R-trees has at most.
    pub fn fanout(&self) -> u32
        ensures { result ≡ self.now.fanout }
    {
        self.fanout
    }

    /// Whether the log has room for a batch whose body has so many bytes.
    pub fn has_room(&self, len: usize) -> bool
        ensures { IsTrue result ↔ HasRoomFor self.now len }
    {
        self.log.fits(len)
    }

    /// Prints these bytes beside the file.
    pub fn print(&mut self, line: &[u8]) -> Result<(), Failed>
        ensures { PrintsBeside W.World line.now self.old self.new result }
    {
        self.world.print(line)
    }

    /// Fills `into` with the page as it stands in its place.
    pub fn read_page(&mut self, p: PageNo, into: &mut Page) -> Result<(), Failed>
        requires quiet { Quiet (W.pending self.old.world) }
        ensures page { W.tells
            → OnOk result (into.new.bytes ≡ page_of (placed W.World self.old) p.0) }
        ensures reads { ReadsStable W.World self.old self.new result }
    {
        fill(&mut self.world, page_place(p.0), &mut into.bytes)?;
        Ok(())
    }

    /// The range of the log at a place, with its bytes at the front of `into`; None at the end of the log. The place is 0
    /// for the first range, and else the `next` of the range before it.
    pub fn read_range(
        &mut self,
        from: u64,
        into: &mut [u8; PAGE_BYTES],
    ) -> Result<Option<LogRange>, Failed>
        requires quiet { Quiet (W.pending self.old.world) }
        ensures found { W.tells → IsFile W.World self.old → (ranges : List Range)
            → IsAt self.old.pages (log_of (W.image self.old.world)) (place_of from) ranges
            → IfOk result (λ found.
            TakesRange self.old.pages (log_of (W.image self.old.world)) ranges into.new found) }
        ensures in_page { IfOk result (λ found. LiesInPage found) }
        ensures onward { IfOk result (λ found. IsFurther from found) }
        ensures reads { ReadsStable W.World self.old self.new result }
    {
        read_range(&mut self.world, from, into)
    }

    /// Writes 1 to 64 pages in place. Where the log covers what they change, a stop at any moment leaves the same contents.
    pub fn write_pages(&mut self, batch: &[(PageNo, Page)]) -> Result<(), Failed>
        requires quiet { Quiet (W.pending self.old.world) }
        requires fits { FitsBatch (map number_of batch.now) }
        requires below { All (λ page. page < self.old.pages) (map number_of batch.now) }
        requires file { W.tells → IsFile W.World self.old }
        ensures written { W.tells → (file : IsFile W.World self.old)
            → OnOk result (HasWritten W.World (map whole_page batch.now) file.batches
            self.old self.new) }
        ensures stops { W.tells → (file : IsFile W.World self.old)
            → Agree (cover (ranges_of file.batches)) (placed W.World self.old)
            (puts (map whole_page batch.now) (placed W.World self.old))
            → StandsOnly W.World self.old self.new.world (λ contents.
            contents ≡ flushed W.World self.old file.batches) }
        ensures pages { W.tells → IsFile W.World self.old
            → LaysOnly W.World self.old.world self.new.world (λ contents.
            (contents ≡ placed W.World self.old)
            ⊎ (contents ≡ puts (map whole_page batch.now) (placed W.World self.old))) }
        ensures log { self.new.log ≡ self.old.log }
        ensures kept { KeepsStable W.World self.old self.new result }
    {
        write_batch(&mut self.world, batch)?;
        Ok(())
    }

    /// Appends a batch with one mini-transaction, whose bytes are the body. A stop within it leaves the contents without
    /// the ranges or with them; a stop after it leaves them with the ranges.
    pub fn append(&mut self, body: &[u8]) -> Result<(), Failed>
        requires quiet { Quiet (W.pending self.old.world) }
        requires fits { HasRoomFor self.old (length body.now) }
        ensures appended { W.tells → (file : IsFile W.World self.old) (ranges : Transaction)
            → IsBody self.old.pages (ranges ∷ []) body.now
            → MakesLog W.World (file.batches ++ (ranges ∷ []) ∷ []) (λ contents.
            (contents ≡ flushed W.World self.old file.batches)
            ⊎ (contents ≡ puts ranges (flushed W.World self.old file.batches)))
            self.old self.new result }
        ensures placed { W.tells → placed W.World self.new ≡ placed W.World self.old }
        ensures end { OnOk result (self.new.log.end ≡ self.old.log.end + batch_head + length body.now) }
        ensures kept { KeepsStable W.World self.old self.new result }
    {
        self.log.append(&mut self.world, body)?;
        Ok(())
    }

    /// Empties the log; an empty one is left alone, with no call of the disk. A stop within it leaves the contents with the
    /// log or those without it: the same where all that the log has stands in its pages' places.
    pub fn empty_log(&mut self) -> Result<(), Failed>
        requires quiet { Quiet (W.pending self.old.world) }
        ensures untouched { self.old.log.end ≡ 0 → self.new ≡ self.old }
        ensures emptied { W.tells → (file : IsFile W.World self.old)
            → MakesLog W.World [] (λ contents. (contents ≡ flushed W.World self.old file.batches)
            ⊎ (contents ≡ placed W.World self.old)) self.old self.new result }
        ensures placed { W.tells → placed W.World self.new ≡ placed W.World self.old }
        ensures end { OnOk result (self.new.log.end ≡ 0) }
        ensures kept { KeepsStable W.World self.old self.new result }
    {
        self.log.reset(&mut self.world)?;
        Ok(())
    }
}

// Fills a page's bytes with those from `at` on.
fn fill<W: World>(world: &mut W, at: u64, into: &mut [u8; PAGE_BYTES]) -> Result<(), Failed>
    requires { Quiet (W.pending world.old) }
    ensures bytes { W.tells → OnOk result (into.new ≡ slice (W.image world.old) at page_bytes) }
    ensures reads { OnlyReads W.World world.old world.new result }
{
    world.read(at, into)?;
    Ok(())
}
