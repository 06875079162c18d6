//! The frames over the file.
ghost use Rattle.std.specs.Prelude.{◌≡◌, ◌⊎◌, ◌+◌, ◌<◌, ◌≤◌, ◌++◌, [], ◌∷◌, true, false, count_by, length, vec_capacity, IfOk, List, OnOk, Some, ℕ};
ghost use Rattle.isp_disk.specs.Moments.{Quiet};
ghost use Rattle.isp_format.specs.Log.{IsBody, Transaction, log_of};
ghost use Rattle.isp_format.specs.Ranges.{Range, page_bytes, page_of, puts};
ghost use Rattle.isp_frames.specs.Cached.{ChangesPage, IsSteady, KeepsCache, now, with_pool, with_stable};
ghost use Rattle.isp_frames.specs.Held.{BringsIn, CanTake, EditsPage, Holds, IsHeldAt, IsRoom, cleaned_at, numbered};
ghost use Rattle.isp_pool.specs.Frames.{frame_at, is_held, is_pinned, loaded, page_of as page_in};
ghost use Rattle.isp_redo.specs.Places.{IsAt, IsFurther, LiesInPage, TakesRange, place_of};
ghost use Rattle.isp_stable.specs.File.{HasRoomFor, IsFile, KeepsStable, MakesLog, PrintsBeside, ReadsStable, flushed, placed};

use isp_disk::{Failed, World};
use isp_format::{PAGE_BYTES, Page, PageNo};
use isp_pool::Pool;
use isp_redo::LogRange;
use isp_stable::Stable;

/// A file, the frames with some of its pages, and room for what is on its way between them.
pub struct Cache<W: World> {
    /// The file, with its log.
    pub(crate) stable: Stable<W>,
    /// The frames.
    pub(crate) pool: Pool,
    /// Room for the pages of a batch, with their numbers.
    pub(crate) batch: Vec<(PageNo, Page)>,
    /// Room for a page that is read.
    page: Page,
}

impl<W: World> Cache<W> {
    /// These frames over a file, with room for a batch.
    pub fn new(stable: Stable<W>, pool: Pool, batch: Vec<(PageNo, Page)>) -> Cache<W>
        ensures stable { result.stable ≡ stable }
        ensures pool { result.pool ≡ pool }
        ensures batch { result.batch ≡ batch }
    {
        let page = Page {
            bytes: [0; PAGE_BYTES],
        };
        Cache {
            stable,
            pool,
            batch,
            page,
        }
    }

    /// The world below the file. What the frames hold is lost.
    pub fn into_world(self) -> W
        ensures { result ≡ self.stable.world }
    {
        let Cache {
            stable,
            pool: _,
            batch: _,
            page: _,
        } = self;
        stable.into_world()
    }

    /// The file, to look at.
    pub fn stable(&self) -> &Stable<W>
        ensures { result.now ≡ self.now.stable }
    {
        &self.stable
    }

    /// The frames, to look at.
    pub fn pool(&self) -> &Pool
        ensures { result.now ≡ self.now.pool }
    {
        &self.pool
    }

    /// For how many pages a batch has room.
    pub fn batch_room(&self) -> usize
        ensures { result ≡ vec_capacity self.now.batch }
    {
        self.batch.capacity()
    }

    /// Fills `into` with the page as it is now, which counts as last used from here on. A page that is held costs no call of the
    /// disk. Any other is read into the frame that is next to go, whose page is written in place before if it is dirty. One
    /// frame at least is unpinned.
    pub fn read(&mut self, p: PageNo, into: &mut Page) -> Result<(), Failed>
        requires steady { IsSteady W.World self.old }
        requires page { p.0 < self.old.stable.pages }
        requires unpinned { count_by is_pinned self.old.pool.frames < length self.old.pool.frames }
        ensures kept { KeepsCache W.World self.old self.new result }
        ensures page { W.tells → OnOk result (into.new.bytes ≡ page_of (now W.World self.old) p.0) }
        ensures held { OnOk result (BringsIn p self.old.pool self.new.pool) }
        ensures untouched { (i : ℕ) → page_in (frame_at self.old.pool i) ≡ Some p
            → self.new.stable ≡ self.old.stable }
    {
        let frame = self.hold(p)?;
        prove!(frame < self.pool.frames());
        *into = *self.pool.page(frame);
        Ok(())
    }

    /// Puts bytes into the page from `at` on, which comes into a frame as by `read` and is dirty there. They are on the disk once
    /// the page is written in place, and not before.
    pub fn change(&mut self, p: PageNo, at: u16, bytes: &[u8]) -> Result<(), Failed>
        requires steady { IsSteady W.World self.old }
        requires page { p.0 < self.old.stable.pages }
        requires unpinned { count_by is_pinned self.old.pool.frames < length self.old.pool.frames }
        requires inside { at + length bytes.now ≤ page_bytes }
        ensures put { ChangesPage W.World p at bytes.now self.old self.new result }
        ensures untouched { (i : ℕ) → page_in (frame_at self.old.pool i) ≡ Some p
            → self.new.stable ≡ self.old.stable }
    {
        let frame = self.hold(p)?;
        prove!(frame < self.pool.frames());
        self.pool.change(frame, at, bytes);
        Ok(())
    }

    /// The page, which is held, has to stay in its frame from here on.
    pub fn pin(&mut self, p: PageNo)
        requires { Holds self.old.pool p }
        ensures pool { EditsPage p (λ f. record f { pinned = true }) self.old.pool self.new.pool }
        ensures others { self.new ≡ with_pool self.old self.new.pool }
    {
        let frame = self.frame_of(p);
        self.pool.pin(frame);
    }

    /// The page, which is held, may go from here on.
    pub fn unpin(&mut self, p: PageNo)
        requires { Holds self.old.pool p }
        ensures pool { EditsPage p (λ f. record f { pinned = false }) self.old.pool self.new.pool }
        ensures others { self.new ≡ with_pool self.old self.new.pool }
    {
        let frame = self.frame_of(p);
        self.pool.unpin(frame);
    }

    // The one frame of a page that is held.
    fn frame_of(&self, p: PageNo) -> usize
        requires { Holds self.now.pool p }
        ensures held { is_held (frame_at self.now.pool result) ≡ true }
        ensures only { (i : ℕ) → page_in (frame_at self.now.pool i) ≡ Some p → i ≡ result }
    {
        let Some(frame) = self.pool.find(p) else {
            unreachable!()
        };
        prove!(frame < self.pool.frames());
        frame
    }

    /// The range of the log at a place, as `Stable::read_range`. The frames are left alone.
    pub fn read_range(
        &mut self,
        from: u64,
        into: &mut [u8; PAGE_BYTES],
    ) -> Result<Option<LogRange>, Failed>
        requires quiet { Quiet (W.pending self.old.stable.world) }
        ensures found { W.tells → IsFile W.World self.old.stable → (ranges : List Range)
            → IsAt self.old.stable.pages (log_of (W.image self.old.stable.world)) (place_of from)
            ranges → IfOk result (λ found. TakesRange self.old.stable.pages
            (log_of (W.image self.old.stable.world)) ranges into.new found) }
        ensures in_page { IfOk result (λ found. LiesInPage found) }
        ensures onward { IfOk result (λ found. IsFurther from found) }
        ensures reads { ReadsStable W.World self.old.stable self.new.stable result }
        ensures others { self.new ≡ with_stable self.old self.new.stable }
    {
        self.stable.read_range(from, into)
    }

    /// Appends a batch with one mini-transaction to the log, as `Stable::append`. The frames are left alone.
    pub fn append(&mut self, body: &[u8]) -> Result<(), Failed>
        requires quiet { Quiet (W.pending self.old.stable.world) }
        requires fits { HasRoomFor self.old.stable (length body.now) }
        ensures appended { W.tells → (file : IsFile W.World self.old.stable) (ranges : Transaction)
            → IsBody self.old.stable.pages (ranges ∷ []) body.now
            → MakesLog W.World (file.batches ++ (ranges ∷ []) ∷ []) (λ contents.
            (contents ≡ flushed W.World self.old.stable file.batches)
            ⊎ (contents ≡ puts ranges (flushed W.World self.old.stable file.batches)))
            self.old.stable self.new.stable result }
        ensures placed { W.tells
            → placed W.World self.new.stable ≡ placed W.World self.old.stable }
        ensures kept { KeepsStable W.World self.old.stable self.new.stable result }
        ensures others { self.new ≡ with_stable self.old self.new.stable }
    {
        self.stable.append(body)
    }

    /// Prints these bytes beside the file. The frames are left alone.
    pub fn print(&mut self, line: &[u8]) -> Result<(), Failed>
        ensures printed { PrintsBeside W.World line.now self.old.stable self.new.stable result }
        ensures others { self.new ≡ with_stable self.old self.new.stable }
    {
        self.stable.print(line)
    }

    // The frame that holds the page, which counts as last used from here on. Where none does, the page is read into the frame
    // that is next to go.
    fn hold(&mut self, p: PageNo) -> Result<usize, Failed>
        requires steady { IsSteady W.World self.old }
        requires page { p.0 < self.old.stable.pages }
        requires unpinned { count_by is_pinned self.old.pool.frames < length self.old.pool.frames }
        ensures kept { KeepsCache W.World self.old self.new result }
        ensures held { IfOk result (λ frame. IsHeldAt p frame self.old.pool self.new.pool) }
        ensures untouched { (i : ℕ) → page_in (frame_at self.old.pool i) ≡ Some p
            → self.new.stable ≡ self.old.stable }
    {
        if let Some(frame) = self.pool.find(p) {
            self.pool.used(frame);
            return Ok(frame);
        }
        let frame = self.make_room()?;
        self.read_into(frame, p)?;
        Ok(frame)
    }

    // The frame that is next to go, clean: its page is written in place if it is dirty.
    fn make_room(&mut self) -> Result<usize, Failed>
        requires steady { IsSteady W.World self.old }
        requires unpinned { count_by is_pinned self.old.pool.frames < length self.old.pool.frames }
        ensures kept { KeepsCache W.World self.old self.new result }
        ensures frame { IfOk result (λ frame. IsRoom frame self.old.pool) }
        ensures pool { IfOk result (λ frame. self.new.pool ≡ cleaned_at self.old.pool frame) }
    {
        let Some(frame) = self.pool.victim() else {
            unreachable!()
        };
        if self.pool.is_dirty(frame) {
            self.write_one(frame)?;
        }
        Ok(frame)
    }

    // Writes the page in a frame in place, as a batch of one. It is clean then.
    fn write_one(&mut self, frame: usize) -> Result<(), Failed>
        requires steady { IsSteady W.World self.old }
        requires held { is_held (frame_at self.old.pool frame) ≡ true }
        requires unpinned { is_pinned (frame_at self.old.pool frame) ≡ false }
        ensures kept { KeepsCache W.World self.old self.new result }
        ensures pool { OnOk result (self.new.pool ≡ cleaned_at self.old.pool frame) }
    {
        prove!(frame < self.pool.frames());
        let one = [numbered_page(&self.pool, frame)];
        self.stable.write_pages(&one)?;
        self.pool.clean(frame);
        Ok(())
    }

    // Reads a page that no frame holds into a frame that is free, or clean and unpinned.
    fn read_into(&mut self, frame: usize, p: PageNo) -> Result<(), Failed>
        requires steady { IsSteady W.World self.old }
        requires page { p.0 < self.old.stable.pages }
        requires frame { CanTake frame p self.old.pool }
        ensures kept { KeepsCache W.World self.old self.new result }
        ensures pool { OnOk result (self.new.pool ≡ loaded self.old.pool frame p self.new.page) }
    {
        prove!(frame < self.pool.frames());
        self.stable.read_page(p, &mut self.page)?;
        self.pool.load(frame, p, &self.page);
        Ok(())
    }
}

// The page in a frame, with its number.
pub(crate) fn numbered_page(pool: &Pool, frame: usize) -> (PageNo, Page)
    requires held { is_held (frame_at pool.now frame) ≡ true }
    requires within { frame < length pool.now.frames }
    ensures { Some result ≡ numbered (frame_at pool.now frame) }
{
    let Some(number) = pool.holds(frame) else {
        unreachable!()
    };
    (number, *pool.page(frame))
}
