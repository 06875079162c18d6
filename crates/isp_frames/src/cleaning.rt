//! Dirty pages written in place.
ghost use Rattle.std.specs.Prelude.{◌≡◌, ◌+◌, ◌<◌, ◌≤◌, count_by, length, min, vec_capacity, IfOk, OnOk};
ghost use Rattle.isp_format.specs.Doublewrite.{most_copies};
ghost use Rattle.isp_frames.specs.Cached.{IsIdle, IsCheckpoint, KeepsCache, KeepsFile, LeavesNow, now};
ghost use Rattle.isp_frames.specs.Gathered.{IsTaken};
ghost use Rattle.isp_frames.specs.Held.{CleansSome, IsCleaned, IsNextDirty, NoneDirty, NonePinned};
ghost use Rattle.isp_pool.specs.Frames.{PoolState, is_dirty};

use crate::cache::{Cache, numbered_page};
use isp_disk::{Failed, World};
use isp_format::{MOST_COPIES, Page, PageNo};
use isp_pool::Pool;

impl<W: World> Cache<W> {
    /// Writes up to 64 dirty pages in place, the least recently used first. Answers how many; where none is dirty the disk
    /// isn't called. Behind a failed call frames may count as clean whose pages weren't written.
    pub fn clean_some(&mut self) -> Result<u32, Failed>
        requires { IsIdle W.World self.old }
        ensures kept { KeepsCache W.World self.old self.new result }
        ensures cleaned { IfOk result (CleansSome self.old.pool self.new.pool) }
        ensures untouched { count_by is_dirty self.old.pool.frames ≡ 0
            → self.new.stable ≡ self.old.stable }
    {
        gather(&mut self.pool, &mut self.batch);
        if self.batch.is_empty() {
            return Ok(0);
        }
        self.stable.write_pages(&self.batch)?;
        Ok(self.batch.len() as u32)
    }

    /// Writes all dirty pages in place, in batches of up to 64; where none is dirty the disk isn't called. A failed call leaves
    /// what one of `clean_some` does.
    pub fn clean_all(&mut self) -> Result<(), Failed>
        requires { IsIdle W.World self.old }
        ensures kept { KeepsCache W.World self.old self.new result }
        ensures cleaned { OnOk result (IsCleaned self.old.pool self.new.pool) }
        ensures clean { OnOk result (NoneDirty self.new.pool) }
        ensures untouched { count_by is_dirty self.old.pool.frames ≡ 0
            → self.new.stable ≡ self.old.stable }
    {
        'cleaning: while self.pool.dirty_count() > 0 {
            self.clean_some()?;
        }
        Ok(())
    }

    /// Writes all dirty pages in place and empties the log. Where the file stands for the contents now, it stands for them
    /// at each stop.
    pub fn checkpoint(&mut self) -> Result<(), Failed>
        requires { IsIdle W.World self.old }
        ensures file { KeepsFile W.World self.old self.new result }
        ensures checkpoint { OnOk result (IsCheckpoint W.World self.new) }
        ensures cleaned { OnOk result (IsCleaned self.old.pool self.new.pool) }
        ensures contents { W.tells → OnOk result (now W.World self.new ≡ now W.World self.old) }
        ensures stops { W.tells → LeavesNow W.World self.old self.new.stable.world }
    {
        self.clean_all()?;
        prove!(0 < self.pool.frames());
        self.stable.empty_log()?;
        Ok(())
    }
}

// Takes up to 64 dirty pages out of their frames into the batch, the least recently used first. They count as clean from
// here on.
fn gather(pool: &mut Pool, batch: &mut Vec<(PageNo, Page)>)
    requires unpinned { NonePinned pool.old }
    requires room { most_copies ≤ vec_capacity batch.old }
    ensures taken { IsTaken pool.old pool.new batch.new.items }
    ensures count { length batch.new.items ≡ min most_copies (count_by is_dirty pool.old.frames) }
    ensures room { vec_capacity batch.new ≡ vec_capacity batch.old }
{
    batch.clear();
    'taking: while batch.len() < MOST_COPIES {
        let Some(frame) = pool.last_dirty() else {
            return;
        };
        take(pool, frame, batch);
    }
}

// Takes one page more, the least recently used of those that are dirty.
fn take(pool: &mut Pool, frame: usize, batch: &mut Vec<(PageNo, Page)>)
    requires next { IsNextDirty frame pool.old }
    requires unpinned { NonePinned pool.old }
    requires room { length batch.old.items < vec_capacity batch.old }
    ensures taken { (old : PoolState) → IsTaken old pool.old batch.old.items
        → IsTaken old pool.new batch.new.items }
    ensures count { length batch.new.items ≡ length batch.old.items + 1 }
    ensures room { vec_capacity batch.new ≡ vec_capacity batch.old }
{
    prove!(frame < pool.frames());
    batch.push_reserved(numbered_page(pool, frame));
    pool.clean(frame);
}
