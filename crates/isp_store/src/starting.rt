//! A store made out of a file: its parts, and the log put into the pages.
ghost use Rattle.std.specs.Prelude.{◌≡◌, ◌≤◌, [], length, vec_capacity, IfErr, IfOk};
ghost use Rattle.isp_format.specs.Doublewrite.{most_copies};
ghost use Rattle.isp_frames.specs.Held.{AreFree};
ghost use Rattle.isp_opening.specs.Opening.{KeepsWorld, RefusesWith};
ghost use Rattle.isp_pool.specs.Frames.{most_frames};
ghost use Rattle.isp_store.specs.Recovered.{IsRecovered, recovered_world};

use isp_disk::World;
use isp_format::{MOST_COPIES, PAGE_BYTES, Page, PageNo};
use isp_frames::Cache;
use isp_mini::{Body, Changes};
use isp_opening::open;
use isp_page::StoreFault;
use isp_pool::Pool;
use isp_replay::replay;
use std::alloc::{AllocError, Global};

/// What a store needs besides its file: all the memory that it takes.
pub(crate) struct Parts {
    pub pool: Pool,
    pub batch: Vec<(PageNo, Page)>,
    pub changes: Changes,
    pub body: Body,
}

impl Parts {
    /// Takes the memory for so many frames, a batch and a mini-transaction.
    pub fn new(alloc: Global, frames: usize) -> Result<Parts, AllocError>
        requires least { most_copies ≤ frames }
        requires most { frames ≤ most_frames }
        ensures free { IfOk result (λ parts. AreFree parts.pool) }
        ensures count { IfOk result (λ parts. length parts.pool.frames ≡ frames) }
        ensures room { IfOk result (λ parts. most_copies ≤ vec_capacity parts.batch) }
        ensures none { IfOk result (λ parts. parts.changes ≡ []) }
    {
        let pool = Pool::new(alloc, frames)?;
        let batch = Vec::with_capacity(alloc, MOST_COPIES)?;
        let changes = Changes::new(alloc)?;
        let body = Body::new(alloc)?;
        Ok(Parts {
            pool,
            batch,
            changes,
            body,
        })
    }
}

/// Opens the file and puts its log into its pages. The world comes back with the fault.
pub(crate) fn recover<W: World>(
    world: W,
    pool: Pool,
    batch: Vec<(PageNo, Page)>,
) -> Result<Cache<W>, (StoreFault, W)>
    requires free { AreFree pool }
    requires many { most_copies ≤ length pool.frames }
    requires room { most_copies ≤ vec_capacity batch }
    ensures recovered { IfOk result (IsRecovered W.World world (length pool.frames)) }
    ensures refused { IfErr result (λ e. RefusesWith W.World world e.0 e.1) }
    ensures kept { KeepsWorld W.World world (recovered_world result) }
{
    let stable = open(world)?;
    let mut cache = Cache::new(stable, pool, batch);
    match replay(&mut cache) {
        Ok(()) => {
            prove!(0 < cache.pool().frames());
            Ok(cache)
        }
        Err(fault) => Err((fault, cache.into_world())),
    }
}
