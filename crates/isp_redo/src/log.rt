//! The log and where it ends.

ghost use Rattle.std.specs.Prelude.{◌≡◌, ◌+◌, ◌<◌, ◌≤◌, [], ◌∷◌, ℕ, List, length, nat_lt, IfOk, IfSome};
ghost use Rattle.std.specs.Option.{option_map};
ghost use Rattle.isp_disk.specs.Moments.{Quiet};
ghost use Rattle.isp_disk.specs.Phases.{OnlyReads};
ghost use Rattle.isp_format.specs.Control.{most_pages};
ghost use Rattle.isp_format.specs.Log.{IsBody, Transaction, batch_head, log_bytes, log_of};
ghost use Rattle.isp_redo.specs.Changes.{ChangesLog, HasLog, MovesEnd, TurnsLog, with_batch};
ghost use Rattle.isp_redo.specs.Reading.{FindsEnd};

use crate::scan::scan_end;
use crate::write::{lay_body, set_gate};
use isp_disk::{Failed, World};
use isp_format::{BATCH_HEAD, LOG_BYTES, LOG_PLACE};

// The greatest place at which the gate behind a batch may stand, less the bytes before the batch's body.
const MOST_BODY: u64 = LOG_BYTES - 1 - BATCH_HEAD;

/// The redo log of a file, seen as the place of the closed gate that ends it, in bytes from the log's beginning.
#[derive(Clone, Copy, Debug, PartialEq, Eq)]
pub struct Log {
    pub end: u64,
}

impl Log {
    /// The log of a file with so many pages. None exactly where it can't be read to its end: where a batch whose gate is open
    /// does not lie in the log together with the gate behind it, or its body is not one or more mini-transactions whose
    /// ranges lie in pages below `pages`. It reads piece by piece, and writes nothing.
    pub fn scan<W: World>(world: &mut W, pages: u32) -> Result<Option<Log>, Failed>
        requires quiet { Quiet (W.pending world.old) }
        requires few { pages ≤ most_pages }

        ensures found { W.tells
            → IfOk result (λ log.
            FindsEnd pages (log_of (W.image world.old)) (option_map (λ l. l.end) log)) }
        ensures inside { IfOk result (λ log. IfSome log (λ l. l.end < log_bytes)) }
        ensures reads { OnlyReads W.World world.old world.new result }
    {
        match scan_end(world, pages)? {
            Some(end) => Ok(Some(Log { end })),
            None => Ok(None),
        }
    }

    /// Whether a batch with a body of so many bytes, and the gate behind it, lie in the log.
    pub fn fits(&self, len: usize) -> bool
        ensures { result ≡ nat_lt (self.now.end + batch_head + len) log_bytes }
    {
        match MOST_BODY.checked_sub(self.end) {
            Some(room) => len as u64 <= room,
            None => false,
        }
    }

    /// Appends a batch with this body: one or more mini-transactions as the file spells them. It is in the log once its
    /// gate is on the disk, and not before its body is. At a failure the log has it or not.
    pub fn append<W: World>(&mut self, world: &mut W, body: &[u8]) -> Result<(), Failed>
        requires quiet { Quiet (W.pending world.old) }
        requires fits { self.old.end + batch_head + length body.now < log_bytes }

        ensures appended { W.tells
            → (pages : ℕ) (batches : List (List Transaction)) (batch : List Transaction)
            → HasLog pages (record { batches = batches; end = self.old.end }) (W.image world.old)
            → IsBody pages batch body.now
            → TurnsLog W.World pages (record { batches = batches; end = self.old.end })
            (with_batch batches batch self.old.end (length body.now)) world.old world.new result }
        ensures end { MovesEnd self.old.end (self.old.end + batch_head + length body.now)
            self.new.end result }
        ensures changes { ChangesLog W.World world.old world.new result }
    {
        let gate = LOG_PLACE + self.end;
        lay_body(world, gate, body)?;
        set_gate(world, gate, 1)?;
        self.end += BATCH_HEAD + body.len() as u64;
        Ok(())
    }

    /// Empties the log. All pages have to stand in their places before. Where it is empty nothing is done: a gate that is
    /// closed already is not written again, since a stop within that write might open it.
    pub fn reset<W: World>(&mut self, world: &mut W) -> Result<(), Failed>
        requires quiet { Quiet (W.pending world.old) }

        ensures untouched { self.old.end ≡ 0 → world.new ≡ world.old }
        ensures emptied { W.tells → (pages : ℕ) (batches : List (List Transaction))
            → HasLog pages (record { batches = batches; end = self.old.end }) (W.image world.old)
            → TurnsLog W.World pages (record { batches = batches; end = self.old.end })
            (record { batches = []; end = 0 }) world.old world.new result }
        ensures end { MovesEnd self.old.end 0 self.new.end result }
        ensures changes { ChangesLog W.World world.old world.new result }
    {
        if self.end == 0 {
            return Ok(());
        }
        set_gate(world, LOG_PLACE, 0)?;
        self.end = 0;
        Ok(())
    }
}
