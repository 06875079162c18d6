//! The calls by which everything above reads and changes pages.
ghost use Rattle.std.specs.Prelude.{◌≡◌, ◌+◌, ◌*◌, ◌<◌, ◌≤◌, Bool, List, ℕ, true, false, length, min, IfErr, IfOk, OnOk};
ghost use Rattle.isp_disk.specs.Moments.{Image, put};
ghost use Rattle.isp_format.specs.Control.{IsFanout, IsPages};
ghost use Rattle.isp_format.specs.Doublewrite.{most_copies};
ghost use Rattle.isp_format.specs.Ranges.{Contents, page_bytes, page_of};
ghost use Rattle.isp_page.specs.State.{FileShape, HasRoom, MiniTransaction, just_begun, none_begun, with_change};
ghost use Rattle.isp_page.specs.Steps.{FailsOnPages, FlushesBy, IsNoDamage, MakesBy, StepsBy, PrintsBy, done};

use crate::fault::StoreFault;
use isp_format::{Page, PageNo};

/// How many pages a mini-transaction may change.
pub const MOST_CHANGED: usize = 48;

/// A store of pages. Changes are made in mini-transactions, of which one at a time is begun; a stop leaves the contents
/// after some of the finished ones, from the first on, all flushed ones among them. After a call that failed by the disk
/// it isn't used again.
pub trait Pages {
    /// That what is read, written and printed is said of its bytes: a fact of the type, and not of a value.
    ghost tells: { Type 0 };

    /// The contents of all pages now. They mean nothing where `tells` doesn't hold.
    ghost contents: { Self → Contents };

    /// The bytes that were printed. They mean nothing where `tells` doesn't hold.
    ghost printed: { Self → List ℕ };

    /// The contents that a stop now may leave.
    ghost may_leave: { Self → Contents → Type 0 };

    /// The time, as a number that doesn't fall.
    ghost clock: { Self → ℕ };

    /// What a stop since that time might have left, within a call or between two: an image of the disk, and what was printed
    /// by then.
    ghost left_since: { Self → ℕ → Image → List ℕ → Type 0 };

    /// How many pages the file has, and its fan-out.
    ghost shape: { Self → FileShape };

    /// The mini-transaction that is begun, if one is.
    ghost mini: { Self → MiniTransaction };

    /// How many pages differ from what stands in their places on the disk.
    ghost dirty: { Self → ℕ };

    /// How often a call of the disk has failed.
    ghost disk_faults: { Self → ℕ };

    /// How often a print has failed.
    ghost print_faults: { Self → ℕ };

    /// No call of the disk has failed, so that the store can be used.
    ghost usable: { Self → Bool };

    /// How many pages the file has.
    fn pages(&self) -> u32
        ensures count { result ≡ (shape self.now).pages }
        ensures within { IsPages result };

    /// How many entries a page of an R-tree has at most.
    fn fanout(&self) -> u32
        ensures most { result ≡ (shape self.now).fanout }
        ensures within { IsFanout result };

    /// Begins a mini-transaction.
    fn begin(&mut self)
        requires usable { usable self.old ≡ true }
        requires none { (mini self.old).is_begun ≡ false }
        ensures kept { StepsBy tells shape printed may_leave clock left_since disk_faults print_faults
            usable FailsOnPages self.old self.new done }
        ensures contents { tells → contents self.new ≡ contents self.old }
        ensures mini { mini self.new ≡ just_begun }
        ensures dirty { dirty self.new ≡ dirty self.old };

    /// Fills `into` with the page.
    fn read(&mut self, p: PageNo, into: &mut Page) -> Result<(), StoreFault>
        requires usable { usable self.old ≡ true }
        requires page { p.0 < (shape self.old).pages }
        ensures kept { StepsBy tells shape printed may_leave clock left_since disk_faults print_faults
            usable FailsOnPages self.old self.new result }
        ensures sound { IfErr result IsNoDamage }
        ensures page { tells → OnOk result (into.new.bytes ≡ page_of (contents self.old) p.0) }
        ensures contents { tells → OnOk result (contents self.new ≡ contents self.old) }
        ensures mini { OnOk result (mini self.new ≡ mini self.old) };

    /// Puts bytes into a page from `at` on.
    fn change(&mut self, p: PageNo, at: u16, bytes: &[u8]) -> Result<(), StoreFault>
        requires usable { usable self.old ≡ true }
        requires page { p.0 < (shape self.old).pages }
        requires some { 1 ≤ length bytes.now }
        requires inside { at + length bytes.now ≤ page_bytes }
        requires begun { (mini self.old).is_begun ≡ true }
        requires room { HasRoom p.0 (mini self.old) }
        ensures kept { StepsBy tells shape printed may_leave clock left_since disk_faults print_faults
            usable FailsOnPages self.old self.new result }
        ensures sound { IfErr result IsNoDamage }
        ensures contents { tells → OnOk result (contents self.new
            ≡ put (contents self.old) (p.0 * page_bytes + at) bytes.now) }
        ensures mini { OnOk result (mini self.new ≡ with_change p.0 (mini self.old)) };

    /// Ends the mini-transaction. From now on a stop may leave what it made.
    fn finish(&mut self) -> Result<(), StoreFault>
        requires usable { usable self.old ≡ true }
        requires begun { (mini self.old).is_begun ≡ true }
        ensures made { MakesBy tells shape printed may_leave clock left_since disk_faults print_faults
            usable FailsOnPages (λ left. left ≡ contents self.old) self.old self.new result }
        ensures sound { IfErr result IsNoDamage }
        ensures contents { tells → OnOk result (contents self.new ≡ contents self.old) }
        ensures mini { OnOk result (mini self.new ≡ none_begun) }
        ensures dirty { OnOk result (dirty self.new ≡ dirty self.old) };

    /// Makes all finished mini-transactions durable: after it a stop leaves the present contents alone.
    fn flush(&mut self) -> Result<(), StoreFault>
        requires usable { usable self.old ≡ true }
        requires none { (mini self.old).is_begun ≡ false }
        ensures flushed { FlushesBy tells shape printed may_leave clock left_since disk_faults
            print_faults usable FailsOnPages (contents self.new) self.old self.new result }
        ensures sound { IfErr result IsNoDamage }
        ensures contents { tells → OnOk result (contents self.new ≡ contents self.old) }
        ensures mini { OnOk result (mini self.new ≡ mini self.old) }
        ensures dirty { OnOk result (dirty self.new ≡ dirty self.old) };

    /// Writes up to 64 dirty pages in place, the least recently used first, after their redo. Answers how many.
    fn clean_some(&mut self) -> Result<u32, StoreFault>
        requires usable { usable self.old ≡ true }
        requires none { (mini self.old).is_begun ≡ false }
        ensures kept { StepsBy tells shape printed may_leave clock left_since disk_faults print_faults
            usable FailsOnPages self.old self.new result }
        ensures sound { IfErr result IsNoDamage }
        ensures count { IfOk result (λ cleaned. cleaned ≡ min most_copies (dirty self.old)) }
        ensures dirty { IfOk result (λ cleaned. dirty self.new + cleaned ≡ dirty self.old) }
        ensures contents { tells → OnOk result (contents self.new ≡ contents self.old) }
        ensures mini { OnOk result (mini self.new ≡ mini self.old) };

    /// Prints the bytes. Where it fails, and at a stop within it, a part of them was printed, from the first byte on.
    fn print(&mut self, line: &[u8]) -> Result<(), StoreFault>
        requires usable { usable self.old ≡ true }
        ensures printed { PrintsBy tells shape printed may_leave clock left_since disk_faults print_faults
            usable line.now self.old self.new result }
        ensures contents { tells → contents self.new ≡ contents self.old }
        ensures mini { mini self.new ≡ mini self.old }
        ensures dirty { dirty self.new ≡ dirty self.old };
}
