//! What the words of `Pages` give to the crates above: runs of calls over any store, proved by the search alone.
ghost use Rattle.std.specs.Prelude.{◌≡◌, ◌+◌, ◌*◌, ◌<◌, ◌≤◌, ◌||◌, [], ◌∷◌, ℕ, true, false, length, IfErr, IfOk, OnOk};
ghost use Rattle.isp_disk.specs.Moments.{put};
ghost use Rattle.isp_format.specs.Header.{header_of};
ghost use Rattle.isp_format.specs.Ranges.{page_bytes, page_of};
ghost use Rattle.isp_page.specs.Calls.{Continues, ContinuesOrLacks, Makes};
ghost use Rattle.isp_page.specs.State.{most_changed};
ghost use Rattle.isp_page.specs.Steps.{IsNoDamage, IsNoDamageOrLacks, LeavesAlone};
ghost use Rattle.isp_page.specs.Touched.{Grows, KeepsPages, is_page};

use crate::fault::{Fault, StoreFault};
use crate::pages::Pages;
use crate::replacing::replace;
use isp_format::{Page, PageNo, head};
use std::alloc::Global;

/// Reads two pages.
pub(crate) fn read_two<P: Pages>(
    pages: &mut P,
    p: PageNo,
    q: PageNo,
    first: &mut Page,
    second: &mut Page,
) -> Result<(), StoreFault>
    requires usable { P.usable pages.old ≡ true }
    requires first { p.0 < (P.shape pages.old).pages }
    requires second { q.0 < (P.shape pages.old).pages }
    ensures kept { Continues P.Pages pages.old pages.new result }
    ensures sound { IfErr result IsNoDamage }
    ensures contents { P.tells → OnOk result (P.contents pages.new ≡ P.contents pages.old) }
    ensures mini { OnOk result (P.mini pages.new ≡ P.mini pages.old) }
{
    pages.read(p, first)?;
    pages.read(q, second)
}

/// Exchanges two pages.
pub(crate) fn replace_two<P: Pages>(
    pages: &mut P,
    p: PageNo,
    q: PageNo,
    old: &Page,
    new: &Page,
) -> Result<(), StoreFault>
    requires usable { P.usable pages.old ≡ true }
    requires first { p.0 < (P.shape pages.old).pages }
    requires second { q.0 < (P.shape pages.old).pages }
    requires begun { (P.mini pages.old).is_begun ≡ true }
    requires room { length (P.mini pages.old).changed + 2 ≤ most_changed }
    ensures kept { Continues P.Pages pages.old pages.new result }
    ensures sound { IfErr result IsNoDamage }
    ensures others { P.tells → OnOk result (KeepsPages (λ r. is_page p.0 r || is_page q.0 r)
        (P.contents pages.old) (P.contents pages.new)) }
    ensures grown { OnOk result (Grows (p.0 ∷ q.0 ∷ []) (P.mini pages.old) (P.mini pages.new)) }
{
    replace(pages, p, old, new)?;
    replace(pages, q, old, new)
}

/// Puts bytes into a page for good, and reads the page. A stop leaves the contents before or those after.
pub(crate) fn put_for_good<P: Pages>(
    pages: &mut P,
    p: PageNo,
    at: u16,
    bytes: &[u8],
    into: &mut Page,
) -> Result<(), StoreFault>
    requires usable { P.usable pages.old ≡ true }
    requires page { p.0 < (P.shape pages.old).pages }
    requires some { 1 ≤ length bytes.now }
    requires inside { at + length bytes.now ≤ page_bytes }
    requires none { (P.mini pages.old).is_begun ≡ false }
    ensures made { Makes P.Pages (put (P.contents pages.old) (p.0 * page_bytes + at) bytes.now)
        pages.old pages.new result }
    ensures sound { IfErr result IsNoDamage }
    ensures page { P.tells → OnOk result (into.new.bytes
        ≡ page_of (put (P.contents pages.old) (p.0 * page_bytes + at) bytes.now) p.0) }
    ensures alone { P.tells → OnOk result (LeavesAlone
        (put (P.contents pages.old) (p.0 * page_bytes + at) bytes.now) (P.may_leave pages.new)) }
{
    pages.begin();
    pages.change(p, at, bytes)?;
    pages.finish()?;
    pages.flush()?;
    pages.read(p, into)
}

/// The page behind this one in its chain. It is damaged where that is no page of the file.
pub(crate) fn next_of<P: Pages>(
    pages: &mut P,
    p: PageNo,
    into: &mut Page,
) -> Result<PageNo, StoreFault>
    requires usable { P.usable pages.old ≡ true }
    requires page { p.0 < (P.shape pages.old).pages }
    ensures kept { Continues P.Pages pages.old pages.new result }
    ensures sound { P.tells
        → (header_of (page_of (P.contents pages.old) p.0)).next < (P.shape pages.old).pages
        → IfErr result IsNoDamage }
    ensures next { P.tells
        → IfOk result (λ q. q.0 ≡ (header_of (page_of (P.contents pages.old) p.0)).next) }
    ensures below { IfOk result (λ q. q.0 < (P.shape pages.old).pages) }
    ensures contents { P.tells → OnOk result (P.contents pages.new ≡ P.contents pages.old) }
{
    pages.read(p, into)?;
    let next = head(into).next;
    if next.0 < pages.pages() {
        Ok(next)
    } else {
        Err(StoreFault::Damaged { page: p.0, rule: 5 })
    }
}

/// The page so many places behind this one in its chain.
pub(crate) fn far_behind<P: Pages>(
    pages: &mut P,
    p: PageNo,
    steps: u32,
    into: &mut Page,
) -> Result<PageNo, StoreFault>
    requires usable { P.usable pages.old ≡ true }
    requires page { p.0 < (P.shape pages.old).pages }
    ensures kept { Continues P.Pages pages.old pages.new result }
    ensures contents { P.tells → OnOk result (P.contents pages.new ≡ P.contents pages.old) }
    ensures below { IfOk result (λ q. q.0 < (P.shape pages.old).pages) }
{
    let mut at = p;
    for _step in 0..steps {
        at = next_of(pages, at, into)?;
    }
    Ok(at)
}

/// The kind of a page, on the heap.
pub(crate) fn kind_of<P: Pages>(
    alloc: Global,
    pages: &mut P,
    p: PageNo,
    into: &mut Page,
) -> Result<Vec<u8>, Fault>
    requires usable { P.usable pages.old ≡ true }
    requires page { p.0 < (P.shape pages.old).pages }
    ensures kept { ContinuesOrLacks P.Pages pages.old pages.new result }
    ensures sound { IfErr result IsNoDamageOrLacks }
{
    pages.read(p, into)?;
    let mut kind = Vec::new(alloc);
    kind.push(into.bytes[0])?;
    Ok(kind)
}
