//! Exchanging a page: the one call by which everything above `Pages` changes one.
ghost use Rattle.std.specs.Prelude.{◌≡◌, ◌≢◌, ◌-◌, ◌<◌, ◌≤◌, [], ◌∷◌, ℕ, Ok, true, length, slice_index, IfErr, IfSome, None, OnOk};
ghost use Rattle.isp_format.specs.Ranges.{page_bytes, page_of};
ghost use Rattle.isp_page.specs.Calls.{Continues};
ghost use Rattle.isp_page.specs.Differences.{IsLeast};
ghost use Rattle.isp_page.specs.State.{HasRoom};
ghost use Rattle.isp_page.specs.Steps.{IsNoDamage};
ghost use Rattle.isp_page.specs.Touched.{Grows, KeepsPages, is_page};

use crate::fault::StoreFault;
use crate::pages::Pages;
use isp_format::{PAGE_BYTES, Page, PageNo};

/// Makes the page these bytes, which stood as `old`: the least range that differs is changed, and nothing where none does.
pub fn replace<P: Pages>(pages: &mut P, p: PageNo, old: &Page, new: &Page) -> Result<(), StoreFault>
    requires usable { P.usable pages.old ≡ true }
    requires page { p.0 < (P.shape pages.old).pages }
    requires begun { (P.mini pages.old).is_begun ≡ true }
    requires room { HasRoom p.0 (P.mini pages.old) }
    ensures kept { Continues P.Pages pages.old pages.new result }
    ensures sound { IfErr result IsNoDamage }
    ensures page { P.tells → old.now.bytes ≡ page_of (P.contents pages.old) p.0
        → OnOk result (page_of (P.contents pages.new) p.0 ≡ new.now.bytes) }
    ensures others { P.tells → OnOk result (KeepsPages (is_page p.0)
        (P.contents pages.old) (P.contents pages.new)) }
    ensures grown { OnOk result (Grows (p.0 ∷ []) (P.mini pages.old) (P.mini pages.new)) }
    ensures nothing { old.now.bytes ≡ new.now.bytes → (result ≡ Ok tt) × (pages.new ≡ pages.old) }
{
    match differing(old, new) {
        Some((from, to)) => pages.change(p, from as u16, &new.bytes[from..to]),
        None => Ok(()),
    }
}

// The least range in which the pages differ.
fn differing(old: &Page, new: &Page) -> Option<(usize, usize)>
    ensures some { IfSome result (λ range. IsLeast old.now.bytes new.now.bytes range.0 range.1) }
    ensures none { result ≡ None → old.now.bytes ≡ new.now.bytes }
{
    let from = first_difference(old, new)?;
    Some((from, end_of_differences(old, new)))
}

// The first place where they differ.
fn first_difference(old: &Page, new: &Page) -> Option<usize>
    ensures below { IfSome result (λ from. from < page_bytes) }
    ensures front { IfSome result (λ from. (k : ℕ) → k < from
        → slice_index old.now.bytes k ≡ slice_index new.now.bytes k) }
    ensures differs { IfSome result (λ from.
        slice_index old.now.bytes from ≢ slice_index new.now.bytes from) }
    ensures none { result ≡ None → old.now.bytes ≡ new.now.bytes }
{
    for k in 0..PAGE_BYTES {
        if old.bytes[k] != new.bytes[k] {
            return Some(k);
        }
    }
    None
}

// The place behind the last one where they differ, or 0.
fn end_of_differences(old: &Page, new: &Page) -> usize
    ensures within { result ≤ page_bytes }
    ensures end { (k : ℕ) → result ≤ k → k < page_bytes
        → slice_index old.now.bytes k ≡ slice_index new.now.bytes k }
    ensures differs { 0 < result
        → slice_index old.now.bytes (result - 1) ≢ slice_index new.now.bytes (result - 1) }
{
    for k in (0..PAGE_BYTES).rev() {
        if old.bytes[k] != new.bytes[k] {
            return k + 1;
        }
    }
    0
}
