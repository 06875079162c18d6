//! The root of a table's tree.
ghost use Rattle.std.specs.Prelude.{◌≡◌, ◌<◌, ◌≤◌, ℕ, pred, Some, IfSome, is_none, false, slice_get};
ghost use Rattle.isp_trx.specs.Roots.{AreWithin, numbers_of};

use isp_format::PageNo;

/// The root of the table of that number, from 1, if there is one.
pub(crate) fn root_of(roots: &[PageNo], table: u32) -> Option<PageNo>
    ensures within { (pages : ℕ) → AreWithin pages roots.now
        → IfSome result (λ root. root.0 < pages) }
    ensures root { IfSome result (λ root. slice_get (numbers_of roots.now) (pred table) ≡ Some
        root.0) }
    ensures none { (root : ℕ) → 1 ≤ table → slice_get (numbers_of roots.now) (pred table) ≡ Some
        root
        → is_none result ≡ false }
{
    if table == 0 {
        return None;
    }
    match roots.get(table as usize - 1) {
        Some(root) => Some(*root),
        None => None,
    }
}
