//! A row is put into a leaf that has no room for it.
ghost use Rattle.std.specs.Prelude.{◌≡◌, ◌<◌, ◌≤◌, [], ℕ, List, length, IfErr, OnOk};
ghost use Rattle.isp_format.specs.Leaf.{most_slot};
ghost use Rattle.isp_halving.specs.Calls.{NamesTreeOrSpace};
ghost use Rattle.isp_levels.specs.Levels.{InnerNode, TreeLeaf};
ghost use Rattle.isp_page.specs.Calls.{Continues};
ghost use Rattle.isp_page.specs.Steps.{IsNoDamage};
ghost use Rattle.isp_space.specs.Changes.{ChangesBy, MayChange};
ghost use Rattle.isp_space.specs.Spaces.{Space};
ghost use Rattle.isp_growing.specs.Calls.{ChangesTree, GrowsTree, MayGrow};
ghost use Rattle.isp_growing.specs.Grown.{most_grown};

use crate::path::path_for;
use crate::rising::put_up;
use isp_format::PageNo;
use isp_halving::{divide_leaf, put_entry, raise};
use isp_page::{Pages, StoreFault};

// Puts a row into a lone leaf: it moves to a page that is taken, and is divided there.
fn divide_root<P: Pages>(
    pages: &mut P,
    root: PageNo,
    key: i64,
    row: &[u8],
) -> Result<(), StoreFault>
    requires can { MayChange P.Pages most_grown pages.old }
    requires page { root.0 < (P.shape pages.old).pages }
    requires row { length row.now ≤ most_slot }
    ensures kept { Continues P.Pages pages.old pages.new result }
    ensures changes { OnOk result (ChangesBy P.Pages most_grown pages.old pages.new) }
    ensures names { IfErr result (NamesTreeOrSpace (P.shape pages.old).pages) }
    ensures put { P.tells → (table : ℕ) (leaves : List TreeLeaf) (s : Space) (leaf : TreeLeaf)
        → MayGrow P.Pages pages.old table root.0 key row.now [] leaves s leaf
        → OnOk result (GrowsTree P.Pages pages.old pages.new table root.0 key row.now [] leaves s) }
    ensures sound { P.tells → (table : ℕ) (leaves : List TreeLeaf) (s : Space) (leaf : TreeLeaf)
        → MayGrow P.Pages pages.old table root.0 key row.now [] leaves s leaf → IfErr result IsNoDamage }
{
    let moved = raise(pages, root, 0)?;
    let above = divide_leaf(pages, moved, key, row)?;
    put_entry(pages, root, 1, above)?;
    Ok(())
}

/// Puts a row, unmarked and in a slot of its length, into the leaf of its key, which has no room for it: the leaf is divided, and
/// so are pages above it as far as they have no room for one more entry. A root that is divided keeps its page: what stood on it
/// moves to a page that is taken, and the root stands one level higher.
///
/// # Errors
///
/// Disk; Damaged, with a page that is read and rule 7, where that is no page of a tree or stands too high, or where the leaf isn't
/// divided by the row; or Damaged as of `take_page` of isp_space.
pub fn put_divided<P: Pages>(
    pages: &mut P,
    root: PageNo,
    key: i64,
    row: &[u8],
) -> Result<(), StoreFault>
    requires can { MayChange P.Pages most_grown pages.old }
    requires page { root.0 < (P.shape pages.old).pages }
    requires row { length row.now ≤ most_slot }
    ensures changes { ChangesTree P.Pages root.0 (NamesTreeOrSpace (P.shape pages.old).pages) most_grown
        pages.old pages.new result }
    ensures put { P.tells → (table : ℕ) (levels : List (List InnerNode)) (leaves : List TreeLeaf) (s : Space) (leaf : TreeLeaf)
        → MayGrow P.Pages pages.old table root.0 key row.now levels leaves s leaf
        → OnOk result (GrowsTree P.Pages pages.old pages.new table root.0 key row.now levels leaves s) }
    ensures sound { P.tells → (table : ℕ) (levels : List (List InnerNode)) (leaves : List TreeLeaf) (s : Space) (leaf : TreeLeaf)
        → MayGrow P.Pages pages.old table root.0 key row.now levels leaves s leaf → IfErr result IsNoDamage }
{
    let path = path_for(pages, root, key)?;
    if path.height == 0 {
        divide_root(pages, root, key, row)?;
        Ok(())
    } else {
        let leaf = PageNo(path.pages[0]);
        let above = divide_leaf(pages, leaf, key, row)?;
        put_up(pages, &path, 1, above)?;
        Ok(())
    }
}
