//! A division on its way up: the entry of the right part is put into the page above, which is divided for it where it has no room.
ghost use Rattle.std.specs.Prelude.{◌≡◌, ◌+◌, ◌<◌, ◌≤◌, [], ◌∷◌, ℕ, ℤ, suc, List, length, slice_index, IfErr, OnOk};
ghost use Rattle.isp_format.specs.Inner.{Name, most_names};
ghost use Rattle.isp_halving.specs.Calls.{NamesTreeOrSpace};
ghost use Rattle.isp_levels.specs.Levels.{InnerNode, TreeLeaf, most_levels};
ghost use Rattle.isp_page.specs.Calls.{Continues};
ghost use Rattle.isp_page.specs.Steps.{IsNoDamage};
ghost use Rattle.isp_space.specs.Spaces.{Space, free_pages};
ghost use Rattle.isp_growing.specs.Rising.{GoesUp, HasRisen, IsOnPath, MayGoUp, MayRise};

use crate::path::Path;
use isp_format::PageNo;
use isp_halving::{Entry, divide_inner, has_entry_room, put_entry, raise};
use isp_levels::{MOST_LEVELS, broken};
use isp_page::{Pages, StoreFault};

// Puts an entry into a full root so high above the leaves: what stands on its page moves to a page that is taken, and is divided
// there.
fn raise_up<P: Pages>(pages: &mut P, root: PageNo, level: u8, new: Entry) -> Result<(), StoreFault>
    requires can { MayGoUp P.Pages level pages.old }
    requires page { root.0 < (P.shape pages.old).pages }
    ensures kept { Continues P.Pages pages.old pages.new result }
    ensures changes { OnOk result (GoesUp P.Pages level pages.old pages.new) }
    ensures names { IfErr result (NamesTreeOrSpace (P.shape pages.old).pages) }
    ensures put { P.tells → (table : ℕ) (key : ℤ) (node : InnerNode) (below : List (List InnerNode)) (leaves : List TreeLeaf) (old : Name) (s : Space)
        → MayRise P.Pages pages.old table root.0 key ((node ∷ []) ∷ []) below leaves old new s
        → level ≡ suc (length below) → length node.names ≡ most_names → 1 < free_pages (P.shape pages.old).pages s
        → OnOk result (HasRisen P.Pages pages.old pages.new table root.0 ((node ∷ []) ∷ []) below leaves s) }
    ensures sound { P.tells → (table : ℕ) (key : ℤ) (node : InnerNode) (below : List (List InnerNode)) (leaves : List TreeLeaf) (old : Name) (s : Space)
        → MayRise P.Pages pages.old table root.0 key ((node ∷ []) ∷ []) below leaves old new s
        → level ≡ suc (length below) → length node.names ≡ most_names → 1 < free_pages (P.shape pages.old).pages s
        → IfErr result IsNoDamage }
{
    let _most = pages.pages();
    if level < MOST_LEVELS {
        let moved = raise(pages, root, level)?;
        let above = divide_inner(pages, moved, level, new)?;
        put_entry(pages, root, level + 1, above)?;
        Ok(())
    } else {
        Err(broken(root))
    }
}

/// Puts an entry into the page on that level of the path, and what is divided for it into those above.
pub(crate) fn put_up<P: Pages>(
    pages: &mut P,
    path: &Path,
    level: u8,
    new: Entry,
) -> Result<(), StoreFault>
    requires can { MayGoUp P.Pages level pages.old }
    requires inside { (k : ℕ) → slice_index path.now.pages k < (P.shape pages.old).pages }
    requires to { level ≤ path.now.height }
    requires low { path.now.height ≤ most_levels }
    ensures kept { Continues P.Pages pages.old pages.new result }
    ensures changes { OnOk result (GoesUp P.Pages level pages.old pages.new) }
    ensures names { IfErr result (NamesTreeOrSpace (P.shape pages.old).pages) }
    ensures put { P.tells → (table root : ℕ) (key : ℤ) (up below : List (List InnerNode)) (leaves : List TreeLeaf) (old : Name) (s : Space)
        → MayRise P.Pages pages.old table root key up below leaves old new s → IsOnPath key path.now level up below
        → length up < free_pages (P.shape pages.old).pages s
        → OnOk result (HasRisen P.Pages pages.old pages.new table root up below leaves s) }
    ensures sound { P.tells → (table root : ℕ) (key : ℤ) (up below : List (List InnerNode)) (leaves : List TreeLeaf) (old : Name) (s : Space)
        → MayRise P.Pages pages.old table root key up below leaves old new s → IsOnPath key path.now level up below
        → length up < free_pages (P.shape pages.old).pages s
        → IfErr result IsNoDamage }
{
    let page = PageNo(path.pages[level as usize]);
    let room = has_entry_room(pages, page, level)?;
    if room {
        put_entry(pages, page, level, new)?;
        Ok(())
    } else if level == path.height {
        raise_up(pages, page, level, new)?;
        Ok(())
    } else {
        let above = divide_inner(pages, page, level, new)?;
        put_up(pages, path, level + 1, above)?;
        Ok(())
    }
}
