//! The calls that change a tree.
ghost use Rattle.std.specs.Prelude.{◌≡◌, ◌+◌, ◌<◌, ◌≤◌, [], ◌∷◌, ℕ, Some, true, false, is_none, length, IfErr, IfOk, IfSome, OnOk};
ghost use Rattle.isp_format.specs.Definition.{most_tables};
ghost use Rattle.isp_format.specs.Empty.{first_fresh};
ghost use Rattle.isp_format.specs.Header.{header_of};
ghost use Rattle.isp_format.specs.Ranges.{page_of};
ghost use Rattle.isp_format.specs.HeadValues.{header_in};
ghost use Rattle.isp_format.specs.Leaf.{most_slot};
ghost use Rattle.isp_format.specs.Rules.{space_number};
ghost use Rattle.isp_page.specs.Steps.{IsNoDamage};
ghost use Rattle.isp_space.specs.Spaces.{NamesSpace, Space, counter_limit, free_pages};
ghost use Rattle.isp_levels.specs.Walks.{NamesAny};
ghost use Rattle.isp_clustered.specs.Calls.{ChangesTree, Creates, CreatesTree, Edits, HasSpace, HasTree, MayPut, NamesTreeOrSpace, Puts};
ghost use Rattle.isp_space.specs.Changes.{ChangesPages, MayChange};
ghost use Rattle.isp_clustered.specs.Puts.{IsApart, most_put};
ghost use Rattle.isp_cells.specs.Rows.{marked_at, with_put, with_row, without};
ghost use Rattle.isp_clustered.specs.Trees.{Tree, has, has_marked, holds};
ghost use Rattle.isp_levels.specs.Dividing.{is_divided};
ghost use Rattle.isp_levels.specs.Levels.{TreeLeaf, pick_leaf};
ghost use Rattle.isp_cells.specs.LeafPages.{leaf_header};

use crate::reading::find_leaf;
use isp_cells::{drop_in, mark_in, put_in, rewrite_in};
use isp_format::{
    CONTENT_PLACE, Head, LEAF_KIND, Page, PageNo, STORED_HEAD, clustered_owner, set_head,
};
use isp_growing::put_divided;
use isp_levels::broken;
use isp_page::{Pages, StoreFault, replace};
use isp_space::{add_bytes, take_page};

// Exchanges a leaf's page for the edited one, if there is one.
fn exchange<P: Pages>(
    pages: &mut P,
    page: PageNo,
    old: &Page,
    edited: Option<Page>,
) -> Result<(), StoreFault>
    requires can { MayChange P.Pages 1 pages.old }
    requires page { page.0 < (P.shape pages.old).pages }
    ensures changes { ChangesPages P.Pages (page.0 ∷ []) (NamesAny (P.shape pages.old).pages) pages.old pages.new
        result }
    ensures put { P.tells → old.now.bytes ≡ page_of (P.contents pages.old) page.0
        → OnOk result (IfSome edited (λ new. page_of (P.contents pages.new) page.0 ≡ new.bytes)) }
    ensures only { OnOk result (is_none edited ≡ false) }
    ensures sound { is_none edited ≡ false → IfErr result IsNoDamage }
{
    match edited {
        Some(new) => {
            replace(pages, page, old, &new)?;
            Ok(())
        }
        None => Err(broken(page)),
    }
}

// Counts bytes that are put, and exchanges a leaf's page.
fn count_and_replace<P: Pages>(
    pages: &mut P,
    page: PageNo,
    old: &Page,
    new: &Page,
    bytes: u64,
) -> Result<(), StoreFault>
    requires can { MayChange P.Pages 2 pages.old }
    requires page { page.0 < (P.shape pages.old).pages }
    ensures changes { ChangesPages P.Pages (space_number ∷ page.0 ∷ [])
        NamesSpace pages.old pages.new result }
    ensures put { P.tells → first_fresh ≤ page.0
        → old.now.bytes ≡ page_of (P.contents pages.old) page.0
        → OnOk result (page_of (P.contents pages.new) page.0 ≡ new.now.bytes) }
    ensures space { P.tells → (s : Space) → HasSpace P.Pages pages.old s
        → IsApart page.0 s → OnOk result (HasSpace P.Pages pages.new
        (record s { bytes = s.bytes + bytes })) }
    ensures sound { P.tells → (s : Space) → HasSpace P.Pages pages.old s
        → s.bytes + bytes < counter_limit → IfErr result IsNoDamage }
{
    add_bytes(pages, bytes)?;
    replace(pages, page, old, new)?;
    Ok(())
}

// Puts a row that the leaf of its key has no room for, and counts its bytes.
fn grow_and_count<P: Pages>(
    pages: &mut P,
    root: PageNo,
    key: i64,
    row: &[u8],
) -> Result<(), StoreFault>
    requires can { MayChange P.Pages most_put pages.old }
    requires page { root.0 < (P.shape pages.old).pages }
    requires row { length row.now ≤ most_slot }
    ensures changes { ChangesTree P.Pages root.0 (NamesTreeOrSpace (P.shape pages.old).pages) most_put
        pages.old pages.new result }
    ensures put { P.tells → (table : ℕ) (tree : Tree) (s : Space) (leaf : TreeLeaf)
        → MayPut P.Pages pages.old table root.0 key (length row.now) tree s
        → pick_leaf key tree.leaves ≡ Some leaf → is_divided (with_put key row.now leaf.rows) ≡ true
        → OnOk result (Puts P.Pages pages.old pages.new table root.0 key row.now tree s) }
    ensures sound { P.tells → (table : ℕ) (tree : Tree) (s : Space) (leaf : TreeLeaf)
        → MayPut P.Pages pages.old table root.0 key (length row.now) tree s
        → pick_leaf key tree.leaves ≡ Some leaf → is_divided (with_put key row.now leaf.rows) ≡ true
        → IfErr result IsNoDamage }
{
    put_divided(pages, root, key, row)?;
    add_bytes(pages, (STORED_HEAD + row.len()) as u64)?;
    Ok(())
}

/// Puts a row, unmarked and in a slot of its length. Its key isn't there, or has a smaller slot, whose row goes. Where its leaf has
/// no room for it, the tree grows.
///
/// # Errors
///
/// Disk; Damaged, with a page that is read and rule 7, where that is no page of a tree, or as of `take_page` and `add_bytes` of
/// isp_space.
pub fn put<P: Pages>(pages: &mut P, root: PageNo, key: i64, row: &[u8]) -> Result<(), StoreFault>
    requires can { MayChange P.Pages most_put pages.old }
    requires page { root.0 < (P.shape pages.old).pages }
    requires row { length row.now ≤ most_slot }
    ensures changes { ChangesTree P.Pages root.0 (NamesTreeOrSpace (P.shape pages.old).pages) most_put
        pages.old pages.new result }
    ensures put { P.tells → (table : ℕ) (tree : Tree) (s : Space)
        → MayPut P.Pages pages.old table root.0 key (length row.now) tree s
        → OnOk result (Puts P.Pages pages.old pages.new table root.0 key row.now tree s) }
    ensures sound { P.tells → (table : ℕ) (tree : Tree) (s : Space)
        → MayPut P.Pages pages.old table root.0 key (length row.now) tree s → IfErr result IsNoDamage }
{
    let mut page = Page::zeros();
    let leaf = find_leaf(pages, root, key, &mut page)?;
    match put_in(&page, leaf.used, key, row) {
        Some(new) => {
            count_and_replace(
                pages,
                leaf.page,
                &page,
                &new,
                (STORED_HEAD + row.len()) as u64,
            )?;
            Ok(())
        }
        None => {
            grow_and_count(pages, root, key, row)?;
            Ok(())
        }
    }
}

/// Writes a row into the slot of its key, which keeps its size, with this mark. The key is there and its slot holds the row.
///
/// # Errors
///
/// Disk; or Damaged, with the page that is read and rule 7, where that is no page of a tree, has no row of that key, or has it in a
/// smaller slot.
pub fn rewrite<P: Pages>(
    pages: &mut P,
    root: PageNo,
    key: i64,
    row: &[u8],
    marked: bool,
) -> Result<(), StoreFault>
    requires can { MayChange P.Pages 1 pages.old }
    requires page { root.0 < (P.shape pages.old).pages }
    ensures changes { ChangesTree P.Pages root.0 (NamesAny (P.shape pages.old).pages) 1 pages.old pages.new result }
    ensures written { P.tells → (table : ℕ) (tree : Tree)
        → HasTree P.Pages pages.old table root.0 tree
        → OnOk result (Edits P.Pages pages.old pages.new table root.0 tree
        (with_row key row.now marked)) }
    ensures only { P.tells → (table : ℕ) (tree : Tree)
        → HasTree P.Pages pages.old table root.0 tree
        → OnOk result (holds key (length row.now) tree ≡ true) }
    ensures sound { P.tells → (table : ℕ) (tree : Tree)
        → HasTree P.Pages pages.old table root.0 tree
        → holds key (length row.now) tree ≡ true → IfErr result IsNoDamage }
{
    let mut page = Page::zeros();
    let leaf = find_leaf(pages, root, key, &mut page)?;
    let edited = rewrite_in(&page, leaf.used, key, row, marked);
    exchange(pages, leaf.page, &page, edited)?;
    Ok(())
}

/// Marks the row of a key, which is there. Its bytes and its slot stay.
///
/// # Errors
///
/// Disk; or Damaged, with the page that is read and rule 7, where that is no page of a tree or has no row of that key.
pub fn mark<P: Pages>(pages: &mut P, root: PageNo, key: i64) -> Result<(), StoreFault>
    requires can { MayChange P.Pages 1 pages.old }
    requires page { root.0 < (P.shape pages.old).pages }
    ensures changes { ChangesTree P.Pages root.0 (NamesAny (P.shape pages.old).pages) 1 pages.old pages.new result }
    ensures marked { P.tells → (table : ℕ) (tree : Tree)
        → HasTree P.Pages pages.old table root.0 tree
        → OnOk result (Edits P.Pages pages.old pages.new table root.0 tree (marked_at key)) }
    ensures only { P.tells → (table : ℕ) (tree : Tree)
        → HasTree P.Pages pages.old table root.0 tree
        → OnOk result (has key tree ≡ true) }
    ensures sound { P.tells → (table : ℕ) (tree : Tree)
        → HasTree P.Pages pages.old table root.0 tree
        → has key tree ≡ true → IfErr result IsNoDamage }
{
    let mut page = Page::zeros();
    let leaf = find_leaf(pages, root, key, &mut page)?;
    let edited = mark_in(&page, leaf.used, key);
    exchange(pages, leaf.page, &page, edited)?;
    Ok(())
}

/// Takes the row of a key out, which is there and marked.
///
/// # Errors
///
/// Disk; or Damaged, with the page that is read and rule 7, where that is no page of a tree or has no marked row of that key.
pub fn drop_marked<P: Pages>(pages: &mut P, root: PageNo, key: i64) -> Result<(), StoreFault>
    requires can { MayChange P.Pages 1 pages.old }
    requires page { root.0 < (P.shape pages.old).pages }
    ensures changes { ChangesTree P.Pages root.0 (NamesAny (P.shape pages.old).pages) 1 pages.old pages.new result }
    ensures dropped { P.tells → (table : ℕ) (tree : Tree)
        → HasTree P.Pages pages.old table root.0 tree
        → OnOk result (Edits P.Pages pages.old pages.new table root.0 tree (without key)) }
    ensures only { P.tells → (table : ℕ) (tree : Tree)
        → HasTree P.Pages pages.old table root.0 tree
        → OnOk result (has_marked key tree ≡ true) }
    ensures sound { P.tells → (table : ℕ) (tree : Tree)
        → HasTree P.Pages pages.old table root.0 tree
        → has_marked key tree ≡ true → IfErr result IsNoDamage }
{
    let mut page = Page::zeros();
    let leaf = find_leaf(pages, root, key, &mut page)?;
    let edited = drop_in(&page, leaf.used, key);
    exchange(pages, leaf.page, &page, edited)?;
    Ok(())
}

// The header of a leaf without rows.
fn leaf_head(p: PageNo, table: u32) -> Head
    requires { table ≤ most_tables }
    ensures { header_in result ≡ leaf_header table p.0 }
{
    Head {
        kind: LEAF_KIND,
        level: 0,
        count: 0,
        owner: clustered_owner(table),
        next: PageNo(0),
        prev: PageNo(0),
        ssn: 0,
        own: p,
        used: CONTENT_PLACE as u32,
    }
}

// Writes the header of a leaf without rows.
fn make_leaf<P: Pages>(pages: &mut P, p: PageNo, table: u32) -> Result<(), StoreFault>
    requires can { MayChange P.Pages 1 pages.old }
    requires page { p.0 < (P.shape pages.old).pages }
    requires table { table ≤ most_tables }
    ensures changes { ChangesPages P.Pages (p.0 ∷ []) IsNoDamage pages.old pages.new result }
    ensures header { P.tells → OnOk result (header_of (page_of (P.contents pages.new) p.0) ≡
        leaf_header table p.0) }
{
    let mut page = Page::zeros();
    pages.read(p, &mut page)?;
    let mut new = page;
    set_head(&mut new, &leaf_head(p, table));
    replace(pages, p, &page, &new)?;
    Ok(())
}

/// Makes the tree of a table, without rows, on a page that is taken for it.
///
/// # Errors
///
/// As of `take_page` of isp_space.
pub fn create<P: Pages>(pages: &mut P, table: u32) -> Result<PageNo, StoreFault>
    requires can { MayChange P.Pages 3 pages.old }
    requires table { table ≤ most_tables }
    ensures creates { CreatesTree P.Pages pages.old pages.new result }
    ensures made { P.tells → (s : Space) → HasSpace P.Pages pages.old s
        → 0 < free_pages (P.shape pages.old).pages s
        → IfOk result (λ p. Creates P.Pages pages.old pages.new table s p.0) }
    ensures sound { P.tells → (s : Space) → HasSpace P.Pages pages.old s
        → 0 < free_pages (P.shape pages.old).pages s → IfErr result IsNoDamage }
{
    let p = take_page(pages)?;
    make_leaf(pages, p, table)?;
    Ok(p)
}
