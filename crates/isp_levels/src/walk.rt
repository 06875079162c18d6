//! The way down to the leaf of a key.
ghost use Rattle.std.specs.Prelude.{◌≡◌, ◌<◌, ℕ, List, Some, true, IfErr, IfOk};
ghost use Rattle.isp_format.specs.Header.{header_of};
ghost use Rattle.isp_format.specs.Inner.{IsInnerPage, Name};
ghost use Rattle.isp_format.specs.Ranges.{page_of};
ghost use Rattle.isp_format.specs.Rules.{tree_rule};
ghost use Rattle.isp_page.specs.Steps.{IsNoDamage};
ghost use Rattle.isp_page.specs.declared.fault.StoreFault.TheVariants.{Damaged};
ghost use Rattle.isp_levels.specs.Inners.{SaysRoot, page_in_leaf, page_in_name};
ghost use Rattle.isp_levels.specs.Levels.{InnerNode, IsTreeOf, TreeLeaf, pick, pick_leaf};
ghost use Rattle.isp_levels.specs.Walks.{GoesDown, ReadsPage};

use crate::inner::{count_of, picked};
use isp_format::{INNER_KIND, LEAF_KIND, Page, PageNo, TREE_RULE, head};
use isp_page::{Pages, StoreFault};

/// How high a root stands at most.
pub const MOST_LEVELS: u8 = 15;

/// That a page isn't what a page of a clustered tree has to be.
pub fn broken(page: PageNo) -> StoreFault
    ensures { result ≡ Damaged page.0 tree_rule }
{
    StoreFault::Damaged {
        page: page.0,
        rule: TREE_RULE,
    }
}

/// The page below by which a key goes on.
pub fn child_for<P: Pages>(
    pages: &mut P,
    page: PageNo,
    level: u8,
    key: i64,
) -> Result<PageNo, StoreFault>
    requires usable { P.usable pages.old ≡ true }
    requires page { page.0 < (P.shape pages.old).pages }
    ensures reads { ReadsPage P.Pages page.0 pages.old pages.new result }
    ensures inside { IfOk result (λ child. child.0 < (P.shape pages.old).pages) }
    ensures child { P.tells → (table : ℕ) (names : List Name)
        → IsInnerPage (page_of (P.contents pages.old) page.0) table page.0 level names
        → IfOk result (λ child. page_in_name (pick key names) ≡ Some child.0) }
    ensures sound { P.tells → (table below : ℕ) (names : List Name)
        → IsInnerPage (page_of (P.contents pages.old) page.0) table page.0 level names
        → page_in_name (pick key names) ≡ Some below → below < (P.shape pages.old).pages
        → IfErr result IsNoDamage }
{
    let most = pages.pages();
    let mut p = Page::zeros();
    pages.read(page, &mut p)?;
    match count_of(&p, page.0, level) {
        Some(count) => match picked(&p, count, key) {
            Some(child) => {
                if child.0 < most {
                    Ok(child)
                } else {
                    Err(broken(page))
                }
            }
            None => Err(broken(page)),
        },
        None => Err(broken(page)),
    }
}

/// How high above the leaves the root of a tree stands.
pub fn height_of<P: Pages>(pages: &mut P, root: PageNo) -> Result<u8, StoreFault>
    requires usable { P.usable pages.old ≡ true }
    requires page { root.0 < (P.shape pages.old).pages }
    ensures reads { ReadsPage P.Pages root.0 pages.old pages.new result }
    ensures height { P.tells → IfOk result (λ height.
        height ≡ (header_of (page_of (P.contents pages.old) root.0)).level) }
    ensures sound { P.tells → (height : ℕ)
        → SaysRoot root.0 height (header_of (page_of (P.contents pages.old) root.0))
        → IfErr result IsNoDamage }
{
    let mut p = Page::zeros();
    pages.read(root, &mut p)?;
    let h = head(&p);
    if LEAF_KIND <= h.kind && h.kind <= INNER_KIND && h.own.0 == root.0 && h.level <= MOST_LEVELS {
        Ok(h.level)
    } else {
        Err(broken(root))
    }
}

/// The page of the leaf that a key goes to: the last one that begins at the key or before it.
pub fn leaf_for<P: Pages>(pages: &mut P, root: PageNo, key: i64) -> Result<PageNo, StoreFault>
    requires usable { P.usable pages.old ≡ true }
    requires page { root.0 < (P.shape pages.old).pages }
    ensures down { GoesDown P.Pages root.0 pages.old pages.new result }
    ensures leaf { P.tells → (table : ℕ) (levels : List (List InnerNode)) (leaves : List TreeLeaf)
        → IsTreeOf (P.shape pages.old).pages (P.contents pages.old) table root.0 levels leaves
        → IfOk result (λ page. page_in_leaf (pick_leaf key leaves) ≡ Some page.0) }
    ensures sound { P.tells → (table : ℕ) (levels : List (List InnerNode)) (leaves : List TreeLeaf)
        → IsTreeOf (P.shape pages.old).pages (P.contents pages.old) table root.0 levels leaves
        → IfErr result IsNoDamage }
{
    let mut height = height_of(pages, root)?;
    let mut at = root;
    'down: while height > 0 {
        at = child_for(pages, at, height, key)?;
        height -= 1;
    }
    Ok(at)
}
