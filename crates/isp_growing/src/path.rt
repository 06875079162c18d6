//! The way down to the leaf of a key, with the page of each level.
ghost use Rattle.std.specs.Prelude.{◌≡◌, ◌<◌, ◌≤◌, ℕ, List, true, IfErr, IfOk};
ghost use Rattle.isp_format.specs.Header.{header_of};
ghost use Rattle.isp_format.specs.Ranges.{page_of};
ghost use Rattle.isp_levels.specs.Inners.{SaysRoot};
ghost use Rattle.isp_levels.specs.Levels.{InnerNode, IsTreeOf, TreeLeaf, most_levels};
ghost use Rattle.isp_levels.specs.Walks.{ReadsPage};
ghost use Rattle.isp_page.specs.Steps.{IsNoDamage};
ghost use Rattle.isp_growing.specs.Paths.{FindsPath, IsPathTo};

use isp_format::PageNo;
use isp_levels::{MOST_LEVELS, broken, child_for, height_of};
use isp_page::{Pages, StoreFault};

/// How many pages a path has at most.
pub(crate) const PATH: usize = 16;

/// The pages from the leaf of a key up to the root: the one on each level, so far up.
#[derive(Clone, Copy)]
pub struct Path {
    pub pages: [u32; PATH],
    /// How high the root stands.
    pub height: u8,
}

// How high the root of a tree stands, which is a level that a path has.
fn top_of<P: Pages>(pages: &mut P, root: PageNo) -> Result<u8, StoreFault>
    requires usable { P.usable pages.old ≡ true }
    requires page { root.0 < (P.shape pages.old).pages }
    ensures reads { ReadsPage P.Pages root.0 pages.old pages.new result }
    ensures height { P.tells → IfOk result (λ height.
        height ≡ (header_of (page_of (P.contents pages.old) root.0)).level) }
    ensures low { IfOk result (λ height. height ≤ most_levels) }
    ensures sound { P.tells → (height : ℕ)
        → SaysRoot root.0 height (header_of (page_of (P.contents pages.old) root.0))
        → IfErr result IsNoDamage }
{
    let height = height_of(pages, root)?;
    if height <= MOST_LEVELS {
        Ok(height)
    } else {
        Err(broken(root))
    }
}

/// The path to the leaf of a key.
pub(crate) fn path_for<P: Pages>(pages: &mut P, root: PageNo, key: i64) -> Result<Path, StoreFault>
    requires usable { P.usable pages.old ≡ true }
    requires page { root.0 < (P.shape pages.old).pages }
    ensures down { FindsPath P.Pages root.0 pages.old pages.new result }
    ensures path { P.tells → (table : ℕ) (levels : List (List InnerNode)) (leaves : List TreeLeaf)
        → IsTreeOf (P.shape pages.old).pages (P.contents pages.old) table root.0 levels leaves
        → IfOk result (λ path. IsPathTo key levels leaves path) }
    ensures sound { P.tells → (table : ℕ) (levels : List (List InnerNode)) (leaves : List TreeLeaf)
        → IsTreeOf (P.shape pages.old).pages (P.contents pages.old) table root.0 levels leaves
        → IfErr result IsNoDamage }
{
    let top = top_of(pages, root)?;
    let mut way = [root.0; PATH];
    let mut height = top;
    let mut at = root;
    'down: while height > 0 {
        way[height as usize] = at.0;
        at = child_for(pages, at, height, key)?;
        height -= 1;
    }
    way[0] = at.0;
    Ok(Path {
        pages: way,
        height: top,
    })
}
