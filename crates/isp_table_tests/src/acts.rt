//! Calls on a tree as plain data.
ghost use Rattle.std.specs.Prelude.{◌≡◌, ◌<◌, true, IfOk, OnOk};
ghost use Rattle.isp_page.specs.State.{none_begun};
ghost use Rattle.isp_space.specs.Changes.{MayChange};
ghost use Rattle.isp_clustered.specs.Puts.{most_put};

use isp_clustered::{create, drop_marked, mark, put, rewrite};
use isp_format::PageNo;
use isp_page::{Pages, StoreFault};

/// A call on the row of a key. A row is so many bytes, each its length.
#[derive(Clone, Copy)]
pub(crate) enum Act {
    Put(i64, u16),
    Rewrite(i64, u16, bool),
    Mark(i64),
    Drop(i64),
}

/// What an act is answered with that names a row of too many bytes: no rule has this number.
const TOO_LONG: StoreFault = StoreFault::Damaged { page: 0, rule: 0 };

/// The byte of which a row of so many bytes is.
pub(crate) fn byte_of(len: u16) -> u8 {
    (len % 256) as u8
}

// Puts a row.
fn put_row<P: Pages>(pages: &mut P, root: PageNo, key: i64, len: u16) -> Result<(), StoreFault>
    requires can { MayChange P.Pages most_put pages.old }
    requires page { root.0 < (P.shape pages.old).pages }
    ensures usable { OnOk result (P.usable pages.new ≡ true) }
    ensures begun { OnOk result ((P.mini pages.new).is_begun ≡ true) }
    ensures shape { OnOk result (P.shape pages.new ≡ P.shape pages.old) }
{
    let bytes = [byte_of(len); 1_000];
    if len > 1_000 {
        return Err(TOO_LONG);
    }
    put(pages, root, key, &bytes[..len as usize])?;
    Ok(())
}

// Rewrites a row.
fn rewrite_row<P: Pages>(
    pages: &mut P,
    root: PageNo,
    key: i64,
    len: u16,
    marked: bool,
) -> Result<(), StoreFault>
    requires can { MayChange P.Pages most_put pages.old }
    requires page { root.0 < (P.shape pages.old).pages }
    ensures usable { OnOk result (P.usable pages.new ≡ true) }
    ensures begun { OnOk result ((P.mini pages.new).is_begun ≡ true) }
    ensures shape { OnOk result (P.shape pages.new ≡ P.shape pages.old) }
{
    let bytes = [byte_of(len); 1_000];
    if len > 1_000 {
        return Err(TOO_LONG);
    }
    rewrite(pages, root, key, &bytes[..len as usize], marked)?;
    Ok(())
}

// Does the act in the mini-transaction that is begun.
fn apply<P: Pages>(pages: &mut P, root: PageNo, act: Act) -> Result<(), StoreFault>
    requires can { MayChange P.Pages most_put pages.old }
    requires page { root.0 < (P.shape pages.old).pages }
    ensures usable { OnOk result (P.usable pages.new ≡ true) }
    ensures begun { OnOk result ((P.mini pages.new).is_begun ≡ true) }
    ensures shape { OnOk result (P.shape pages.new ≡ P.shape pages.old) }
{
    match act {
        Act::Put(key, len) => put_row(pages, root, key, len)?,
        Act::Rewrite(key, len, marked) => rewrite_row(pages, root, key, len, marked)?,
        Act::Mark(key) => mark(pages, root, key)?,
        Act::Drop(key) => drop_marked(pages, root, key)?,
    }
    Ok(())
}

/// Does the act in a mini-transaction of its own.
pub(crate) fn do_one<P: Pages>(pages: &mut P, root: PageNo, act: Act) -> Result<(), StoreFault>
    requires usable { P.usable pages.old ≡ true }
    requires none { P.mini pages.old ≡ none_begun }
    requires page { root.0 < (P.shape pages.old).pages }
    ensures usable { OnOk result (P.usable pages.new ≡ true) }
    ensures none { OnOk result (P.mini pages.new ≡ none_begun) }
    ensures shape { OnOk result (P.shape pages.new ≡ P.shape pages.old) }
{
    pages.begin();
    apply(pages, root, act)?;
    pages.finish()?;
    Ok(())
}

/// Makes the tree of table 1 in a mini-transaction of its own.
pub(crate) fn make<P: Pages>(pages: &mut P) -> Result<PageNo, StoreFault>
    requires usable { P.usable pages.old ≡ true }
    requires none { P.mini pages.old ≡ none_begun }
    ensures usable { OnOk result (P.usable pages.new ≡ true) }
    ensures none { OnOk result (P.mini pages.new ≡ none_begun) }
    ensures page { IfOk result (λ root. root.0 < (P.shape pages.new).pages) }
    ensures shape { OnOk result (P.shape pages.new ≡ P.shape pages.old) }
{
    pages.begin();
    let root = create(pages, 1)?;
    pages.finish()?;
    Ok(root)
}

/// Does these acts, each in a mini-transaction of its own.
pub(crate) fn do_all<P: Pages>(pages: &mut P, root: PageNo, acts: &[Act]) -> Result<(), StoreFault>
    requires usable { P.usable pages.old ≡ true }
    requires none { P.mini pages.old ≡ none_begun }
    requires page { root.0 < (P.shape pages.old).pages }
    ensures usable { OnOk result (P.usable pages.new ≡ true) }
    ensures shape { OnOk result (P.shape pages.new ≡ P.shape pages.old) }
{
    for act in acts {
        do_one(pages, root, *act)?;
    }
    Ok(())
}
