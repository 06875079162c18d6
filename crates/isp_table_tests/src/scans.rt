//! The leaves of a tree, one after another, compared with a list of rows.
ghost use Rattle.std.specs.Prelude.{◌≡◌, ◌<◌, true, IfOk, IfSome, OnOk};

use crate::seen::{Seen, has_rows};
use isp_clustered::next_leaf;
use isp_format::PageNo;
use isp_page::{Fault, Pages};
use std::alloc::Global;

/// A leaf of a scan: its page, how many rows it has, and whether no leaf stands to its right.
#[derive(Clone, Copy)]
pub(crate) struct ReadLeaf {
    pub page: PageNo,
    pub rows: usize,
    pub is_last: bool,
}

/// How many leaves a scan has, and the last of them.
#[derive(Clone, Copy, PartialEq, Eq)]
pub(crate) struct Scanned {
    pub leaves: u32,
    pub last: PageNo,
}

/// Reads the next leaf, or the first one, of which the rows are those from there on. None where they are others.
pub(crate) fn read_next<P: Pages>(
    alloc: Global,
    pages: &mut P,
    root: PageNo,
    after: Option<PageNo>,
    rows: &[Seen],
    from: usize,
) -> Result<Option<ReadLeaf>, Fault>
    requires usable { P.usable pages.old ≡ true }
    requires page { root.0 < (P.shape pages.old).pages }
    requires after { IfSome after (λ page. page.0 < (P.shape pages.old).pages) }
    ensures usable { OnOk result (P.usable pages.new ≡ true) }
    ensures shape { OnOk result (P.shape pages.new ≡ P.shape pages.old) }
    ensures inside { IfOk result (λ read. IfSome read (λ leaf. leaf.page.0 < (P.shape pages.old).pages)) }
{
    let leaf = next_leaf(alloc, pages, root, after)?;
    let to = from.saturating_add(leaf.rows.len());
    match rows.get(from..to) {
        Some(own) => {
            if has_rows(&leaf, own) {
                Ok(Some(ReadLeaf {
                    page: leaf.page,
                    rows: leaf.rows.len(),
                    is_last: leaf.next.is_none(),
                }))
            } else {
                Ok(None)
            }
        }
        None => Ok(None),
    }
}

/// Reads all leaves. None where their rows aren't these.
pub(crate) fn scan<P: Pages>(
    alloc: Global,
    pages: &mut P,
    root: PageNo,
    rows: &[Seen],
) -> Result<Option<Scanned>, Fault>
    requires usable { P.usable pages.old ≡ true }
    requires page { root.0 < (P.shape pages.old).pages }
    ensures usable { OnOk result (P.usable pages.new ≡ true) }
    ensures shape { OnOk result (P.shape pages.new ≡ P.shape pages.old) }
{
    let most = pages.pages();
    let mut after = None;
    let mut from = 0;
    for leaves in 1..most {
        let read = read_next(alloc, pages, root, after, rows, from)?;
        match read {
            Some(
                ReadLeaf {
                    page,
                    rows: count,
                    is_last,
                },
            ) => {
                from = from.saturating_add(count);
                if is_last {
                    let last = page;
                    return Ok((from == rows.len()).then_some(Scanned { leaves, last }));
                }
                after = Some(page);
            }
            None => return Ok(None),
        }
    }
    Ok(None)
}
