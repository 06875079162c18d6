//! The subtree that a new entry goes to.

ghost use Rattle.std.specs.Prelude.{◌≡◌, ◌<◌, ◌≤◌, Some, false, is_none, length};
ghost use Rattle.isp_base.specs.Lists.{Has};
ghost use Rattle.isp_format.specs.Header.{header_of};
ghost use Rattle.isp_forest.specs.Choice.{IsChoice};
ghost use Rattle.isp_forest.specs.Tree.{child_in, child_of};
ghost use Rattle.isp_forest.specs.declared.entry.Entry.{Entry};
ghost use Rattle.isp_mbr.specs.Boxes.{area, enlargement};
ghost use Rattle.isp_rnode.specs.Candidates.{IsCandidate, better_of};
ghost use Rattle.isp_rnode.specs.Nodes.{IsReadable, node_of};

use crate::reading::{entry, entry_count};
use isp_forest::{Entry, To};
use isp_format::{Page, PageNo};
use isp_mbr::{Box4, area, enlargement};

/// A subtree, with how much its box would be enlarged, and the area of the box.
#[derive(Clone, Copy)]
pub(crate) struct Candidate {
    pub enlargement: u128,
    pub area: u128,
    pub child: PageNo,
}

/// The page that a new entry with the box `b` goes to: the child of the entry whose box is enlarged least, then of the one
/// with the least area, then of the first (Guttman 1984; the last tie is this project's own).
pub fn choose(entries: &[Entry], b: &Box4) -> PageNo
    requires some { 1 ≤ length entries.now }
    requires children { (e : Entry) → Has entries.now e → is_none (child_of e) ≡ false }
    ensures { IsChoice entries.now b.now result.0 }
{
    let mut best = candidate_of(&entries[0], b);
    for e in entries {
        best = better_of(best, candidate_of(e, b));
    }
    best.child
}

/// The same choice among the entries of a page, read where they stand.
pub fn choose_in(p: &Page, b: &Box4) -> PageNo
    requires readable { IsReadable p.now.bytes }
    requires inner { 0 < (header_of p.now.bytes).level }
    requires some { 1 ≤ length (node_of p.now.bytes).entries }
    ensures { IsChoice (node_of p.now.bytes).entries b.now result.0 }
{
    let mut best = candidate_of(&entry(p, 0), b);
    for i in 0..entry_count(p) {
        best = better_of(best, candidate_of(&entry(p, i), b));
    }
    best.child
}

// The subtree of an entry.
fn candidate_of(e: &Entry, b: &Box4) -> Candidate
    requires { is_none (child_of e.now) ≡ false }
    ensures { IsCandidate b.now e.now result }
{
    Candidate {
        enlargement: enlargement(&e.b, b),
        area: area(&e.b),
        child: child(e.to),
    }
}

// The page that an entry names.
fn child(to: To) -> PageNo
    requires { is_none (child_in to) ≡ false }
    ensures { child_in to ≡ Some result.0 }
{
    match to {
        To::Child(page) => page,
        To::Row { .. } => unreachable!(),
    }
}

// The better of two subtrees, and where neither is better the first.
fn better_of(best: Candidate, other: Candidate) -> Candidate
    ensures { result ≡ better_of best other }
{
    if other.enlargement < best.enlargement {
        other
    } else if other.enlargement == best.enlargement && other.area < best.area {
        other
    } else {
        best
    }
}
