//! Pages that are none of a tree.
ghost use Rattle.std.specs.Prelude.{◌≡◌, ◌<◌, true, OnOk};
ghost use Rattle.isp_page.specs.State.{none_begun};

use crate::making::{Leaf, Spot, write_all};
use isp_format::PageNo;
use isp_page::{Fault, MemPages, Pages, StoreFault};
use isp_rtree::visit;
use std::alloc::Global;

/// A root that breaks the rule of R-trees.
static ROOTS: [Leaf; 4] = [
    // It has another kind.
    Leaf {
        page: 16,
        kind: 9,
        level: 0,
        ssn: 0,
        next: 0,
        entries: &[],
    },
    // A child is no page of the file.
    Leaf {
        page: 16,
        kind: 6,
        level: 1,
        ssn: 0,
        next: 0,
        entries: &[Spot::Child([0, 0, 0, 0], 128)],
    },
    // It has another page's number.
    Leaf {
        page: 17,
        kind: 6,
        level: 0,
        ssn: 0,
        next: 0,
        entries: &[],
    },
    // It is too high.
    Leaf {
        page: 16,
        kind: 6,
        level: 17,
        ssn: 0,
        next: 0,
        entries: &[Spot::Child([0, 0, 0, 0], 17)],
    },
];

/// The fault that names it.
const NAMED: Fault = Fault::Store(StoreFault::Damaged { page: 16, rule: 9 });

// Whether a visit of the root names it.
fn is_named<P: Pages>(alloc: Global, pages: &mut P) -> bool
    requires usable { P.usable pages.old ≡ true }
    requires root { 16 < (P.shape pages.old).pages }
{
    match visit(alloc, pages, PageNo(16), PageNo(16)) {
        Ok(_seen) => false,
        Err(fault) => fault == NAMED,
    }
}

// Whether a tree with that root is refused.
fn is_refused(alloc: Global, root: &Leaf) -> Result<bool, Fault> {
    let mut pages = MemPages::new(alloc, 128, 4, 0)?;
    write_all(alloc, &mut pages, &[*root])?;
    let named = is_named(alloc, &mut pages);
    Ok(named)
}

#[test]
fn spoilt_roots_are_refused(rt: HostRuntime) {
    for root in ROOTS {
        assert!(rt; is_refused(rt.alloc(), &root) == Ok(true));
    }
}
