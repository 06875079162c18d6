//! Whether a row's box meets a search, and whether a box round a subtree may hold such a row.

ghost use Rattle.std.specs.Prelude.{◌≡◌};
ghost use Rattle.isp_mbr.specs.Boxes.{same, same_span};
ghost use Rattle.isp_mbr.specs.Predicates.{satisfies, may_hold};

use crate::{Box4, Predicate, Test, covers, meets};

/// Whether a row's box `b` is one that the search asks for.
pub fn satisfies(p: &Predicate, b: &Box4) -> bool
    ensures { result ≡ satisfies p.now b.now }
{
    match p.test {
        Test::Covers => covers(b, &p.q),
        Test::Within => covers(&p.q, b),
        Test::Intersects => meets(b, &p.q),
        Test::Disjoint => !meets(b, &p.q),
        Test::Equals => is_same(b, &p.q),
    }
}

/// Whether a box that satisfies `p` may lie in `c`: where this is false, none does (Guttman 1984).
pub fn may_hold(p: &Predicate, c: &Box4) -> bool
    ensures { result ≡ may_hold p.now c.now }
{
    match p.test {
        Test::Covers | Test::Equals => covers(c, &p.q),
        Test::Within | Test::Intersects => meets(c, &p.q),
        Test::Disjoint => !covers(&p.q, c),
    }
}

// Whether two boxes have the same four numbers.
fn is_same(a: &Box4, b: &Box4) -> bool
    ensures { result ≡ same a.now b.now }
{
    is_same_span(a.x1, a.x2, b.x1, b.x2) && is_same_span(a.y1, a.y2, b.y1, b.y2)
}

fn is_same_span(low: i32, high: i32, first: i32, last: i32) -> bool
    ensures { result ≡ same_span low high first last }
{
    low == first && high == last
}
