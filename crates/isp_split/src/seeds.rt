//! The two entries that the groups of a division begin with.

ghost use Rattle.std.specs.Prelude.{◌≡◌, ◌<◌, ◌≤◌, ◌^◌, ◌+◌, length, nat_lt};
ghost use Rattle.isp_split.specs.Pairs.{IsPair, AreAreas};
ghost use Rattle.isp_split.specs.Seeds.{AreBestBefore, AreSeeds, apart, together};

use crate::areas::area_of;
use isp_mbr::{Box4, union};

/// Two entries by their places, with the area of their union and the sum of their own areas.
#[derive(Clone, Copy)]
pub(crate) struct Pair {
    pub first: usize,
    pub second: usize,
    pub together: u128,
    pub apart: u128,
}

/// The pair that wastes most area, and of those the first (Guttman 1984; the tie is this project's own).
pub(crate) fn seeds(boxes: &[Box4], areas: &[u128]) -> (usize, usize)
    requires areas { AreAreas boxes.now areas.now }
    requires two { 2 ≤ length boxes.now }
    ensures { AreSeeds boxes.now result.0 result.1 }
{
    let mut best = pair_of(boxes, areas, 0, 1);
    for i in 0..boxes.len() {
        best = best_of_row(boxes, areas, i, best);
    }
    (best.first, best.second)
}

// The best of the pairs up to those that begin with `i`.
fn best_of_row(boxes: &[Box4], areas: &[u128], i: usize, so_far: Pair) -> Pair
    requires areas { AreAreas boxes.now areas.now }
    requires i { i < length boxes.now }
    requires pair { IsPair boxes.now so_far }
    requires so_far { AreBestBefore boxes.now i 0 so_far.first so_far.second }
    ensures pair { IsPair boxes.now result }
    ensures best { AreBestBefore boxes.now (i + 1) 0 result.first result.second }
{
    let mut best = so_far;
    for j in i + 1..boxes.len() {
        let next = pair_of(boxes, areas, i, j);
        if wastes_more(&next, &best) {
            best = next;
        }
    }
    best
}

// The pair of these two.
#[tactic(auto, unfolding(crate::specs::Seeds::together, crate::specs::Seeds::apart))]
fn pair_of(boxes: &[Box4], areas: &[u128], i: usize, j: usize) -> Pair
    requires areas { AreAreas boxes.now areas.now }
    requires i { i < length boxes.now }
    requires j { j < length boxes.now }
    ensures pair { IsPair boxes.now result }
    ensures places { (result.first ≡ i) × (result.second ≡ j) }
{
    Pair {
        first: i,
        second: j,
        together: area_of(&union(&boxes[i], &boxes[j])),
        apart: areas[i] + areas[j],
    }
}

// Whether the pair wastes more than the other. The sums stay below 2^66.
fn wastes_more(pair: &Pair, other: &Pair) -> bool
    requires small { (pair.now.together < 2 ^ 64) × (pair.now.apart < 2 ^ 65) }
    requires other { (other.now.together < 2 ^ 64) × (other.now.apart < 2 ^ 65) }
    ensures { result ≡ nat_lt (other.now.together + pair.now.apart)
        (pair.now.together + other.now.apart) }
{
    other.together + pair.apart < pair.together + other.apart
}
