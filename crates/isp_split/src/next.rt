//! The entry that a group gets next.

ghost use Rattle.std.specs.Prelude.{◌≡◌, ◌<◌, ◌≤◌, ◌^◌, ◌+◌, length, IfSome, MatchOption, Some};
ghost use Rattle.isp_split.specs.Groups.{left_in};
ghost use Rattle.isp_split.specs.UnderWay.{IsMeasured};
ghost use Rattle.isp_split.specs.Next.{IsNext, difference, greater};

use crate::group::{Group, enlargement};
use crate::side::Side;
use isp_mbr::Box4;

/// Of the entries that are left the one for which the enlargements of the two groups differ most, and of those the first
/// (Guttman 1984; the tie is this project's own).
pub(crate) fn next(boxes: &[Box4], sides: &[Option<Side>], first: &Group, second: &Group) -> usize
    requires size { length sides.now ≡ length boxes.now }
    requires some { 0 < left_in sides.now }
    requires first { IsMeasured first.now }
    requires second { IsMeasured second.now }
    ensures { IsNext first.now.cover second.now.cover boxes.now sides.now result }
{
    let mut best = None;
    for (place, side) in sides.iter().enumerate() {
        if side.is_none() {
            let differing = difference(first, second, &boxes[place]);
            best = greater(best, place, differing);
        }
    }
    match best {
        Some((place, _)) => place,
        None => unreachable!(),
    }
}

// How much the two groups differ in how much `b` would enlarge them.
#[tactic(auto, unfolding(crate::specs::Next::difference))]
fn difference(first: &Group, second: &Group, b: &Box4) -> u128
    requires first { IsMeasured first.now }
    requires second { IsMeasured second.now }
    ensures { result ≡ difference first.now.cover second.now.cover b.now }
{
    enlargement(first, b).abs_diff(enlargement(second, b))
}

// The place with the greater number, and where they are equal the one that was best before.
fn greater(best: Option<(usize, u128)>, place: usize, number: u128) -> Option<(usize, u128)>
    ensures { result ≡ greater best place number }
{
    match best {
        Some((other, greatest)) if number <= greatest => Some((other, greatest)),
        _ => Some((place, number)),
    }
}
