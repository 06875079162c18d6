//! A group of a division, and which of the two takes an entry.

ghost use Rattle.std.specs.Prelude.{◌≡◌, ◌<◌, ◌+◌, ◌^◌, length};
ghost use Rattle.isp_mbr.specs.Boxes.{enlargement, union};
ghost use Rattle.isp_split.specs.UnderWay.{IsMeasured};
ghost use Rattle.isp_split.specs.Next.{lesser, side_for};
ghost use Rattle.isp_split.specs.Pairs.{AreAreas};
ghost use Rattle.isp_split.specs.Seeds.{box_at};

use crate::areas::area_of;
use crate::side::Side;
use isp_mbr::{Box4, union};

/// A group: the least box round its entries, the area of it, and how many entries there are.
#[derive(Clone, Copy)]
pub(crate) struct Group {
    pub cover: Box4,
    pub area: u128,
    pub count: usize,
}

/// The group of one of the boxes, whose area is known.
pub(crate) fn group_of(boxes: &[Box4], areas: &[u128], place: usize) -> Group
    requires areas { AreAreas boxes.now areas.now }
    requires inside { place < length boxes.now }
    ensures measured { IsMeasured result }
    ensures cover { result.cover ≡ box_at boxes.now place }
    ensures count { result.count ≡ 1 }
{
    Group {
        cover: boxes[place],
        area: areas[place],
        count: 1,
    }
}

/// The group with one entry more.
pub(crate) fn grown(group: &Group, b: &Box4) -> Group
    requires { group.now.count + 1 < 2 ^ 64 }
    ensures measured { IsMeasured result }
    ensures cover { result.cover ≡ union group.now.cover b.now }
    ensures count { result.count ≡ group.now.count + 1 }
{
    let cover = union(&group.cover, b);
    Group {
        cover,
        area: area_of(&cover),
        count: group.count + 1,
    }
}

/// By how much the group's area grows where it takes `b` (Guttman 1984).
pub(crate) fn enlargement(group: &Group, b: &Box4) -> u128
    requires { IsMeasured group.now }
    ensures value { result ≡ enlargement group.now.cover b.now }
    ensures small { result < 2 ^ 64 }
{
    area_of(&union(&group.cover, b)) - group.area
}

/// The group that takes `b`: the one that is less enlarged, then the smaller, then the one with fewer entries, then the
/// first (Guttman 1984; the last tie is this project's own).
#[tactic(auto, unfolding(crate::specs::Next::side_for))]
pub(crate) fn side_for(first: &Group, second: &Group, b: &Box4) -> Side
    requires first { IsMeasured first.now }
    requires second { IsMeasured second.now }
    ensures { result ≡ side_for first.now.cover second.now.cover
        first.now.count second.now.count b.now }
{
    let by_count = lesser(first.count as u128, second.count as u128, Side::First);
    let by_area = lesser(first.area, second.area, by_count);
    lesser(enlargement(first, b), enlargement(second, b), by_area)
}

// The group with the lesser number, or `tie`.
fn lesser(first: u128, second: u128, tie: Side) -> Side
    ensures { result ≡ lesser first second tie }
{
    if first < second {
        Side::First
    } else if second < first {
        Side::Second
    } else {
        tie
    }
}
