//! Areas, with how large they are at most.

ghost use Rattle.std.specs.Prelude.{◌≡◌, ◌<◌, ◌^◌, IfOk};
ghost use Rattle.isp_mbr.specs.Boxes.{IsBox, area};
ghost use Rattle.isp_split.specs.Pairs.{AreAreas};

use isp_mbr::Box4;
use std::alloc::{AllocError, Global};

/// Width times height, in square units. It is below 2^64, since each side is below 2^32.
pub(crate) fn area_of(b: &Box4) -> u128
    ensures value { result ≡ area b.now }
    ensures small { result < 2 ^ 64 }
    ensures ordered { IsBox b.now }
{
    u128::from(b.x2.abs_diff(b.x1)) * u128::from(b.y2.abs_diff(b.y1))
}

/// The areas of the boxes, in their order. The error is want of memory.
pub(crate) fn areas_of(alloc: Global, boxes: &[Box4]) -> Result<Vec<u128>, AllocError>
    ensures { IfOk result (λ areas. AreAreas boxes.now areas.items) }
{
    let mut areas = Vec::with_capacity(alloc, boxes.len())?;
    for b in boxes {
        areas.push(area_of(b))?;
    }
    Ok(areas)
}
