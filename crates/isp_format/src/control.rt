//! The control block at the front of the file.
ghost use Rattle.std.specs.Prelude.{◌≡◌, ◌↔◌, ◌+◌, ◌≤◌, ◌&&◌, nat_le, IsTrue, IfSome};
ghost use Rattle.isp_disk.specs.Moments.{image_of};
ghost use Rattle.isp_format.specs.Control.{control_bytes, control_size};
ghost use Rattle.isp_format.specs.ControlValues.{FindsControl, IsMade, IsPossible};
ghost use Rattle.isp_format.specs.Numbers.{number_at};

use crate::sizes::{
    CONTROL_BYTES, FANOUT_PLACE, LEAST_FANOUT, LEAST_PAGES, MADE_GATE, MOST_FANOUT, MOST_PAGES,
    PAGES_PLACE,
};
use byteorder::{BigEndian, ByteOrder};

/// The name of the file and of its version, in the first bytes.
const NAME: [u8; 8] = *b"ISPFILE1";

/// The numbers of the control block.
#[derive(Clone, Copy)]
pub struct Control {
    /// How many pages the file has.
    pub pages: u32,
    /// How many entries a page of its R-trees has at most.
    pub fanout: u32,
}

/// The control block before its made-gate: the name, the numbers of the file, and zeros.
pub fn control_bytes(pages: u32, fanout: u32) -> [u8; MADE_GATE]
    ensures { result ≡ control_bytes pages fanout }
{
    let mut bytes = [0; MADE_GATE];
    bytes[..8].copy_from_slice(&NAME);
    bytes[8..12].copy_from_slice(&pages.to_be_bytes());
    bytes[12..16].copy_from_slice(&fanout.to_be_bytes());
    bytes
}

/// The numbers of a control block. None exactly where it breaks the first page rule: where it isn't one of this version,
/// or the file wasn't made whole.
pub fn control_in(block: &[u8; CONTROL_BYTES]) -> Option<Control>
    ensures found { FindsControl (image_of block.now) result }
    ensures possible { IfSome result IsPossible }
{
    let control = Control {
        pages: number(block, PAGES_PLACE),
        fanout: number(block, FANOUT_PLACE),
    };
    if is_made(block) && is_possible(control) {
        Some(control)
    } else {
        None
    }
}

// Whether the block has the file's name, and an open gate.
fn is_made(block: &[u8; CONTROL_BYTES]) -> bool
    ensures { IsTrue result ↔ IsMade (image_of block.now) }
{
    &block[..NAME.len()] == NAME.as_slice() && block[MADE_GATE] == 1
}

// Whether the numbers may stand in a control block.
fn is_possible(control: Control) -> bool
    ensures { IsTrue result ↔ IsPossible control }
{
    is_between(control.pages, LEAST_PAGES, MOST_PAGES)
        && is_between(control.fanout, LEAST_FANOUT, MOST_FANOUT)
}

// Whether the number is one of these two or between them.
fn is_between(number: u32, least: u32, most: u32) -> bool
    ensures { result ≡ (nat_le least number && nat_le number most) }
{
    least <= number && number <= most
}

// The number in the four bytes from a place on.
fn number(block: &[u8; CONTROL_BYTES], at: usize) -> u32
    requires { at + 4 ≤ control_size }
    ensures { result ≡ number_at 4 (image_of block.now) at }
{
    BigEndian::read_u32(&block[at..])
}
