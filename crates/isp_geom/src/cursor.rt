//! Fields of bytes, read one after another.

ghost use Rattle.std.specs.Prelude.{◌≡◌};
ghost use Rattle.isp_geom.specs.Reading.{Reads, byte_at, coordinate_at, count_at, point_at, is_empty};

use crate::Point;
use byteorder::{BigEndian, ByteOrder};
use std::marker::Model;

/// The bytes that are left to read.
#[derive(Drop)]
pub struct Cursor<'a> {
    bytes: &'a [u8],
}

impl<'a> Model for Cursor<'a> {
    ghost use Rattle.std.specs.Prelude.{List, ℕ};

    ghost Value = { List ℕ };

    ghost view = { λ c. c.bytes.now };
}

impl<'a> Cursor<'a> {
    /// All of these bytes are left to read.
    pub fn new(bytes: &'a [u8]) -> Cursor<'a>
        ensures { result ≡ bytes.entry.now }
    {
        Cursor { bytes }
    }

    /// The next byte: None, and nothing read, where no byte is left.
    pub fn byte(&mut self) -> Option<u8>
        ensures { Reads result (byte_at self.old) self.new }
    {
        match self.bytes {
            [byte, rest @ ..] => {
                self.bytes = rest;
                Some(*byte)
            }
            [] => None,
        }
    }

    /// The next two bytes as a number, the high one first: None, and nothing read, where fewer are left.
    pub fn count(&mut self) -> Option<u16>
        ensures { Reads result (count_at self.old) self.new }
    {
        match self.bytes {
            [_, _, rest @ ..] => {
                let count = BigEndian::read_u16(self.bytes);
                self.bytes = rest;
                Some(count)
            }
            _ => None,
        }
    }

    // The next four bytes as a coordinate, in two's complement, the highest byte first: None, and nothing read, where
    // fewer are left.
    fn coordinate(&mut self) -> Option<i32>
        ensures { Reads result (coordinate_at self.old) self.new }
    {
        match self.bytes {
            [_, _, _, _, rest @ ..] => {
                let z = BigEndian::read_u32(self.bytes).cast_signed();
                self.bytes = rest;
                Some(z)
            }
            _ => None,
        }
    }

    /// The next eight bytes as the two coordinates of a point: None where fewer are left.
    #[tactic(auto, unfolding(crate::specs::Reading::point_at))]
    pub fn point(&mut self) -> Option<Point>
        ensures { Reads result (point_at self.old) self.new }
    {
        let x = self.coordinate()?;
        let y = self.coordinate()?;
        Some(Point { x, y })
    }

    /// Whether no byte is left.
    pub fn is_empty(&self) -> bool
        ensures { result ≡ is_empty self.now }
    {
        self.bytes.len() == 0
    }
}
