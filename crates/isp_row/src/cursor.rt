//! Fields of bytes, read one after another.
ghost use Rattle.std.specs.Prelude.{◌≡◌};
ghost use Rattle.isp_geom.specs.Reading.{Reads, count_at, is_empty};
ghost use Rattle.isp_row.specs.Reading.{Gives, front_at, number_at, piece_at};

use crate::error::RowError;
use byteorder::{BigEndian, ByteOrder};
use isp_base::Bytes;
use std::alloc::Global;
use std::marker::Model;

/// The bytes that are left to read.
#[derive(Drop)]
pub(crate) struct Cursor<'a> {
    bytes: &'a [u8],
}

impl<'a> Model for Cursor<'a> {
    ghost use Rattle.std.specs.Prelude.{List, ℕ};

    ghost Value = { List ℕ };

    ghost view = { λ c. c.bytes.now };
}

impl<'a> Cursor<'a> {
    /// All of these bytes are left to read.
    pub fn new(bytes: &'a [u8]) -> Cursor<'a>
        ensures { result ≡ bytes.entry.now }
    {
        Cursor { bytes }
    }

    /// The next eight bytes as a number, the highest one first: None, and nothing read, where fewer are left.
    pub fn number(&mut self) -> Option<u64>
        ensures { Reads result (number_at self.old) self.new }
    {
        match self.bytes {
            [_, _, _, _, _, _, _, _, rest @ ..] => {
                let number = BigEndian::read_u64(self.bytes);
                self.bytes = rest;
                Some(number)
            }
            _ => None,
        }
    }

    // The next two bytes as a number, the high one first: None, and nothing read, where fewer are left.
    fn count(&mut self) -> Option<u16>
        ensures { Reads result (count_at self.old) self.new }
    {
        match self.bytes {
            [_, _, rest @ ..] => {
                let count = BigEndian::read_u16(self.bytes);
                self.bytes = rest;
                Some(count)
            }
            _ => None,
        }
    }

    // A copy of so many of the next bytes.
    fn front(&mut self, alloc: Global, size: usize) -> Result<Bytes, RowError>
        ensures { Gives result (front_at size self.old) self.new }
    {
        if size > self.bytes.len() {
            return Err(RowError::NotRow);
        }
        let front = Bytes::from_slice(alloc, &self.bytes[..size])?;
        self.bytes = &self.bytes[size..];
        Ok(front)
    }

    /// A copy of the next bytes that stand behind their length in two.
    pub fn piece(&mut self, alloc: Global) -> Result<Bytes, RowError>
        ensures { Gives result (piece_at self.old) self.new }
    {
        match self.count() {
            Some(size) => self.front(alloc, usize::from(size)),
            None => Err(RowError::NotRow),
        }
    }

    /// Whether no byte is left.
    pub fn is_empty(&self) -> bool
        ensures { result ≡ is_empty self.now }
    {
        self.bytes.len() == 0
    }
}
