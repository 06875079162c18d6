//! The body of a batch with one mini-transaction.
ghost use Rattle.std.specs.Prelude.{◌≡◌, ◌+◌, ◌≤◌, ◌++◌, [], IfOk, length, vec_capacity};
ghost use Rattle.isp_format.specs.Log.{range_bytes, range_head};
ghost use Rattle.isp_format.specs.Numbers.{bytes_of};
ghost use Rattle.isp_format.specs.Ranges.{page_bytes};
ghost use Rattle.isp_mini.specs.Extents.{largest_body};

use isp_format::{
    COUNT_BYTES, PAGE_BYTES, PageNo, RANGE_HEAD, RangeHead, range_head_bytes, u16_bytes,
};
use isp_page::MOST_CHANGED;
use std::alloc::{AllocError, Global};
use std::marker::Model;

/// How many bytes the body of the largest mini-transaction has: 48 pages changed from their first byte to their last.
pub const LARGEST_BODY: usize = COUNT_BYTES as usize
    + MOST_CHANGED * (RANGE_HEAD as usize + PAGE_BYTES);

/// The bytes of a body, with room for the largest.
#[derive(Drop)]
pub struct Body {
    bytes: Vec<u8>,
}

impl Model for Body {
    ghost use Rattle.std.specs.Prelude.{◌≤◌, ℕ, List, vec_capacity};
    ghost use Rattle.isp_mini.specs.Extents.{largest_body};

    ghost Value = { List ℕ };

    ghost view = { λ b. b.bytes.items };

    ghost invariant = { λ b. largest_body ≤ vec_capacity b.bytes };
}

impl Body {
    /// An empty body. Only this takes memory.
    pub fn new(alloc: Global) -> Result<Body, AllocError>
        ensures { IfOk result (λ body. body ≡ []) }
    {
        let bytes = Vec::with_capacity(alloc, LARGEST_BODY)?;
        Ok(Body { bytes })
    }

    /// Begins a mini-transaction of so many ranges.
    pub fn begin(&mut self, count: u16)
        ensures { self.new ≡ bytes_of 2 count }
    {
        self.bytes.clear();
        append(&mut self.bytes, &u16_bytes(count));
    }

    /// Spells one more range: bytes of a page from `at` on.
    pub fn push(&mut self, page: PageNo, at: u16, bytes: &[u8])
        requires range { length bytes.now ≤ page_bytes }
        requires room { length self.old + range_head + length bytes.now ≤ largest_body }
        ensures { self.new ≡ self.old
            ++ range_bytes (record { page = page.0; at = at; bytes = bytes.now }) }
    {
        let head = RangeHead {
            page: page.0,
            at,
            len: bytes.len() as u16,
        };
        append(&mut self.bytes, &range_head_bytes(head));
        append(&mut self.bytes, bytes);
    }

    /// Its bytes.
    pub fn as_slice(&self) -> &[u8]
        ensures { result.now ≡ self.now }
    {
        self.bytes.as_slice()
    }

    /// How many bytes it has.
    pub fn len(&self) -> usize
        ensures { result ≡ length self.now }
    {
        self.bytes.len()
    }
}

// Puts a piece behind the bytes.
fn append(bytes: &mut Vec<u8>, piece: &[u8])
    requires { length bytes.old.items + length piece.now ≤ vec_capacity bytes.old }
    ensures appended { bytes.new.items ≡ bytes.old.items ++ piece.now }
    ensures capacity { vec_capacity bytes.old ≤ vec_capacity bytes.new }
{
    match bytes.extend_from_slice(piece) {
        Ok(()) => {}
        // There is room for it.
        Err(_) => unreachable!(),
    }
}
