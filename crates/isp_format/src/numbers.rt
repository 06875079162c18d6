//! Numbers in a page, stored with their highest byte first.
ghost use Rattle.std.specs.Prelude.{◌≡◌, ◌+◌, ◌^◌, ◌<◌, ◌≤◌, [], ◌∷◌, ℕ, length};
ghost use Rattle.std.specs.Int.{cast_signed, w32, w64};
ghost use Rattle.isp_disk.specs.Moments.{image_of, put};
ghost use Rattle.isp_format.specs.Header.{number_in};
ghost use Rattle.isp_format.specs.Numbers.{bytes_of};
ghost use Rattle.isp_format.specs.Ranges.{page_bytes};

use crate::page::Page;
use byteorder::{BigEndian, ByteOrder};

/// The number in the two bytes of the page from `at` on.
pub fn get_u16(p: &Page, at: usize) -> u16
    requires { at + 2 ≤ page_bytes }
    ensures { result ≡ number_in 2 p.now.bytes at }
{
    BigEndian::read_u16(&p.bytes[at..])
}

/// The number in the four bytes of the page from `at` on.
pub fn get_u32(p: &Page, at: usize) -> u32
    requires { at + 4 ≤ page_bytes }
    ensures { result ≡ number_in 4 p.now.bytes at }
{
    BigEndian::read_u32(&p.bytes[at..])
}

/// The number in the eight bytes of the page from `at` on.
pub fn get_u64(p: &Page, at: usize) -> u64
    requires { at + 8 ≤ page_bytes }
    ensures { result ≡ number_in 8 p.now.bytes at }
{
    BigEndian::read_u64(&p.bytes[at..])
}

/// The signed number, as two's complement, in the four bytes of the page from `at` on.
pub fn get_i32(p: &Page, at: usize) -> i32
    requires { at + 4 ≤ page_bytes }
    ensures { result ≡ cast_signed w32 (number_in 4 p.now.bytes at) }
{
    get_u32(p, at).cast_signed()
}

/// The signed number, as two's complement, in the eight bytes of the page from `at` on.
pub fn get_i64(p: &Page, at: usize) -> i64
    requires { at + 8 ≤ page_bytes }
    ensures { result ≡ cast_signed w64 (number_in 8 p.now.bytes at) }
{
    get_u64(p, at).cast_signed()
}

/// Puts the bytes over those that stand in the page from `at` on. Every other byte stays.
pub fn put_bytes(p: &mut Page, at: usize, piece: &[u8])
    requires { at + length piece.now ≤ page_bytes }
    ensures put { (place : ℕ) → image_of p.new.bytes place
        ≡ put (image_of p.old.bytes) at piece.now place }
    ensures size { length p.new.bytes ≡ length p.old.bytes }
{
    p.bytes[at..at + piece.len()].copy_from_slice(piece);
}

/// Puts the first two bytes of a page, its kind and its level.
pub(crate) fn put_kind(p: &mut Page, kind: u8, level: u8)
    ensures put { (place : ℕ) → image_of p.new.bytes place
        ≡ put (image_of p.old.bytes) 0 (kind ∷ level ∷ []) place }
    ensures fits { (kind < 256) × (level < 256) }
    ensures size { length p.new.bytes ≡ length p.old.bytes }
{
    put_bytes(p, 0, &[kind, level]);
}

/// Puts a number into the two bytes of the page from `at` on, its highest byte first. Every other byte stays.
pub fn put_u16(p: &mut Page, at: usize, number: u16)
    requires { at + 2 ≤ page_bytes }
    ensures put { (place : ℕ) → image_of p.new.bytes place
        ≡ put (image_of p.old.bytes) at (bytes_of 2 number) place }
    ensures fits { number < 256 ^ 2 }
    ensures size { length p.new.bytes ≡ length p.old.bytes }
{
    let mut piece = [0; 2];
    BigEndian::write_u16(&mut piece, number);
    put_bytes(p, at, &piece);
}

/// Puts a number into the four bytes of the page from `at` on, its highest byte first. Every other byte stays.
pub fn put_u32(p: &mut Page, at: usize, number: u32)
    requires { at + 4 ≤ page_bytes }
    ensures put { (place : ℕ) → image_of p.new.bytes place
        ≡ put (image_of p.old.bytes) at (bytes_of 4 number) place }
    ensures fits { number < 256 ^ 4 }
    ensures size { length p.new.bytes ≡ length p.old.bytes }
{
    let mut piece = [0; 4];
    BigEndian::write_u32(&mut piece, number);
    put_bytes(p, at, &piece);
}

/// Puts a number into the eight bytes of the page from `at` on, its highest byte first. Every other byte stays.
pub fn put_u64(p: &mut Page, at: usize, number: u64)
    requires { at + 8 ≤ page_bytes }
    ensures put { (place : ℕ) → image_of p.new.bytes place
        ≡ put (image_of p.old.bytes) at (bytes_of 8 number) place }
    ensures fits { number < 256 ^ 8 }
    ensures size { length p.new.bytes ≡ length p.old.bytes }
{
    let mut piece = [0; 8];
    BigEndian::write_u64(&mut piece, number);
    put_bytes(p, at, &piece);
}
