//! The bytes of the disk.

use std::alloc::{AllocError, Global};
use std::io;

// Where the pages begin, and how many bytes one has.
const PAGES_PLACE: usize = 1_314_816;

const PAGE_BYTES: usize = 4_096;

// Zeros for a file of so many pages.
fn zeros(alloc: Global, count: &str) -> Result<Vec<u8>, AllocError> {
    let pages = match count.parse::<u32>() {
        Ok(pages) => (pages as usize).min(65_536),
        Err(_) => 0,
    };
    let mut disk = Vec::new(alloc);
    disk.resize(PAGES_PLACE + pages * PAGE_BYTES, 0)?;
    Ok(disk)
}

// A new disk in the place of the old one.
pub(crate) fn renew(alloc: Global, disk: &mut Vec<u8>, count: &str) -> io::Result<()> {
    *disk = zeros(alloc, count)?;
    Ok(())
}

// A place and what is written behind it.
pub(crate) fn placed(text: &str) -> Option<(usize, &str)> {
    let (place, rest) = text.split_once(' ')?;
    match place.parse::<u32>() {
        Ok(place) => Some((place as usize, rest)),
        Err(_) => None,
    }
}

// The byte that two hexadecimal digits write.
fn byte_at(hex: &str, i: usize) -> Option<u8> {
    let from = i.checked_mul(2)?;
    let digits = hex.get(from..from.checked_add(2)?)?;
    u8::from_str_radix(digits, 16).ok()
}

// The byte of the disk that stands so many bytes behind a place.
fn disk_at(disk: &[u8], place: usize, i: usize) -> Option<u8> {
    disk.get(place.checked_add(i)?).copied()
}

pub(crate) fn say_bytes<R: Print + Alloc<A = Global>>(
    rt: &R,
    disk: &[u8],
    text: &str,
) -> io::Result<()> {
    let mut is_same = false;
    if let Some((place, hex)) = placed(text) {
        is_same = stands(disk, place, hex);
    }
    let text = if is_same { "as written" } else { "other bytes" };
    println!(rt; "bytes: {text}")
}

fn stands(disk: &[u8], place: usize, hex: &str) -> bool {
    for i in 0..hex.len() / 2 {
        if disk_at(disk, place, i) != byte_at(hex, i) {
            return false;
        }
    }
    true
}

pub(crate) fn poke(disk: &mut Vec<u8>, text: &str) -> io::Result<()> {
    if let Some((place, hex)) = placed(text) {
        for i in 0..hex.len() / 2 {
            put_byte(disk, place.checked_add(i), byte_at(hex, i));
        }
    }
    Ok(())
}

// Puts the byte at its place, where there are both.
fn put_byte(disk: &mut Vec<u8>, at: Option<usize>, byte: Option<u8>) {
    if let (Some(at), Some(byte)) = (at, byte) {
        if let Some(to) = disk.get_mut(at) {
            *to = byte;
        }
    }
}

// The disk with other bytes from a place on, which the seed settles.
pub(crate) fn scrambled(
    alloc: Global,
    disk: &[u8],
    from: usize,
    seed: u64,
) -> Result<Vec<u8>, AllocError> {
    let mut bytes = disk.to_vec(alloc)?;
    let mut state = seed;
    for (i, byte) in bytes.iter_mut().enumerate() {
        if from <= i {
            state = next_state(state);
            *byte = (state % 256) as u8;
        }
    }
    Ok(bytes)
}

// The number behind another one in a row of numbers that looks random. None is 0 where the first isn't.
fn next_state(state: u64) -> u64 {
    let a = state ^ (state << 13);
    let b = a ^ (a >> 7);
    b ^ (b << 17)
}

// Whether these are the bytes of the disk, whose others are 0.
pub(crate) fn is_all_of(bytes: &[u8], disk: &[u8]) -> bool {
    for (i, byte) in disk.iter().enumerate() {
        if bytes.get(i).copied().unwrap_or(0) != *byte {
            return false;
        }
    }
    bytes.len() <= disk.len()
}
