//! The fields of the log: numbers as bytes, and what stands before the bytes of a range.
ghost use Rattle.std.specs.Prelude.{◌≡◌, ◌++◌};
ghost use Rattle.isp_format.specs.Numbers.{bytes_of};

use byteorder::{BigEndian, ByteOrder};

/// What stands before the bytes of a range: its page, its place there and its length.
#[derive(Clone, Copy, Debug, PartialEq, Eq)]
pub struct RangeHead {
    pub page: u32,
    pub at: u16,
    pub len: u16,
}

/// The two bytes of a number.
pub fn u16_bytes(number: u16) -> [u8; 2]
    ensures { result ≡ bytes_of 2 number }
{
    let mut bytes = [0; 2];
    BigEndian::write_u16(&mut bytes, number);
    bytes
}

/// The four bytes of a number.
pub fn u32_bytes(number: u32) -> [u8; 4]
    ensures { result ≡ bytes_of 4 number }
{
    let mut bytes = [0; 4];
    BigEndian::write_u32(&mut bytes, number);
    bytes
}

/// The number in two bytes.
pub fn be_u16(bytes: &[u8; 2]) -> u16
    ensures { bytes.now ≡ bytes_of 2 result }
{
    u16::from_be_bytes(*bytes)
}

/// The number in four bytes.
pub fn be_u32(bytes: &[u8; 4]) -> u32
    ensures { bytes.now ≡ bytes_of 4 result }
{
    u32::from_be_bytes(*bytes)
}

/// What these eight bytes say of a range.
pub fn range_head(bytes: &[u8; 8]) -> RangeHead
    ensures { bytes.now
        ≡ bytes_of 4 result.page ++ (bytes_of 2 result.at ++ bytes_of 2 result.len) }
{
    let [a, b, c, d, e, f, g, h] = *bytes;
    RangeHead {
        page: be_u32(&[a, b, c, d]),
        at: be_u16(&[e, f]),
        len: be_u16(&[g, h]),
    }
}

/// The eight bytes that say this of a range.
pub fn range_head_bytes(head: RangeHead) -> [u8; 8]
    ensures { result ≡ bytes_of 4 head.page ++ (bytes_of 2 head.at ++ bytes_of 2 head.len) }
{
    let [a, b, c, d] = u32_bytes(head.page);
    let [e, f] = u16_bytes(head.at);
    let [g, h] = u16_bytes(head.len);
    [a, b, c, d, e, f, g, h]
}
