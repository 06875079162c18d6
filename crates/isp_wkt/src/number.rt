//! Numbers and points of a text.

ghost use Rattle.std.specs.Prelude.{◌≡◌, ◌≤◌, IfOk};
ghost use Rattle.isp_wkt.specs.Reading.{Reads, is_digit, digits_at, zeros_at, nonzero_at, fraction_at, end_at, first_at, size_at, sign_at, signed, number_at, point_at};

use crate::cause::{Fault, WktCause};
use crate::cursor::{Cursor, is_e};
use isp_geom::Point;

/// A coordinate's greatest size.
const LIMIT: u64 = 1_073_741_824;

fn is_digit(b: u8) -> bool
    ensures { result ≡ is_digit b }
{
    b'0' <= b && b <= b'9'
}

// Whether a minus stands there; goes over a sign.
fn sign(from: &mut Cursor<'_>) -> Result<bool, Fault>
    ensures { Reads result (sign_at from.old) from.new }
{
    match from.rest {
        [b'-', rest @ ..] => {
            from.rest = rest;
            Ok(true)
        }
        [b'+', rest @ ..] => {
            from.rest = rest;
            Ok(false)
        }
        _ => Ok(false),
    }
}

// Wants a digit, and leaves it.
fn first(from: &mut Cursor<'_>) -> Result<(), Fault>
    ensures { Reads result (first_at from.old) from.new }
{
    match from.rest {
        [b, ..] if is_digit(*b) => Ok(()),
        [_, ..] => Err(from.fault(WktCause::Unknown)),
        [] => Err(from.fault(WktCause::Truncated)),
    }
}

// The value of the digits there.
fn digits(from: &mut Cursor<'_>) -> Result<u64, Fault>
    ensures read { Reads result (digits_at 0 from.old) from.new }
    ensures fits { IfOk result (λ size. size ≤ 1073741824) }
{
    let mut size = 0;
    let bytes = from.rest;
    for (i, b) in bytes.iter().enumerate() {
        if !is_digit(*b) {
            from.rest = &bytes[i..];
            return Ok(size);
        }
        let next = size * 10 + u64::from(*b - b'0');
        if next > LIMIT {
            let left = bytes.len() - i;
            return Err(Fault {
                cause: WktCause::OutOfRange,
                left,
            });
        }
        size = next;
    }
    from.rest = &[];
    Ok(size)
}

// Goes over the zeros of a fraction.
fn zeros(from: &mut Cursor<'_>) -> Result<(), Fault>
    ensures { Reads result (zeros_at from.old) from.new }
{
    let bytes = from.rest;
    for (i, b) in bytes.iter().enumerate() {
        if *b != b'0' {
            from.rest = &bytes[i..];
            return nonzero(from);
        }
    }
    from.rest = &[];
    Ok(())
}

// What follows the zeros is no digit.
fn nonzero(from: &mut Cursor<'_>) -> Result<(), Fault>
    ensures { Reads result (nonzero_at from.old) from.new }
{
    match from.rest {
        [b, ..] if is_digit(*b) => Err(from.fault(WktCause::NotWhole)),
        _ => Ok(()),
    }
}

// Goes over a fraction, where there is one.
fn fraction(from: &mut Cursor<'_>) -> Result<(), Fault>
    ensures { Reads result (fraction_at from.old) from.new }
{
    match from.rest {
        [b'.', rest @ ..] => {
            from.rest = rest;
            zeros(from)
        }
        _ => Ok(()),
    }
}

// No exponent follows a number.
fn end(from: &mut Cursor<'_>) -> Result<(), Fault>
    ensures { Reads result (end_at from.old) from.new }
{
    match from.rest {
        [b, ..] if is_e(*b) => Err(from.fault(WktCause::NotWhole)),
        _ => Ok(()),
    }
}

// A number without its sign.
#[tactic(auto, unfolding(crate::specs::Reading::size_at))]
fn size(from: &mut Cursor<'_>) -> Result<u64, Fault>
    ensures read { Reads result (size_at from.old) from.new }
    ensures fits { IfOk result (λ size. size ≤ 1073741824) }
{
    first(from)?;
    let size = digits(from)?;
    fraction(from)?;
    end(from)?;
    Ok(size)
}

fn signed(is_negative: bool, size: u64) -> i32
    requires { size ≤ 1073741824 }
    ensures { result ≡ signed is_negative size }
{
    let size = size as i32;
    if is_negative { -size } else { size }
}

#[tactic(auto, unfolding(crate::specs::Reading::number_at))]
fn number(from: &mut Cursor<'_>) -> Result<i32, Fault>
    ensures { Reads result (number_at from.old) from.new }
{
    let is_negative = sign(from)?;
    let size = size(from)?;
    Ok(signed(is_negative, size))
}

/// Two coordinates with blanks between them.
#[tactic(auto, unfolding(crate::specs::Reading::point_at))]
pub fn point(from: &mut Cursor<'_>) -> Result<Point, Fault>
    ensures { Reads result (point_at from.old) from.new }
{
    let x = number(from)?;
    from.blank()?;
    let y = number(from)?;
    Ok(Point { x, y })
}
