//! Decimal numbers.

ghost use Rattle.std.specs.Prelude.{◌≡◌, ◌+◌, ◌-◌, ◌*◌, ◌^◌, min, nat_lt, nat_le, if◌then◌else◌, pos, neg_ℤ, Some, None};
ghost use Rattle.isp_plan.specs.Numbers.{number_of, value_of};

/// What the digits say, or the greatest number of 64 bits where they say more.
pub fn value_of(digits: &[u8]) -> u64
    ensures { result ≡ min (value_of digits.now) (2 ^ 64 - 1) }
{
    let mut value: u64 = 0;
    for digit in digits {
        value = with_digit(value, *digit);
    }
    value
}

fn with_digit(value: u64, digit: u8) -> u64
    ensures { result ≡ min (value * 10 + (digit - 48)) (2 ^ 64 - 1) }
{
    value
        .saturating_mul(10)
        .saturating_add(u64::from(digit.saturating_sub(b'0')))
}

/// The number, where it is one of 64 bits with its sign.
pub fn number_of(minus: bool, digits: &[u8]) -> Option<i64>
    ensures { result ≡ number_of minus digits.now }
{
    let value = value_of(digits);
    if minus {
        negative(value)
    } else {
        positive(value)
    }
}

fn positive(value: u64) -> Option<i64>
    ensures { result ≡ (if nat_lt value (2 ^ 63) then Some (pos value) else None) }
{
    if value < 1 << 63 {
        Some(value as i64)
    } else {
        None
    }
}

fn negative(value: u64) -> Option<i64>
    ensures { result ≡ (if nat_le value (2 ^ 63) then Some (neg_ℤ (pos value)) else None) }
{
    if value < 1 << 63 {
        return Some(-(value as i64));
    }
    if value == 1 << 63 {
        return Some(i64::MIN);
    }
    None
}
