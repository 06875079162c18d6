//! Bytes and numbers that are added at the end of others.

ghost use Rattle.std.specs.Prelude.{◌≡◌, ◌++◌, OnOk};
ghost use Rattle.std.specs.Fmt.{decimal, signed_decimal};

use std::alloc::{AllocError, Global};

/// Adds bytes.
pub fn push(out: &mut Vec<u8>, bytes: &[u8]) -> Result<(), AllocError>
    ensures { OnOk result (out.new.items ≡ out.old.items ++ bytes.now) }
{
    out.extend_from_slice(bytes)
}

/// Adds the digits of a number.
pub fn push_decimal(out: &mut Vec<u8>, alloc: Global, n: u64) -> Result<(), AllocError>
    ensures { OnOk result (out.new.items ≡ out.old.items ++ decimal n) }
{
    let digits = n.to_string(alloc)?;
    push(out, digits.as_bytes())
}

/// Adds a number with its sign, if it is below 0.
pub fn push_number(out: &mut Vec<u8>, alloc: Global, n: i64) -> Result<(), AllocError>
    ensures { OnOk result (out.new.items ≡ out.old.items ++ signed_decimal n) }
{
    let digits = n.to_string(alloc)?;
    push(out, digits.as_bytes())
}
