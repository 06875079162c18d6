//! The text of a refusal.

ghost use Rattle.std.specs.Prelude.{◌≡◌, [], ◌∷◌, ◌++◌, OnOk, codes};
ghost use Rattle.std.specs.Fmt.{decimal};
ghost use Rattle.isp_plain.specs.Refusals.{number, refusal_text, shown_text, state, told_text};

use crate::bytes::{push, push_decimal, push_number};
use isp_plain::Refusal;
use std::alloc::{AllocError, Global};

/// Adds the text of the refusal: `ERR`, its number, its state and its words, with the key or place that it shows.
pub fn push_refusal(out: &mut Vec<u8>, alloc: Global, refusal: Refusal) -> Result<(), AllocError>
    ensures { OnOk result (out.new.items ≡ out.old.items ++ refusal_text refusal) }
{
    push_number_and_state(out, alloc, refusal)?;
    push_told(out, alloc, refusal)?;
    Ok(())
}

fn push_number_and_state(
    out: &mut Vec<u8>,
    alloc: Global,
    refusal: Refusal,
) -> Result<(), AllocError>
    ensures { OnOk result (out.new.items ≡ out.old.items ++ (codes "ERR " ++ (decimal (number refusal) ++ 32 ∷ (state refusal ++ 32 ∷ [])))) }
{
    push(out, b"ERR ")?;
    push_decimal(out, alloc, u64::from(refusal.number()))?;
    push(out, b" ")?;
    push(out, refusal.state())?;
    push(out, b" ")?;
    Ok(())
}

// Adds the words and what is shown behind them.
fn push_told(out: &mut Vec<u8>, alloc: Global, refusal: Refusal) -> Result<(), AllocError>
    ensures { OnOk result (out.new.items ≡ out.old.items ++ told_text refusal) }
{
    push(out, refusal.words())?;
    push_shown(out, alloc, refusal.shown())?;
    Ok(())
}

// Adds the digits of a key or a place, if there is one.
fn push_shown(out: &mut Vec<u8>, alloc: Global, shown: Option<i64>) -> Result<(), AllocError>
    ensures { OnOk result (out.new.items ≡ out.old.items ++ shown_text shown) }
{
    match shown {
        Some(number) => push_number(out, alloc, number),
        None => Ok(()),
    }
}
