//! The text of a reply, as the line of its answer shows it.

ghost use Rattle.std.specs.Prelude.{◌≡◌, ◌∷◌, ◌++◌, IfOk, OnOk};
ghost use Rattle.std.specs.List.{flat_map};
ghost use Rattle.isp_plain.specs.Texts.{count_text, end_text, ok_text, reply_text, row_text};

use crate::bytes::{push, push_decimal};
use crate::refusal::push_refusal;
use crate::row::push_row;
use isp_mbr::Bytes;
use isp_plain::{Reply, Row};
use std::alloc::{AllocError, Global};

/// The text of a reply: `OK`, `OK c rows` with the rows behind it where there are any, `ERR` with the number, the state
/// and the words of a refusal, or `END`. The error is want of memory.
pub fn print_reply(alloc: Global, reply: &Reply) -> Result<Bytes, AllocError>
    ensures { IfOk result (λ text. text ≡ reply_text reply.now) }
{
    let mut out = Vec::new(alloc);
    push_reply(&mut out, alloc, reply)?;
    Ok(Bytes::from_vec(out))
}

/// Adds the text of a reply.
pub fn push_reply(out: &mut Vec<u8>, alloc: Global, reply: &Reply) -> Result<(), AllocError>
    ensures { OnOk result (out.new.items ≡ out.old.items ++ reply_text reply.now) }
{
    match reply {
        Reply::Ok => push_ok(out),
        Reply::Count(n) => push_count(out, alloc, *n),
        Reply::Rows(rows) => {
            push_count(out, alloc, rows.len() as u64)?;
            push_rows(out, alloc, rows.as_slice())?;
            Ok(())
        }
        Reply::Err(refusal) => push_refusal(out, alloc, *refusal),
        Reply::End => push_end(out),
    }
}

#[tactic(auto, unfolding(isp_plain::specs::Texts::ok_text))]
fn push_ok(out: &mut Vec<u8>) -> Result<(), AllocError>
    ensures { OnOk result (out.new.items ≡ out.old.items ++ ok_text) }
{
    push(out, b"OK")
}

#[tactic(auto, unfolding(isp_plain::specs::Texts::end_text))]
fn push_end(out: &mut Vec<u8>) -> Result<(), AllocError>
    ensures { OnOk result (out.new.items ≡ out.old.items ++ end_text) }
{
    push(out, b"END")
}

fn push_count(out: &mut Vec<u8>, alloc: Global, n: u64) -> Result<(), AllocError>
    ensures { OnOk result (out.new.items ≡ out.old.items ++ count_text n) }
{
    push(out, b"OK ")?;
    push_decimal(out, alloc, n)?;
    push(out, b" rows")?;
    Ok(())
}

// The rows, each behind a space.
fn push_rows(out: &mut Vec<u8>, alloc: Global, rows: &[Row]) -> Result<(), AllocError>
    ensures { OnOk result (out.new.items ≡ out.old.items ++ flat_map (λ row. 32 ∷ row_text row) rows.now) }
{
    for row in rows {
        push_next(out, alloc, row)?;
    }
    Ok(())
}

fn push_next(out: &mut Vec<u8>, alloc: Global, row: &Row) -> Result<(), AllocError>
    ensures { OnOk result (out.new.items ≡ out.old.items ++ 32 ∷ row_text row.now) }
{
    push(out, b" ")?;
    push_row(out, alloc, row)?;
    Ok(())
}
