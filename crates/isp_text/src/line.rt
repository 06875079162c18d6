//! The line of an answer.

ghost use Rattle.std.specs.Prelude.{◌≡◌, [], ◌∷◌, ◌++◌, IfOk, OnOk};
ghost use Rattle.std.specs.Fmt.{decimal};
ghost use Rattle.isp_serial.specs.Spelling.{line_of};
ghost use Rattle.isp_plain.specs.Texts.{reply_text};

use crate::bytes::{push, push_decimal};
use crate::reply::push_reply;
use isp_plain::Reply;
use std::alloc::{AllocError, Global};

/// The line `T S.N text` of an answer and its line feed: the turn, the session, the number of the statement and the
/// text of the reply. The error is want of memory.
pub fn answer_line(
    alloc: Global,
    turn: u64,
    session: u64,
    number: u64,
    reply: &Reply,
) -> Result<Vec<u8>, AllocError>
    ensures { IfOk result (λ line. line.items ≡ line_of (record { turn = turn; session = session; number = number; text = reply_text reply.now })) }
{
    let mut line = Vec::new(alloc);
    push_stamp(&mut line, alloc, turn, session, number)?;
    push_reply(&mut line, alloc, reply)?;
    push(&mut line, b"\n")?;
    Ok(line)
}

// What stands before the text.
fn push_stamp(
    line: &mut Vec<u8>,
    alloc: Global,
    turn: u64,
    session: u64,
    number: u64,
) -> Result<(), AllocError>
    ensures { OnOk result (line.new.items ≡ line.old.items ++ (decimal turn ++ 32 ∷ (decimal session ++ 46 ∷ (decimal number ++ 32 ∷ [])))) }
{
    push_decimal(line, alloc, turn)?;
    push(line, b" ")?;
    push_decimal(line, alloc, session)?;
    push(line, b".")?;
    push_decimal(line, alloc, number)?;
    push(line, b" ")?;
    Ok(())
}
