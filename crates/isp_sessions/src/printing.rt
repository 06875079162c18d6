//! The lines of answers.

ghost use Rattle.std.specs.Prelude.{◌≡◌, false, true, IfErr};
ghost use Rattle.isp_connection.specs.Connections.{state_of};
ghost use Rattle.isp_disk.specs.Outside.{Prints};
ghost use Rattle.isp_page.specs.Steps.{IsNoDamageOrLacks};
ghost use Rattle.isp_plain.specs.Texts.{reply_text};
ghost use Rattle.isp_serial.specs.Alone.{answer_with, turn_of};
ghost use Rattle.isp_serial.specs.Spelling.{line_of};
ghost use Rattle.isp_sessions.specs.Plays.{StaysPlaying};
ghost use Rattle.isp_sessions.specs.Runs.{KeepsPages};

use isp_connection::Connection;
use isp_page::{Fault, Pages};
use isp_plain::Reply;
use isp_text::answer_line;
use std::alloc::Global;

// The setup has turn 0 throughout, and a session's turn is the statement's number.
fn turn_of(session: u32, number: u64) -> u64
    ensures { result ≡ turn_of session number }
{
    if session == 0 { 0 } else { number }
}

// Prints these bytes.
fn print<P: Pages>(connection: &mut Connection<P>, bytes: &[u8]) -> Result<(), Fault>
    requires usable { P.usable connection.old.context.pages ≡ true }
    requires none { (P.mini connection.old.context.pages).is_begun ≡ false }
    ensures prints { P.tells → Prints (P.printed connection.old.context.pages) bytes.now
        (P.printed connection.new.context.pages) result }
    ensures stays { StaysPlaying P.Pages connection.old.context.pages
        connection.new.context.pages result }
    ensures kept { KeepsPages P.Pages connection.old.context.pages connection.new.context.pages }
    ensures same { state_of connection.new ≡ state_of connection.old }
    ensures sound { IfErr result IsNoDamageOrLacks }
{
    match connection.print(bytes) {
        Ok(()) => Ok(()),
        Err(fault) => Err(Fault::Store(fault)),
    }
}

/// Prints the line of an answer.
pub(crate) fn print_answer<P: Pages>(
    alloc: Global,
    connection: &mut Connection<P>,
    number: u64,
    reply: &Reply,
) -> Result<(), Fault>
    requires usable { P.usable connection.old.context.pages ≡ true }
    requires none { (P.mini connection.old.context.pages).is_begun ≡ false }
    ensures prints { P.tells → Prints (P.printed connection.old.context.pages)
        (line_of (answer_with connection.old.context.trx.session number (reply_text reply.now)))
        (P.printed connection.new.context.pages) result }
    ensures stays { StaysPlaying P.Pages connection.old.context.pages
        connection.new.context.pages result }
    ensures kept { KeepsPages P.Pages connection.old.context.pages connection.new.context.pages }
    ensures same { state_of connection.new ≡ state_of connection.old }
    ensures sound { IfErr result IsNoDamageOrLacks }
{
    let session = connection.session();
    match answer_line(
        alloc,
        turn_of(session, number),
        u64::from(session),
        number,
        reply,
    ) {
        Ok(line) => print(connection, line.as_slice()),
        Err(_) => Err(Fault::Memory),
    }
}
