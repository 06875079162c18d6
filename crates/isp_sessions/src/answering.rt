//! A session's texts, answered one after another.

ghost use Rattle.std.specs.Prelude.{◌≡◌, ◌+◌, ◌<◌, ◌^◌, IfErr, OnErr, OnOk, length};
ghost use Rattle.isp_connection.specs.Answering.{meant};
ghost use Rattle.isp_connection.specs.Connections.{Holds, state_of};
ghost use Rattle.isp_tables.specs.Calls.{Serves};
ghost use Rattle.isp_image.specs.Databases.{Database};
ghost use Rattle.isp_image.specs.Faults.{NamesLaterOrLacks};
ghost use Rattle.isp_page.specs.Steps.{IsNoDamageOrLacks};
ghost use Rattle.isp_serial.specs.Alone.{Full, State};
ghost use Rattle.isp_sessions.specs.Plays.{StaysPlaying};
ghost use Rattle.isp_sessions.specs.Runs.{AnswersPart, HasAnswered, HasEnded, HasPrinted, HasTexts, PrintsReply, Runs, TextsPart};

use crate::printing::print_answer;
use isp_base::Bytes;
use isp_connection::Connection;
use isp_page::{Fault, Pages};
use isp_plain::Reply;
use std::alloc::Global;

// Prints a statement's answer, and takes out what a transaction that is over left marked.
fn print_reply<P: Pages>(
    alloc: Global,
    connection: &mut Connection<P>,
    number: u64,
    reply: &Reply,
) -> Result<(), Fault>
    requires serves { Serves P.Pages connection.old.context.pages connection.old.context.tables }
    ensures stays { StaysPlaying P.Pages connection.old.context.pages
        connection.new.context.pages result }
    ensures serves { OnOk result (Serves P.Pages connection.new.context.pages
        connection.new.context.tables) }
    ensures session { OnOk result (connection.new.context.trx.session
        ≡ connection.old.context.trx.session) }
    ensures printed { P.tells → (d : Database) (state : State)
        → Holds P.Pages connection.old.context.pages (state_of connection.old) state d
        → OnOk result (HasPrinted P.Pages (P.shape connection.old.context.pages).pages d
        connection.old.context.trx.session number reply.now state connection.old.context.pages
        connection.new.context.pages (state_of connection.new)) }
    ensures part { P.tells → OnErr result (PrintsReply P.Pages connection.old.context.trx.session
        number reply.now connection.old.context.pages connection.new.context.pages) }
    ensures sound { P.tells → (d : Database) (state : State)
        → Holds P.Pages connection.old.context.pages (state_of connection.old) state d
        → IfErr result IsNoDamageOrLacks }
    ensures later { IfErr result NamesLaterOrLacks }
{
    match print_answer(alloc, connection, number, reply) {
        Ok(()) => connection.sweep(),
        Err(fault) => Err(fault),
    }
}

// Answers one text.
fn answer_text<P: Pages>(
    alloc: Global,
    connection: &mut Connection<P>,
    number: u64,
    text: &Bytes,
) -> Result<(), Fault>
    requires serves { Serves P.Pages connection.old.context.pages connection.old.context.tables }
    ensures stays { StaysPlaying P.Pages connection.old.context.pages
        connection.new.context.pages result }
    ensures serves { OnOk result (Serves P.Pages connection.new.context.pages
        connection.new.context.tables) }
    ensures session { OnOk result (connection.new.context.trx.session
        ≡ connection.old.context.trx.session) }
    ensures answered { P.tells → (d : Database) (state : State)
        → Holds P.Pages connection.old.context.pages (state_of connection.old) state d
        → OnOk result (HasAnswered P.Pages (P.shape connection.old.context.pages).pages d
        connection.old.context.trx.session number state
        (meant connection.old.context.trx.session text.now state)
        connection.old.context.pages connection.new.context.pages (state_of connection.new)) }
    ensures part { P.tells → (d : Database) (state : State)
        → Holds P.Pages connection.old.context.pages (state_of connection.old) state d
        → OnErr result (AnswersPart P.Pages (P.shape connection.old.context.pages).pages d
        connection.old.context.trx.session number state
        (meant connection.old.context.trx.session text.now state)
        connection.old.context.pages connection.new.context.pages) }
    ensures sound { P.tells → (d : Database) (state : State)
        → Holds P.Pages connection.old.context.pages (state_of connection.old) state d
        → IfErr result IsNoDamageOrLacks }
    ensures later { IfErr result NamesLaterOrLacks }
{
    match connection.answer(text) {
        Ok(reply) => print_reply(alloc, connection, number, &reply),
        Err(fault) => Err(fault),
    }
}

/// Answers the session's texts, one after another.
pub(crate) fn answer_texts<P: Pages>(
    alloc: Global,
    connection: &mut Connection<P>,
    texts: &[Bytes],
) -> Result<(), Fault>
    requires serves { Serves P.Pages connection.old.context.pages connection.old.context.tables }
    ensures stays { StaysPlaying P.Pages connection.old.context.pages
        connection.new.context.pages result }
    ensures serves { OnOk result (Serves P.Pages connection.new.context.pages
        connection.new.context.tables) }
    ensures session { OnOk result (connection.new.context.trx.session
        ≡ connection.old.context.trx.session) }
    ensures answered { P.tells → (base : Full) (d : Database) (state : State)
        → Runs P.Pages connection.old.context.pages (state_of connection.old) state d
        → OnOk result (HasTexts P.Pages (P.shape connection.old.context.pages).pages base d
        connection.old.context.trx.session texts.now state connection.old.context.pages
        connection.new.context.pages (state_of connection.new)) }
    ensures part { P.tells → (base : Full) (d : Database) (state : State)
        → Runs P.Pages connection.old.context.pages (state_of connection.old) state d
        → OnErr result (TextsPart P.Pages (P.shape connection.old.context.pages).pages base d
        connection.old.context.trx.session texts.now state connection.old.context.pages
        connection.new.context.pages) }
    ensures sound { P.tells → (d : Database) (state : State)
        → Runs P.Pages connection.old.context.pages (state_of connection.old) state d
        → IfErr result IsNoDamageOrLacks }
    ensures later { IfErr result NamesLaterOrLacks }
{
    for (i, text) in texts.iter().enumerate() {
        match answer_text(alloc, connection, i as u64 + 1, text) {
            Ok(()) => {}
            Err(fault) => return Err(fault),
        }
    }
    Ok(())
}

/// Gives up what is open, and prints the line of the session's end.
pub(crate) fn end_session<P: Pages>(
    alloc: Global,
    connection: &mut Connection<P>,
    number: u64,
) -> Result<(), Fault>
    requires serves { Serves P.Pages connection.old.context.pages connection.old.context.tables }
    ensures stays { StaysPlaying P.Pages connection.old.context.pages
        connection.new.context.pages result }
    ensures ended { P.tells → (d : Database) (state : State)
        → Holds P.Pages connection.old.context.pages (state_of connection.old) state d
        → OnOk result (HasEnded P.Pages (P.shape connection.old.context.pages).pages d
        connection.old.context.trx.session number state connection.old.context.pages
        connection.new.context.pages (state_of connection.new)) }
    ensures part { P.tells → OnErr result (PrintsReply P.Pages connection.old.context.trx.session
        number Reply.End connection.old.context.pages connection.new.context.pages) }
    ensures sound { P.tells → (d : Database) (state : State)
        → Holds P.Pages connection.old.context.pages (state_of connection.old) state d
        → IfErr result IsNoDamageOrLacks }
    ensures later { IfErr result NamesLaterOrLacks }
{
    match connection.roll_back() {
        Ok(()) => print_reply(alloc, connection, number, &Reply::End),
        Err(fault) => Err(fault),
    }
}
