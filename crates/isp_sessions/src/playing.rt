//! The setup and then the session of a script, from the tables that the file has.

ghost use Rattle.std.specs.Prelude.{◌≡◌, ◌+◌, ◌<◌, ◌^◌, false, true, length, All, IfErr, OnErr, OnOk};
ghost use Rattle.isp_connection.specs.Connections.{state_of};
ghost use Rattle.isp_tables.specs.Calls.{Serves};
ghost use Rattle.isp_image.specs.Databases.{Database, tables_of};
ghost use Rattle.isp_image.specs.Faults.{NamesLaterOrLacks};
ghost use Rattle.isp_page.specs.Steps.{IsNoDamageOrLacks};
ghost use Rattle.isp_serial.specs.Alone.{AreSmall, Full, IsAlone, State, settled};
ghost use Rattle.isp_sessions.specs.Plays.{HasSlot, IsAtRest, IsSmall, Played, PlayedPart, StaysPlaying};
ghost use Rattle.isp_sessions.specs.Runs.{HasSession, HasSessions, HasSetup, Runs, SessionPart, SessionsPart, SetupPart};

use crate::answering::{answer_texts, end_session};
use isp_base::Bytes;
use isp_connection::Connection;
use isp_page::{Fault, Pages};
use isp_serial::{Script, Session};
use std::alloc::Global;

// The number of the answer behind the last text's.
fn end_number(texts: &[Bytes]) -> u64
    ensures value { result ≡ length texts.now + 1 }
    ensures small { length texts.now + 1 < 2 ^ 64 }
{
    texts.len() as u64 + 1
}

// A session's number and those of its answers fit into 64 bits.
fn count_answers(session: &Session)
    ensures { (session.now.number < 2 ^ 64) × (length session.now.texts + 1 < 2 ^ 64) }
{
    let _number = session.number;
    let _end = end_number(session.texts.as_slice());
}

fn count_sessions(sessions: &[Session])
    ensures { AreSmall sessions.now }
{
    for session in sessions {
        count_answers(session);
    }
}

fn count_script(script: &Script)
    ensures { IsSmall script.now }
{
    let _end = end_number(script.setup.as_slice());
    count_sessions(script.sessions.as_slice());
}

// Answers the script's setup.
fn answer_setup<P: Pages>(alloc: Global, script: &Script, pages: P) -> (Result<(), Fault>, P)
    requires usable { P.usable pages ≡ true }
    requires none { (P.mini pages).is_begun ≡ false }
    ensures stays { StaysPlaying P.Pages pages result.1 result.0 }
    ensures answered { P.tells → (d : Database)
        → IsAtRest (P.shape pages).pages (P.contents pages) d
        → OnOk result.0 (HasSetup P.Pages (P.shape pages).pages d script.now.setup pages
        result.1) }
    ensures part { P.tells → (d : Database)
        → IsAtRest (P.shape pages).pages (P.contents pages) d
        → OnErr result.0 (SetupPart P.Pages (P.shape pages).pages d script.now.setup pages
        result.1) }
    ensures sound { P.tells → (d : Database)
        → IsAtRest (P.shape pages).pages (P.contents pages) d
        → IfErr result.0 IsNoDamageOrLacks }
    ensures later { IfErr result.0 NamesLaterOrLacks }
{
    match Connection::open(alloc, pages, 0) {
        Ok(mut connection) => {
            let end = answer_texts(alloc, &mut connection, script.setup.as_slice());
            (end, connection.into_pages())
        }
        Err((fault, pages)) => (Err(fault), pages),
    }
}

// Answers the session's texts, and prints its end.
fn answer_all<P: Pages>(
    alloc: Global,
    connection: &mut Connection<P>,
    texts: &[Bytes],
) -> Result<(), Fault>
    requires serves { Serves P.Pages connection.old.context.pages connection.old.context.tables }
    ensures stays { StaysPlaying P.Pages connection.old.context.pages
        connection.new.context.pages result }
    ensures answered { P.tells → (base : Full) (d : Database) (state : State)
        → Runs P.Pages connection.old.context.pages (state_of connection.old) state d
        → OnOk result (HasSession P.Pages (P.shape connection.old.context.pages).pages base d
        connection.old.context.trx.session texts.now state connection.old.context.pages
        connection.new.context.pages) }
    ensures part { P.tells → (base : Full) (d : Database) (state : State)
        → Runs P.Pages connection.old.context.pages (state_of connection.old) state d
        → OnErr result (SessionPart P.Pages (P.shape connection.old.context.pages).pages base d
        connection.old.context.trx.session texts.now state connection.old.context.pages
        connection.new.context.pages) }
    ensures sound { P.tells → (d : Database) (state : State)
        → Runs P.Pages connection.old.context.pages (state_of connection.old) state d
        → IfErr result IsNoDamageOrLacks }
    ensures later { IfErr result NamesLaterOrLacks }
{
    match answer_texts(alloc, connection, texts) {
        Ok(()) => end_session(alloc, connection, end_number(texts)),
        Err(fault) => Err(fault),
    }
}

fn answer_session<P: Pages>(alloc: Global, pages: P, session: &Session) -> (Result<(), Fault>, P)
    requires slot { HasSlot session.now }
    requires usable { P.usable pages ≡ true }
    requires none { (P.mini pages).is_begun ≡ false }
    ensures stays { StaysPlaying P.Pages pages result.1 result.0 }
    ensures answered { P.tells → (base : Full) (d : Database)
        → IsAtRest (P.shape pages).pages (P.contents pages) d
        → OnOk result.0 (HasSession P.Pages (P.shape pages).pages base d session.now.number
        session.now.texts (settled (tables_of d)) pages result.1) }
    ensures part { P.tells → (base : Full) (d : Database)
        → IsAtRest (P.shape pages).pages (P.contents pages) d
        → OnErr result.0 (SessionPart P.Pages (P.shape pages).pages base d session.now.number
        session.now.texts (settled (tables_of d)) pages result.1) }
    ensures sound { P.tells → (d : Database)
        → IsAtRest (P.shape pages).pages (P.contents pages) d
        → IfErr result.0 IsNoDamageOrLacks }
    ensures later { IfErr result.0 NamesLaterOrLacks }
{
    match Connection::open(alloc, pages, session.number) {
        Ok(mut connection) => {
            let end = answer_all(alloc, &mut connection, session.texts.as_slice());
            (end, connection.into_pages())
        }
        Err((fault, pages)) => (Err(fault), pages),
    }
}

// Answers the one session, where there is one. A script has no more of them yet.
fn answer_sessions<P: Pages>(alloc: Global, script: &Script, pages: P) -> (Result<(), Fault>, P)
    requires slots { All HasSlot script.now.sessions }
    requires usable { P.usable pages ≡ true }
    requires none { (P.mini pages).is_begun ≡ false }
    ensures stays { StaysPlaying P.Pages pages result.1 result.0 }
    ensures answered { P.tells → IsAlone script.now.sessions → (base : Full) (d : Database)
        → IsAtRest (P.shape pages).pages (P.contents pages) d
        → OnOk result.0 (HasSessions P.Pages (P.shape pages).pages base d script.now.sessions
        pages result.1) }
    ensures part { P.tells → IsAlone script.now.sessions → (base : Full) (d : Database)
        → IsAtRest (P.shape pages).pages (P.contents pages) d
        → OnErr result.0 (SessionsPart P.Pages (P.shape pages).pages base d script.now.sessions
        pages result.1) }
    ensures sound { P.tells → (d : Database)
        → IsAtRest (P.shape pages).pages (P.contents pages) d
        → IfErr result.0 IsNoDamageOrLacks }
    ensures later { IfErr result.0 NamesLaterOrLacks }
{
    match script.sessions.as_slice() {
        [session, ..] => answer_session(alloc, pages, session),
        [] => (Ok(()), pages),
    }
}

// Answers the setup and then the session.
fn answer_script<P: Pages>(alloc: Global, script: &Script, pages: P) -> (Result<(), Fault>, P)
    requires slots { All HasSlot script.now.sessions }
    requires usable { P.usable pages ≡ true }
    requires none { (P.mini pages).is_begun ≡ false }
    ensures stays { StaysPlaying P.Pages pages result.1 result.0 }
    ensures played { P.tells → IsAlone script.now.sessions → (d : Database)
        → IsAtRest (P.shape pages).pages (P.contents pages) d
        → OnOk result.0 (Played (P.shape pages).pages script.now d (P.contents result.1)
        (P.printed pages) (P.printed result.1)) }
    ensures part { P.tells → IsAlone script.now.sessions → (d : Database)
        → IsAtRest (P.shape pages).pages (P.contents pages) d
        → OnErr result.0 (PlayedPart (P.shape pages).pages script.now d
        (P.printed pages) (P.printed result.1)) }
    ensures sound { P.tells → (d : Database)
        → IsAtRest (P.shape pages).pages (P.contents pages) d
        → IfErr result.0 IsNoDamageOrLacks }
    ensures later { IfErr result.0 NamesLaterOrLacks }
{
    match answer_setup(alloc, script, pages) {
        (Ok(()), pages) => answer_sessions(alloc, script, pages),
        (Err(fault), pages) => (Err(fault), pages),
    }
}

/// Answers the setup and then the session of the script, whose number is that of an undo slot, from the tables that the file has,
/// and prints each answer's line. The pages come back in any case.
/// What was committed stays in the pages; a transaction that is open at a session's end is taken back.
///
/// # Errors
///
/// Memory; or Disk, Print; or Damaged, on pages that are no kept file.
pub fn play<P: Pages>(alloc: Global, script: &Script, pages: P) -> (Result<(), Fault>, P)
    requires slots { All HasSlot script.now.sessions }
    requires usable { P.usable pages ≡ true }
    requires none { (P.mini pages).is_begun ≡ false }
    ensures stays { StaysPlaying P.Pages pages result.1 result.0 }
    ensures small { IsSmall script.now }
    ensures played { P.tells → IsAlone script.now.sessions → (d : Database)
        → IsAtRest (P.shape pages).pages (P.contents pages) d
        → OnOk result.0 (Played (P.shape pages).pages script.now d (P.contents result.1)
        (P.printed pages) (P.printed result.1)) }
    ensures part { P.tells → IsAlone script.now.sessions → (d : Database)
        → IsAtRest (P.shape pages).pages (P.contents pages) d
        → OnErr result.0 (PlayedPart (P.shape pages).pages script.now d
        (P.printed pages) (P.printed result.1)) }
    ensures sound { P.tells → (d : Database)
        → IsAtRest (P.shape pages).pages (P.contents pages) d
        → IfErr result.0 IsNoDamageOrLacks }
    ensures later { IfErr result.0 NamesLaterOrLacks }
{
    count_script(script);
    answer_script(alloc, script, pages)
}
