//! The script that bytes are, or their first bad line.

ghost use Rattle.std.specs.Prelude.{◌≡◌, ◌≤◌, ℕ, [], ◌∷◌, ◌++◌, IfOk, length};
ghost use Rattle.isp_serial.specs.declared.script.Script.{Script};
ghost use Rattle.isp_script.specs.Lines.{lines_of, line_of};
ghost use Rattle.isp_script.specs.Grammar.{IsScript};
ghost use Rattle.isp_script.specs.BadLines.{IsBadLine};
ghost use Rattle.isp_script.specs.Reading.{step, heard, read_on, script_read, read_of};
ghost use Rattle.isp_script.specs.Results.{IfBad, IsRead, IsTold, Tells};

use crate::error::ScriptError;
use crate::lines::{Line, first_line, line_of};
use isp_mbr::Bytes;
use isp_serial::{Script, Session, Sessions, Texts, Words};
use std::alloc::{AllocError, Global};

/// How far a script was read.
#[derive(Drop)]
pub enum Reading {
    Nothing,
    InSetup(Texts),
    InSession(Texts, u32, Texts),
    Scheduled(Texts, Sessions),
    Ended(Texts, Sessions),
}

// A script has at most so many bytes.
const MOST_BYTES: usize = 16_777_216;

/// The script that the bytes are. Bad comes exactly where they are none, with their first bad line; OutOfMemory is want
/// of memory. The grammar is this project's own.
pub fn read_script(alloc: Global, bytes: &[u8]) -> Result<Script, ScriptError>
    // What is read is the script that the bytes are.
    ensures found { IfOk result (λ script. IsScript bytes.now script) }
    // Bytes that are a script are read as it, unless memory runs out.
    ensures only { (script : Script) → IsScript bytes.now script → IsRead result script }
    // The line that is told is the first bad one.
    ensures bad { IfBad result (λ line. IsBadLine bytes.now line) }
    // A bad line is told, unless memory runs out.
    ensures told { (line : ℕ) → IsBadLine bytes.now line → IsTold result line }
{
    read_bytes(alloc, bytes)
}

#[tactic(auto, unfolding(crate::specs::Reading::read_of))]
fn read_bytes(alloc: Global, bytes: &[u8]) -> Result<Script, ScriptError>
    ensures { Tells result (read_of bytes.now) }
{
    if bytes.len() > MOST_BYTES {
        return Err(ScriptError::Bad { line: 0 });
    }
    read_lines(alloc, bytes)
}

fn read_lines(alloc: Global, bytes: &[u8]) -> Result<Script, ScriptError>
    requires { length bytes.now ≤ 16777216 }
    ensures { Tells result (read_on Reading.Nothing 1 (lines_of bytes.now)) }
{
    let mut reading = Reading::Nothing;
    let mut rest = bytes;
    let mut line: u64 = 1;
    'lines: while !rest.is_empty() {
        let (first, others) = first_line(rest);
        let Some(next) = read_line(alloc, reading, first)? else {
            return Err(ScriptError::Bad { line });
        };
        reading = next;
        rest = others;
        line += 1;
    }
    match script_read(alloc, reading) {
        Some(script) => Ok(script),
        None => Err(ScriptError::Bad { line }),
    }
}

// One line further: None where the lines up to it begin no script.
fn read_line(alloc: Global, reading: Reading, bytes: &[u8]) -> Result<Option<Reading>, AllocError>
    ensures { IfOk result (λ next. next ≡ heard reading (line_of bytes.now)) }
{
    match line_of(alloc, bytes)? {
        Some(line) => step(alloc, reading, line),
        None => Ok(Some(reading)),
    }
}

fn step(alloc: Global, reading: Reading, line: Line) -> Result<Option<Reading>, AllocError>
    ensures { IfOk result (λ next. next ≡ step reading line) }
{
    match (line, reading) {
        (Line::Setup, Reading::Nothing) => Ok(Some(Reading::InSetup(Texts::new(alloc)))),
        (Line::Statement(text), Reading::InSetup(setup)) => {
            let setup = with_text(setup, text)?;
            Ok(Some(Reading::InSetup(setup)))
        }
        (Line::Session(number), Reading::InSetup(setup)) => {
            Ok(Some(Reading::InSession(setup, number, Texts::new(alloc))))
        }
        (Line::Schedule, Reading::InSetup(setup)) => {
            Ok(Some(Reading::Scheduled(setup, Sessions::new(alloc))))
        }
        (Line::Statement(text), Reading::InSession(setup, number, texts)) => {
            let texts = with_text(texts, text)?;
            Ok(Some(Reading::InSession(setup, number, texts)))
        }
        (Line::Schedule, Reading::InSession(setup, number, texts)) => {
            let sessions = one_session(alloc, number, texts)?;
            Ok(Some(Reading::Scheduled(setup, sessions)))
        }
        (Line::End, Reading::Scheduled(setup, sessions)) => {
            Ok(Some(Reading::Ended(setup, sessions)))
        }
        _ => Ok(None),
    }
}

// The texts with one more.
fn with_text(texts: Texts, text: Bytes) -> Result<Texts, AllocError>
    ensures { IfOk result (λ more. more ≡ texts ++ text ∷ []) }
{
    let mut texts = texts;
    texts.push(text)?;
    Ok(texts)
}

fn one_session(alloc: Global, number: u32, texts: Texts) -> Result<Sessions, AllocError>
    ensures { IfOk result (λ sessions. sessions ≡ record { number = number; texts = texts } ∷ []) }
{
    let mut sessions = Sessions::new(alloc);
    sessions.push(Session { number, texts })?;
    Ok(sessions)
}

// The script that was read, where it has its end.
fn script_read(alloc: Global, reading: Reading) -> Option<Script>
    ensures { result ≡ script_read reading }
{
    match reading {
        Reading::Ended(setup, sessions) => Some(Script {
            setup,
            sessions,
            words: Words::new(alloc),
            stop: false,
        }),
        _ => None,
    }
}
