//! The lines of a script, and what each of them says.

ghost use Rattle.std.specs.Prelude.{◌≡◌, ◌==◌, ◌≤◌, ◌<◌, ◌∷◌, length, IfOk, IfSome};
ghost use Rattle.std.specs.List.{position};
ghost use Rattle.isp_script.specs.Lines.{lines_of, line_of, content_of, is_blank, without_return, trimmed_length, word_of, session_of, setup_word, schedule_word, end_word, session_word};

use isp_mbr::Bytes;
use std::alloc::{AllocError, Global};

/// What a line says that is neither blank nor a comment.
#[derive(Drop)]
pub enum Line {
    Setup,
    /// A statement, with its text.
    Statement(Bytes),
    /// The beginning of the session of this number.
    Session(u32),
    Schedule,
    End,
    /// None of these.
    Other,
}

// A line has at most so many bytes.
const MOST_BYTES: usize = 65_536;

/// The first line of bytes, and the bytes behind it and its line feed.
pub fn first_line(bytes: &[u8]) -> (&[u8], &[u8])
    requires { 0 < length bytes.now }
    ensures lines { lines_of bytes.now ≡ result.0.now ∷ lines_of result.1.now }
    ensures shorter { length result.1.now < length bytes.now }
{
    match feed_of(bytes) {
        Some(end) => (&bytes[..end], &bytes[end + 1..]),
        None => (bytes, &bytes[bytes.len()..]),
    }
}

// The first line feed.
fn feed_of(bytes: &[u8]) -> Option<usize>
    ensures place { result ≡ position (λ b. b == 10) bytes.now }
    ensures within { IfSome result (λ place. place < length bytes.now) }
{
    bytes.iter().position(|b| *b == b'\n')
}

/// What a line says, given without its line feed: None where it is blank or a comment. The error is want of memory.
pub fn line_of(alloc: Global, bytes: &[u8]) -> Result<Option<Line>, AllocError>
    ensures { IfOk result (λ line. line ≡ line_of bytes.now) }
{
    if bytes.len() > MOST_BYTES {
        return Ok(Some(Line::Other));
    }
    content_of(alloc, without_return(bytes))
}

fn without_return(bytes: &[u8]) -> &[u8]
    ensures { result.now ≡ without_return bytes.now }
{
    match bytes {
        [front @ .., b'\r'] => front,
        _ => bytes,
    }
}

fn content_of(alloc: Global, bytes: &[u8]) -> Result<Option<Line>, AllocError>
    ensures { IfOk result (λ line. line ≡ content_of bytes.now) }
{
    let n = trimmed_length(bytes);
    if n == 0 || bytes[0] == b'#' {
        return Ok(None);
    }
    if bytes[n - 1] == b';' {
        let text = Bytes::from_slice(alloc, &bytes[..n - 1])?;
        return Ok(Some(Line::Statement(text)));
    }
    Ok(Some(word_of(bytes)))
}

// A space or a tab.
fn is_blank(b: u8) -> bool
    ensures { result ≡ is_blank b }
{
    b == b' ' || b == b'\t'
}

// How long the line is without the blanks at its end.
fn trimmed_length(bytes: &[u8]) -> usize
    ensures value { result ≡ trimmed_length bytes.now }
    ensures within { result ≤ length bytes.now }
{
    let mut n = bytes.len();
    while n > 0 && is_blank(bytes[n - 1]) {
        n -= 1;
    }
    n
}

#[tactic(auto, unfolding(crate::specs::Lines::setup_word, crate::specs::Lines::schedule_word, crate::specs::Lines::end_word, crate::specs::Lines::session_word))]
fn word_of(bytes: &[u8]) -> Line
    ensures { result ≡ word_of bytes.now }
{
    if bytes == b"setup".as_slice() {
        return Line::Setup;
    }
    if bytes == b"schedule".as_slice() {
        return Line::Schedule;
    }
    if bytes == b"end".as_slice() {
        return Line::End;
    }
    match bytes.strip_prefix(b"session ") {
        Some(digits) => session_of(digits),
        None => Line::Other,
    }
}

fn session_of(digits: &[u8]) -> Line
    ensures { result ≡ session_of digits.now }
{
    match digits {
        [a @ b'1'..=b'9'] => Line::Session(u32::from(*a - b'0')),
        [b'1', b @ b'0'..=b'6'] => Line::Session(u32::from(*b - b'0') + 10),
        _ => Line::Other,
    }
}
