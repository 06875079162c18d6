//! The bytes of a text that are left to read.

ghost use Rattle.std.specs.Prelude.{◌≡◌, ◌≤◌, ◌<◌, ◌^◌, length, drop, Err};
ghost use Rattle.isp_wkt.specs.Reading.{Reads, skipped, is_blank, is_e, blank_at, inside_at, paren_at, open_at, deep_paren_at, comma_at, more_at, shut_at, close_at, fault, word_in, unknown_at};
ghost use Rattle.isp_wkt.specs.Words.{upper, common, word};

use crate::cause::{Fault, WktCause};
use crate::kind::{Kind, word};
use std::marker::Model;

/// The bytes of a text that are left to read.
#[derive(Drop)]
pub struct Cursor<'a> {
    pub rest: &'a [u8],
}

impl<'a> Model for Cursor<'a> {
    ghost use Rattle.std.specs.Prelude.{List, ℕ};

    ghost Value = { List ℕ };

    ghost view = { λ c. c.rest.now };
}

/// Whether the byte is a blank: a space or a tab.
pub fn is_blank(b: u8) -> bool
    ensures { result ≡ is_blank b }
{
    b == b' ' || b == b'\t'
}

/// Whether the byte is `E` or `e`.
pub fn is_e(b: u8) -> bool
    ensures { result ≡ is_e b }
{
    b == b'E' || b == b'e'
}

// What is left behind the blanks at the front.
fn skipped(bytes: &[u8]) -> &[u8]
    ensures { result.now ≡ skipped bytes.now }
{
    for (i, b) in bytes.iter().enumerate() {
        if !is_blank(*b) {
            return &bytes[i..];
        }
    }
    &[]
}

impl<'a> Cursor<'a> {
    /// All bytes of a text.
    pub fn new(text: &'a [u8]) -> Cursor<'a>
        ensures { result ≡ text.entry.now }
    {
        Cursor { rest: text }
    }

    /// How many bytes are left.
    pub fn len(&self) -> usize
        ensures value { result ≡ length self.now }
        ensures small { result < 2 ^ 63 }
    {
        self.rest.len()
    }

    /// Goes over blanks.
    pub fn skip(&mut self)
        ensures { self.new ≡ skipped self.old }
    {
        self.rest = skipped(self.rest);
    }

    /// A fault at the next byte.
    pub fn fault(&self, cause: WktCause) -> Fault
        ensures { result ≡ record { cause = cause; left = length self.now } }
    {
        Fault {
            cause,
            left: self.rest.len(),
        }
    }

    /// Goes over one blank or more.
    pub fn blank(&mut self) -> Result<(), Fault>
        ensures { Reads result (blank_at self.old) self.new }
    {
        match self.rest {
            [b, rest @ ..] if is_blank(*b) => {
                self.rest = skipped(rest);
                Ok(())
            }
            [_, ..] => Err(self.fault(WktCause::Unknown)),
            [] => Err(self.fault(WktCause::Truncated)),
        }
    }

    /// Goes over an opening parenthesis and the blanks round it. `nothing` is the cause where the closing one follows.
    pub fn open(&mut self, nothing: WktCause) -> Result<(), Fault>
        ensures { Reads result (open_at nothing self.old) self.new }
    {
        self.skip();
        self.paren(nothing)
    }

    fn paren(&mut self, nothing: WktCause) -> Result<(), Fault>
        ensures { Reads result (paren_at nothing self.old) self.new }
    {
        match self.rest {
            [b'(', rest @ ..] => {
                self.rest = skipped(rest);
                self.inside(nothing)
            }
            [b, ..] if is_e(*b) => Err(self.fault(WktCause::Empty)),
            [_, ..] => Err(self.fault(WktCause::Unknown)),
            [] => Err(self.fault(WktCause::Truncated)),
        }
    }

    // Whether something stands in the parentheses.
    fn inside(&self, nothing: WktCause) -> Result<(), Fault>
        ensures { Reads result (inside_at nothing self.now) self.now }
    {
        match self.rest {
            [b')', ..] => Err(self.fault(nothing)),
            _ => Ok(()),
        }
    }

    /// The fault at the parenthesis of a ninth collection, or before it.
    pub fn too_deep(&mut self) -> Fault
        ensures { deep_paren_at (skipped self.old) ≡ Err result }
    {
        self.skip();
        match self.rest {
            [b'(', ..] => self.fault(WktCause::TooDeep),
            [b, ..] if is_e(*b) => self.fault(WktCause::Empty),
            [_, ..] => self.fault(WktCause::Unknown),
            [] => self.fault(WktCause::Truncated),
        }
    }

    /// Whether a list goes on: goes over a comma and blanks, or over the closing parenthesis.
    pub fn more(&mut self) -> Result<bool, Fault>
        ensures { Reads result (more_at self.old) self.new }
    {
        self.skip();
        self.comma()
    }

    fn comma(&mut self) -> Result<bool, Fault>
        ensures { Reads result (comma_at self.old) self.new }
    {
        match self.rest {
            [b',', rest @ ..] => {
                self.rest = skipped(rest);
                Ok(true)
            }
            [b')', rest @ ..] => {
                self.rest = rest;
                Ok(false)
            }
            [_, ..] => Err(self.fault(WktCause::Unknown)),
            [] => Err(self.fault(WktCause::Truncated)),
        }
    }

    /// Goes over a closing parenthesis and the blanks before it.
    pub fn close(&mut self) -> Result<(), Fault>
        ensures { Reads result (close_at self.old) self.new }
    {
        self.skip();
        self.shut()
    }

    fn shut(&mut self) -> Result<(), Fault>
        ensures { Reads result (shut_at self.old) self.new }
    {
        match self.rest {
            [b')', rest @ ..] => {
                self.rest = rest;
                Ok(())
            }
            [_, ..] => Err(self.fault(WktCause::Unknown)),
            [] => Err(self.fault(WktCause::Truncated)),
        }
    }

    /// The kind whose word stands there, or a fault behind the longest front of one.
    pub fn word(&mut self, kinds: &[Kind]) -> Result<Kind, Fault>
        ensures { Reads result (word_in kinds.now 0 self.old) self.new }
    {
        let mut most = 0;
        for kind in kinds {
            let count = common(word(*kind), self.rest);
            if count == word(*kind).len() {
                self.advance(count);
                return Ok(*kind);
            }
            most = most.max(count);
        }
        self.advance(most);
        Err(self.unknown())
    }

    // Goes over so many bytes.
    fn advance(&mut self, count: usize)
        requires { count ≤ length self.old }
        ensures { self.new ≡ drop count self.old }
    {
        self.rest = &self.rest[count..];
    }

    fn unknown(&self) -> Fault
        ensures { unknown_at self.now ≡ Err result }
    {
        match self.rest {
            [_, ..] => self.fault(WktCause::Unknown),
            [] => self.fault(WktCause::Truncated),
        }
    }
}

// A letter in upper case.
fn upper(b: u8) -> u8
    ensures { result ≡ upper b }
{
    if 97 <= b && b <= 122 { b - 32 } else { b }
}

// How many bytes at the front of a text are those of the word.
fn common(word: &[u8], bytes: &[u8]) -> usize
    ensures value { result ≡ common word.now bytes.now }
    ensures within { result ≤ length bytes.now }
{
    let mut count = 0;
    let mut rest = bytes;
    for w in word {
        match rest {
            [b, others @ ..] => {
                if upper(*b) != *w {
                    return count;
                }
                count += 1;
                rest = others;
            }
            [] => return count,
        }
    }
    count
}
