//! The tokens of a statement that are left to read.

ghost use Rattle.std.specs.Prelude.{◌≡◌, ◌<◌, ◌^◌, length, drop};
ghost use Rattle.isp_tokens.specs.OneToken.{Reads, begins_word, begins_symbol, begins_name, begins_digits, begins_column, word_at, symbol_at, name_at, text_at, digits_at, zero_at, op_at, equal_at, test_at};

use crate::error::SqlError;
use crate::token::{Symbol, Token, is_symbol};
use crate::words::{Word, is_word, test_of};
use isp_base::{Bytes, Duplicate, Name};
use isp_mbr::Test;
use isp_plain::Op;
use std::alloc::Global;
use std::marker::Model;

/// The tokens of a statement that are left to read.
#[derive(Drop)]
pub struct Cursor<'a> {
    rest: &'a [Token],
}

impl<'a> Model for Cursor<'a> {
    ghost use Rattle.std.specs.Prelude.{List};
    ghost use Rattle.isp_tokens.specs.declared.token.Token.{Token};

    ghost Value = { List Token };

    ghost view = { λ c. c.rest.now };
}

impl<'a> Cursor<'a> {
    /// All of these tokens are left to read.
    pub fn new(tokens: &'a [Token]) -> Cursor<'a>
        ensures { result ≡ tokens.entry.now }
    {
        Cursor { rest: tokens }
    }

    /// How many tokens are left to read.
    pub fn len(&self) -> usize
        ensures value { result ≡ length self.now }
        ensures small { result < 2 ^ 63 }
    {
        self.rest.len()
    }

    /// Goes over one token.
    pub fn skip(&mut self)
        ensures { self.new ≡ drop 1 self.old }
    {
        match self.rest {
            [_, rest @ ..] => self.rest = rest,
            [] => {}
        }
    }

    /// Whether this word is next.
    pub fn begins_word(&self, wanted: Word) -> bool
        ensures { result ≡ begins_word wanted self.now }
    {
        match self.rest {
            [Token::Word(word), ..] => is_word(*word, wanted),
            _ => false,
        }
    }

    /// Whether this symbol is next.
    pub fn begins_symbol(&self, wanted: Symbol) -> bool
        ensures { result ≡ begins_symbol wanted self.now }
    {
        match self.rest {
            [Token::Symbol(symbol), ..] => is_symbol(*symbol, wanted),
            _ => false,
        }
    }

    /// Whether a name is next.
    pub fn begins_name(&self) -> bool
        ensures { result ≡ begins_name self.now }
    {
        match self.rest {
            [Token::Name(_), ..] => true,
            _ => false,
        }
    }

    /// Whether digits are next.
    pub fn begins_digits(&self) -> bool
        ensures { result ≡ begins_digits self.now }
    {
        match self.rest {
            [Token::Digits(_), ..] => true,
            _ => false,
        }
    }

    /// Whether a comma and a name are next.
    pub fn begins_column(&self) -> bool
        ensures { result ≡ begins_column self.now }
    {
        match self.rest {
            [Token::Symbol(Symbol::Comma), Token::Name(_), ..] => true,
            _ => false,
        }
    }

    /// Goes over this word, or answers Syntax where it isn't there. So do the calls below.
    pub fn word(&mut self, wanted: Word) -> Result<(), SqlError>
        ensures { Reads result (word_at wanted self.old) self.new }
    {
        if self.begins_word(wanted) {
            self.skip();
            return Ok(());
        }
        Err(SqlError::Syntax)
    }

    /// Goes over this symbol.
    pub fn symbol(&mut self, wanted: Symbol) -> Result<(), SqlError>
        ensures { Reads result (symbol_at wanted self.old) self.new }
    {
        if self.begins_symbol(wanted) {
            self.skip();
            return Ok(());
        }
        Err(SqlError::Syntax)
    }

    /// A name. Syntax comes where none stands there, also in the calls below; the other error is want of memory.
    pub fn name(&mut self, alloc: Global) -> Result<Name, SqlError>
        ensures { Reads result (name_at self.old) self.new }
    {
        match self.rest {
            [Token::Name(name), rest @ ..] => {
                self.rest = rest;
                Ok(name.copy(alloc)?)
            }
            _ => Err(SqlError::Syntax),
        }
    }

    /// A string.
    pub fn text(&mut self, alloc: Global) -> Result<Bytes, SqlError>
        ensures { Reads result (text_at self.old) self.new }
    {
        match self.rest {
            [Token::Text(text), rest @ ..] => {
                self.rest = rest;
                Ok(text.copy(alloc)?)
            }
            _ => Err(SqlError::Syntax),
        }
    }

    /// The digits of a number.
    pub fn digits(&mut self, alloc: Global) -> Result<Bytes, SqlError>
        ensures { Reads result (digits_at self.old) self.new }
    {
        match self.rest {
            [Token::Digits(digits), rest @ ..] => {
                self.rest = rest;
                Ok(digits.copy(alloc)?)
            }
            _ => Err(SqlError::Syntax),
        }
    }

    /// Goes over the digit 0 alone.
    pub fn zero(&mut self) -> Result<(), SqlError>
        ensures { Reads result (zero_at self.old) self.new }
    {
        match self.rest {
            [Token::Digits(digits), rest @ ..] => {
                if digits.as_slice() == b"0".as_slice() {
                    self.rest = rest;
                    return Ok(());
                }
                Err(SqlError::Syntax)
            }
            _ => Err(SqlError::Syntax),
        }
    }

    /// A comparison.
    pub fn op(&mut self) -> Result<Op, SqlError>
        ensures { Reads result (op_at self.old) self.new }
    {
        match self.rest {
            [Token::Op(op), rest @ ..] => {
                self.rest = rest;
                Ok(*op)
            }
            _ => Err(SqlError::Syntax),
        }
    }

    /// Goes over `=`.
    pub fn equal(&mut self) -> Result<(), SqlError>
        ensures { Reads result (equal_at self.old) self.new }
    {
        match self.rest {
            [Token::Op(Op::Eq), rest @ ..] => {
                self.rest = rest;
                Ok(())
            }
            _ => Err(SqlError::Syntax),
        }
    }

    /// The name of a function that tests two boxes: the test that it is where its first argument is the column.
    pub fn test(&mut self) -> Result<Test, SqlError>
        ensures { Reads result (test_at self.old) self.new }
    {
        match self.rest {
            [Token::Word(word), rest @ ..] => match test_of(*word) {
                Some(test) => {
                    self.rest = rest;
                    Ok(test)
                }
                None => Err(SqlError::Syntax),
            },
            _ => Err(SqlError::Syntax),
        }
    }
}
