//! The tokens of a statement's text.

ghost use Rattle.std.specs.Prelude.{◌≡◌, [], ◌∷◌, ◌++◌, IfOk};
ghost use Rattle.std.specs.Option.{option_to_list};
ghost use Rattle.isp_tokens.specs.Tokens.{is_blank, is_letter, is_name_byte, is_control, is_symbol, worded};
ghost use Rattle.isp_tokens.specs.Scanning.{symbol_of, op_of, longer, begin, begun_by, step, in_text, ended, scan, tokens_of, onto};
ghost use Rattle.isp_tokens.specs.declared.token.Begun.TheVariants as begun;

use crate::words::{Word, word_of};
use isp_base::Bytes;
use isp_plain::Op;
use sqlite_items::Items;
use std::alloc::{AllocError, Global};

/// A byte that is a token by itself and no comparison: `( ) , * -`.
#[derive(Clone, Copy, PartialEq, Eq)]
pub enum Symbol {
    Open,
    Close,
    Comma,
    Star,
    Minus,
}

/// A token: a word of the grammar, a name, the digits of a number, what stands between the quotes of a string with `''`
/// read as one quote, a comparison, or a symbol.
#[derive(Drop)]
pub enum Token {
    Word(Word),
    Name(Bytes),
    Digits(Bytes),
    Text(Bytes),
    Op(Op),
    Symbol(Symbol),
}

/// Tokens, in their order.
pub type Tokens = Items<Token>;

/// What the bytes behind the last whole token have begun. `Quote` is a string behind a quote that may end it, `Bang` a
/// `!` behind which `=` has to follow. `Op` may be the front of a longer one.
#[derive(Drop)]
pub enum Begun {
    Nothing,
    Word(Bytes),
    Digits(Bytes),
    Text(Bytes),
    Quote(Bytes),
    Op(Op),
    Bang,
    Symbol(Symbol),
    Failed,
}

/// One byte further: the token that ended before the byte, if one did, and what has begun now.
#[derive(Drop)]
pub struct Next {
    pub whole: Option<Token>,
    pub begun: Begun,
}

/// The tokens of a text: None where it has a byte that is in no token, or a string that doesn't end. The error is want
/// of memory.
pub fn tokens_of(alloc: Global, text: &[u8]) -> Result<Option<Tokens>, AllocError>
    ensures { IfOk result (λ tokens. tokens ≡ tokens_of text.now) }
{
    let mut tokens = Tokens::new(alloc);
    let mut begun = Begun::Nothing;
    for b in text {
        let next = step(alloc, begun, *b)?;
        tokens = with_whole(tokens, next.whole)?;
        begun = next.begun;
    }
    with_ended(tokens, begun)
}

// The tokens with the one that ended.
fn with_whole(tokens: Tokens, whole: Option<Token>) -> Result<Tokens, AllocError>
    ensures { IfOk result (λ more. more ≡ tokens ++ option_to_list whole) }
{
    let mut tokens = tokens;
    match whole {
        Some(token) => {
            tokens.push(token)?;
            Ok(tokens)
        }
        None => Ok(tokens),
    }
}

// All tokens, where the text ends here.
fn with_ended(tokens: Tokens, begun: Begun) -> Result<Option<Tokens>, AllocError>
    ensures { IfOk result (λ all. all ≡ onto tokens (ended begun)) }
{
    match begun {
        Begun::Nothing => Ok(Some(tokens)),
        Begun::Word(word) => with_last(tokens, worded(word)),
        Begun::Digits(digits) => with_last(tokens, Token::Digits(digits)),
        Begun::Quote(text) => with_last(tokens, Token::Text(text)),
        Begun::Op(op) => with_last(tokens, Token::Op(op)),
        Begun::Symbol(symbol) => with_last(tokens, Token::Symbol(symbol)),
        Begun::Text(_) | Begun::Bang | Begun::Failed => Ok(None),
    }
}

fn with_last(tokens: Tokens, last: Token) -> Result<Option<Tokens>, AllocError>
    ensures { IfOk result (λ all. all ≡ onto tokens (Some (last ∷ []))) }
{
    let mut tokens = tokens;
    tokens.push(last)?;
    Ok(Some(tokens))
}

// A word of the grammar, or a name.
fn worded(word: Bytes) -> Token
    ensures { result ≡ worded word }
{
    match word_of(word.as_slice()) {
        Some(known) => Token::Word(known),
        None => Token::Name(word),
    }
}

// One byte further.
fn step(alloc: Global, begun: Begun, b: u8) -> Result<Next, AllocError>
    ensures { IfOk result (λ next. next ≡ step begun b) }
{
    match begun {
        Begun::Nothing => begins(alloc, None, b),
        Begun::Word(word) => in_word(alloc, word, b),
        Begun::Digits(digits) => in_digits(alloc, digits, b),
        Begun::Text(text) => Ok(goes_on(in_text(text, b)?)),
        Begun::Quote(text) => at_quote(alloc, text, b),
        Begun::Op(op) => in_op(alloc, op, b),
        Begun::Bang => Ok(goes_on(behind_bang(b))),
        Begun::Symbol(symbol) => begins(alloc, Some(Token::Symbol(symbol)), b),
        Begun::Failed => Ok(goes_on(Begun::Failed)),
    }
}

// No token ended.
fn goes_on(begun: Begun) -> Next
    ensures { result ≡ record { whole = None; begun = begun } }
{
    Next { whole: None, begun }
}

// The token ended, and the byte begins one or stands between two.
fn begins(alloc: Global, whole: Option<Token>, b: u8) -> Result<Next, AllocError>
    ensures { IfOk result (λ next. next ≡ record { whole = whole; begun = begin b }) }
{
    let begun = begin(alloc, b)?;
    Ok(Next { whole, begun })
}

fn in_word(alloc: Global, word: Bytes, b: u8) -> Result<Next, AllocError>
    ensures { IfOk result (λ next. next ≡ step (begun.Word word) b) }
{
    if is_name_byte(b) {
        return Ok(goes_on(Begun::Word(with_byte(word, b)?)));
    }
    begins(alloc, Some(worded(word)), b)
}

fn in_digits(alloc: Global, digits: Bytes, b: u8) -> Result<Next, AllocError>
    ensures { IfOk result (λ next. next ≡ step (begun.Digits digits) b) }
{
    if b.is_ascii_digit() {
        return Ok(goes_on(Begun::Digits(with_byte(digits, b)?)));
    }
    begins(alloc, Some(Token::Digits(digits)), b)
}

fn in_text(text: Bytes, b: u8) -> Result<Begun, AllocError>
    ensures { IfOk result (λ next. next ≡ in_text text b) }
{
    if b == b'\'' {
        return Ok(Begun::Quote(text));
    }
    if is_control(b) {
        return Ok(Begun::Failed);
    }
    Ok(Begun::Text(with_byte(text, b)?))
}

fn at_quote(alloc: Global, text: Bytes, b: u8) -> Result<Next, AllocError>
    ensures { IfOk result (λ next. next ≡ step (begun.Quote text) b) }
{
    if b == b'\'' {
        return Ok(goes_on(Begun::Text(with_byte(text, b)?)));
    }
    begins(alloc, Some(Token::Text(text)), b)
}

fn in_op(alloc: Global, op: Op, b: u8) -> Result<Next, AllocError>
    ensures { IfOk result (λ next. next ≡ step (begun.Op op) b) }
{
    match longer(op, b) {
        Some(longer) => Ok(goes_on(Begun::Op(longer))),
        None => begins(alloc, Some(Token::Op(op)), b),
    }
}

// The comparison that this one and the byte behind it are.
fn longer(op: Op, b: u8) -> Option<Op>
    ensures { result ≡ longer op b }
{
    match op {
        Op::Lt => behind_less(b),
        Op::Gt => behind_greater(b),
        _ => None,
    }
}

fn behind_less(b: u8) -> Option<Op>
    ensures { result ≡ longer Op.Lt b }
{
    if b == b'=' {
        return Some(Op::Le);
    }
    if b == b'>' {
        return Some(Op::Ne);
    }
    None
}

fn behind_greater(b: u8) -> Option<Op>
    ensures { result ≡ longer Op.Gt b }
{
    if b == b'=' { Some(Op::Ge) } else { None }
}

fn behind_bang(b: u8) -> Begun
    ensures { (step begun.Bang b) ≡ record { whole = None; begun = result } }
{
    if b == b'=' {
        Begun::Op(Op::Ne)
    } else {
        Begun::Failed
    }
}

// What a byte begins behind a whole token.
fn begin(alloc: Global, b: u8) -> Result<Begun, AllocError>
    ensures { IfOk result (λ begun. begun ≡ begin b) }
{
    if let Some(symbol) = symbol_of(b) {
        return Ok(Begun::Symbol(symbol));
    }
    if let Some(op) = op_of(b) {
        return Ok(Begun::Op(op));
    }
    begun_by(alloc, b)
}

// What a byte begins that is no symbol and no comparison.
fn begun_by(alloc: Global, b: u8) -> Result<Begun, AllocError>
    ensures { IfOk result (λ begun. begun ≡ begun_by b) }
{
    if is_blank(b) {
        return Ok(Begun::Nothing);
    }
    if is_letter(b) {
        return Ok(Begun::Word(with_byte(Bytes::new(alloc), b)?));
    }
    if b.is_ascii_digit() {
        return Ok(Begun::Digits(with_byte(Bytes::new(alloc), b)?));
    }
    if b == b'\'' {
        return Ok(Begun::Text(Bytes::new(alloc)));
    }
    if b == b'!' {
        return Ok(Begun::Bang);
    }
    Ok(Begun::Failed)
}

fn symbol_of(b: u8) -> Option<Symbol>
    ensures { result ≡ symbol_of b }
{
    match b {
        b'(' => Some(Symbol::Open),
        b')' => Some(Symbol::Close),
        b',' => Some(Symbol::Comma),
        b'*' => Some(Symbol::Star),
        b'-' => Some(Symbol::Minus),
        _ => None,
    }
}

fn op_of(b: u8) -> Option<Op>
    ensures { result ≡ op_of b }
{
    match b {
        b'=' => Some(Op::Eq),
        b'<' => Some(Op::Lt),
        b'>' => Some(Op::Gt),
        _ => None,
    }
}

fn with_byte(bytes: Bytes, b: u8) -> Result<Bytes, AllocError>
    ensures { IfOk result (λ more. more ≡ bytes ++ b ∷ []) }
{
    let mut bytes = bytes;
    bytes.push(b)?;
    Ok(bytes)
}

fn is_blank(b: u8) -> bool
    ensures { result ≡ is_blank b }
{
    b == b' ' || b == b'\t'
}

fn is_letter(b: u8) -> bool
    ensures { result ≡ is_letter b }
{
    b.is_ascii_alphabetic() || b == b'_'
}

fn is_name_byte(b: u8) -> bool
    ensures { result ≡ is_name_byte b }
{
    is_letter(b) || b.is_ascii_digit()
}

fn is_control(b: u8) -> bool
    ensures { result ≡ is_control b }
{
    (b < 32 && b != b'\t') || b == 127
}

/// Whether it is this symbol.
#[tactic(auto, unfolding(crate::specs::Tokens::is_symbol))]
pub fn is_symbol(symbol: Symbol, wanted: Symbol) -> bool
    ensures { result ≡ is_symbol symbol wanted }
{
    symbol == wanted
}
