//! Statements.

ghost use Rattle.std.specs.Prelude.{◌≡◌, List, IfOk};
ghost use Rattle.isp_sql.specs.Grammar.{IsStatement};
ghost use Rattle.isp_sql.specs.Laws.{IsRead};
ghost use Rattle.isp_sql.specs.declared.parsed.Parsed.{Parsed};
ghost use Rattle.isp_tokens.specs.OneToken.{Reads, Outcome};
ghost use Rattle.isp_sql.specs.Reading.{IsParsed, insert_at, shown_at, select_at, set_at, update_at, delete_at, transaction_at, change_at, statement_at, parsed_in, parsed_of};
ghost use Rattle.isp_tokens.specs.declared.token.Token.{Token};

use crate::condition::condition;
use crate::definition::create;
use crate::members::{Going, Item, list};
use crate::parsed::{Names, Parsed, ParsedSet};
use crate::value::{OneName, OneRow, literal};
use isp_tokens::{Cursor, SqlError, Symbol, Token, Word, tokens_of};
use std::alloc::Global;

// What UPDATE sets a column to.
#[derive(Clone, Copy)]
struct OneSet;

impl Item for OneSet {
    type Out = ParsedSet;

    ghost item_at = { λ _. set_at };

    #[tactic(auto, unfolding(crate::specs::Reading::set_at))]
    fn read(&self, alloc: Global, from: &mut Cursor<'_>) -> Result<ParsedSet, SqlError> {
        let column = from.name(alloc)?;
        from.equal()?;
        let v = literal(alloc, from)?;
        Ok(ParsedSet { column, v })
    }
}

// What stands behind INSERT.
#[tactic(auto, unfolding(crate::specs::Reading::insert_at))]
fn insert(alloc: Global, from: &mut Cursor<'_>) -> Result<Parsed, SqlError>
    ensures { Reads result (insert_at from.old) from.new }
{
    from.word(Word::Into)?;
    let table = from.name(alloc)?;
    from.word(Word::Values)?;
    let rows = list(alloc, from, Going::Comma, &OneRow)?;
    Ok(Parsed::Insert { table, rows })
}

// The columns that are shown, None for all.
#[tactic(auto, unfolding(crate::specs::Reading::shown_at))]
fn shown(alloc: Global, from: &mut Cursor<'_>) -> Result<Option<Names>, SqlError>
    ensures { Reads result (shown_at from.old) from.new }
{
    if from.begins_symbol(Symbol::Star) {
        from.skip();
        return Ok(None);
    }
    Ok(Some(list(alloc, from, Going::Comma, &OneName)?))
}

// What stands behind SELECT.
#[tactic(auto, unfolding(crate::specs::Reading::select_at))]
fn select(alloc: Global, from: &mut Cursor<'_>) -> Result<Parsed, SqlError>
    ensures { Reads result (select_at from.old) from.new }
{
    let columns = shown(alloc, from)?;
    from.word(Word::From)?;
    let table = from.name(alloc)?;
    let w = condition(alloc, from)?;
    Ok(Parsed::Select { table, columns, w })
}

// What stands behind UPDATE.
#[tactic(auto, unfolding(crate::specs::Reading::update_at))]
fn update(alloc: Global, from: &mut Cursor<'_>) -> Result<Parsed, SqlError>
    ensures { Reads result (update_at from.old) from.new }
{
    let table = from.name(alloc)?;
    from.word(Word::Set)?;
    let sets = list(alloc, from, Going::Comma, &OneSet)?;
    let w = condition(alloc, from)?;
    Ok(Parsed::Update { table, sets, w })
}

// What stands behind DELETE.
#[tactic(auto, unfolding(crate::specs::Reading::delete_at))]
fn delete(alloc: Global, from: &mut Cursor<'_>) -> Result<Parsed, SqlError>
    ensures { Reads result (delete_at from.old) from.new }
{
    from.word(Word::From)?;
    let table = from.name(alloc)?;
    let w = condition(alloc, from)?;
    Ok(Parsed::Delete { table, w })
}

// A statement that begins or ends a transaction.
#[tactic(auto, unfolding(crate::specs::Reading::transaction_at))]
fn transaction(from: &mut Cursor<'_>) -> Result<Parsed, SqlError>
    ensures { Reads result (transaction_at from.old) from.new }
{
    if from.begins_word(Word::Begin) {
        from.skip();
        return Ok(Parsed::Begin);
    }
    if from.begins_word(Word::Start) {
        from.skip();
        from.word(Word::Transaction)?;
        return Ok(Parsed::Begin);
    }
    if from.begins_word(Word::Commit) {
        from.skip();
        return Ok(Parsed::Commit);
    }
    from.word(Word::Rollback)?;
    Ok(Parsed::Rollback)
}

// A statement that changes rows there, or begins or ends a transaction.
#[tactic(auto, unfolding(crate::specs::Reading::change_at))]
fn change(alloc: Global, from: &mut Cursor<'_>) -> Result<Parsed, SqlError>
    ensures { Reads result (change_at from.old) from.new }
{
    if from.begins_word(Word::Update) {
        from.skip();
        return update(alloc, from);
    }
    if from.begins_word(Word::Delete) {
        from.skip();
        return delete(alloc, from);
    }
    transaction(from)
}

#[tactic(auto, unfolding(crate::specs::Reading::statement_at))]
fn statement(alloc: Global, from: &mut Cursor<'_>) -> Result<Parsed, SqlError>
    ensures { Reads result (statement_at from.old) from.new }
{
    if from.begins_word(Word::Create) {
        from.skip();
        return create(alloc, from);
    }
    if from.begins_word(Word::Insert) {
        from.skip();
        return insert(alloc, from);
    }
    if from.begins_word(Word::Select) {
        from.skip();
        return select(alloc, from);
    }
    change(alloc, from)
}

// The statement that all the tokens are.
#[tactic(auto, unfolding(crate::specs::Reading::parsed_in))]
fn parsed_in(alloc: Global, tokens: &[Token]) -> Result<Parsed, SqlError>
    ensures { IsParsed result (parsed_in tokens.now) }
{
    let mut from = Cursor::new(tokens);
    let parsed = statement(alloc, &mut from)?;
    if from.len() == 0 {
        Ok(parsed)
    } else {
        Err(SqlError::Syntax)
    }
}

// The statement that a text is.
#[tactic(auto, unfolding(crate::specs::Reading::parsed_of))]
fn read(alloc: Global, text: &[u8]) -> Result<Parsed, SqlError>
    ensures { IsParsed result (parsed_of text.now) }
{
    let Some(tokens) = tokens_of(alloc, text)? else {
        return Err(SqlError::Syntax);
    };
    parsed_in(alloc, tokens.as_slice())
}

/// The statement that a text is. Syntax comes exactly where the text is not in the grammar; OutOfMemory is want of
/// memory.
pub fn parse(alloc: Global, text: &[u8]) -> Result<Parsed, SqlError>
    // What is read is what the text says.
    ensures found { IfOk result (λ p. IsStatement p text.now) }
    // A text that is a statement is read, unless memory runs out.
    ensures only { (p : Parsed) → IsStatement p text.now → IsRead result p }
    // The same by a function that computes.
    ensures exact { IsParsed result (parsed_of text.now) }
{
    read(alloc, text)
}
