//! Names, numbers, strings and geometries in a statement.

ghost use Rattle.std.specs.Prelude.{◌≡◌, List, true, false};
ghost use Rattle.isp_tokens.specs.OneToken.{Reads, Outcome, name_at};
ghost use Rattle.isp_sql.specs.Reading.{plain_at, system_at, geometry_at, literal_at, row_at};
ghost use Rattle.isp_tokens.specs.declared.token.Token.{Token};

use crate::members::{Going, Item, list};
use crate::parsed::{Literal, Literals};
use isp_base::{Bytes, Name};
use isp_tokens::{Cursor, SqlError, Symbol, Word};
use std::alloc::Global;

/// A name in a list.
#[derive(Clone, Copy)]
pub struct OneName;

/// A value of a row.
#[derive(Clone, Copy)]
pub struct OneLiteral;

/// A row of an INSERT.
#[derive(Clone, Copy)]
pub struct OneRow;

impl Item for OneName {
    type Out = Name;

    ghost item_at = { λ _. name_at };

    fn read(&self, alloc: Global, from: &mut Cursor<'_>) -> Result<Name, SqlError> {
        from.name(alloc)
    }
}

impl Item for OneLiteral {
    type Out = Literal;

    ghost item_at = { λ _. literal_at };

    fn read(&self, alloc: Global, from: &mut Cursor<'_>) -> Result<Literal, SqlError> {
        literal(alloc, from)
    }
}

impl Item for OneRow {
    type Out = Literals;

    ghost item_at = { λ _. row_at };

    fn read(&self, alloc: Global, from: &mut Cursor<'_>) -> Result<Literals, SqlError> {
        row(alloc, from)
    }
}

/// A number or a string. Syntax comes where neither stands there.
#[tactic(auto, unfolding(crate::specs::Reading::plain_at))]
pub fn plain(alloc: Global, from: &mut Cursor<'_>) -> Result<Literal, SqlError>
    ensures { Reads result (plain_at from.old) from.new }
{
    if from.begins_symbol(Symbol::Minus) {
        from.skip();
        let digits = from.digits(alloc)?;
        return Ok(Literal::Number {
            minus: true,
            digits,
        });
    }
    if from.begins_digits() {
        let digits = from.digits(alloc)?;
        return Ok(Literal::Number {
            minus: false,
            digits,
        });
    }
    Ok(Literal::Text(from.text(alloc)?))
}

// The second argument of ST_GeomFromText, where there is one.
#[tactic(auto, unfolding(crate::specs::Reading::system_at))]
fn system(from: &mut Cursor<'_>) -> Result<(), SqlError>
    ensures { Reads result (system_at from.old) from.new }
{
    if from.begins_symbol(Symbol::Comma) {
        from.skip();
        return from.zero();
    }
    Ok(())
}

/// The text of a geometry, by ST_GeomFromText. Syntax comes where none stands there.
#[tactic(auto, unfolding(crate::specs::Reading::geometry_at))]
pub fn geometry(alloc: Global, from: &mut Cursor<'_>) -> Result<Bytes, SqlError>
    ensures { Reads result (geometry_at from.old) from.new }
{
    from.word(Word::GeomFromText)?;
    from.symbol(Symbol::Open)?;
    let text = from.text(alloc)?;
    system(from)?;
    from.symbol(Symbol::Close)?;
    Ok(text)
}

/// A number, a string or a geometry. Syntax comes where none stands there.
#[tactic(auto, unfolding(crate::specs::Reading::literal_at))]
pub fn literal(alloc: Global, from: &mut Cursor<'_>) -> Result<Literal, SqlError>
    ensures { Reads result (literal_at from.old) from.new }
{
    if from.begins_word(Word::GeomFromText) {
        return Ok(Literal::Wkt(geometry(alloc, from)?));
    }
    plain(alloc, from)
}

// Values in parentheses.
#[tactic(auto, unfolding(crate::specs::Reading::row_at))]
fn row(alloc: Global, from: &mut Cursor<'_>) -> Result<Literals, SqlError>
    ensures { Reads result (row_at from.old) from.new }
{
    from.symbol(Symbol::Open)?;
    let values = list(alloc, from, Going::Comma, &OneLiteral)?;
    from.symbol(Symbol::Close)?;
    Ok(values)
}
