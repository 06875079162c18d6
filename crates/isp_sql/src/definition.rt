//! The definition of a table.

ghost use Rattle.std.specs.Prelude.{◌≡◌, List};
ghost use Rattle.isp_tokens.specs.OneToken.{Reads, Outcome};
ghost use Rattle.isp_sql.specs.Reading.{not_null_at, key_at, big_int_at, var_char_at, geo_at, kind_at, column_at, index_at, definition_at, create_at};
ghost use Rattle.isp_tokens.specs.declared.token.Token.{Token};

use crate::members::{Going, Item, more};
use crate::parsed::{Parsed, ParsedColumn, ParsedKind};
use isp_base::Name;
use isp_tokens::{Cursor, SqlError, Symbol, Word};
use std::alloc::Global;

// A column behind the key.
#[derive(Clone, Copy)]
struct OneColumn;

// A spatial index.
#[derive(Clone, Copy)]
struct OneIndex;

impl Item for OneColumn {
    type Out = ParsedColumn;

    ghost item_at = { λ _. column_at };

    #[tactic(auto, unfolding(crate::specs::Reading::column_at))]
    fn read(&self, alloc: Global, from: &mut Cursor<'_>) -> Result<ParsedColumn, SqlError> {
        let name = from.name(alloc)?;
        let kind = kind(alloc, from)?;
        Ok(ParsedColumn { name, kind })
    }
}

impl Item for OneIndex {
    type Out = Name;

    ghost item_at = { λ _. index_at };

    #[tactic(auto, unfolding(crate::specs::Reading::index_at))]
    fn read(&self, alloc: Global, from: &mut Cursor<'_>) -> Result<Name, SqlError> {
        from.word(Word::Spatial)?;
        from.word(Word::Index)?;
        from.symbol(Symbol::Open)?;
        let name = from.name(alloc)?;
        from.symbol(Symbol::Close)?;
        Ok(name)
    }
}

// NOT NULL, where it stands there.
#[tactic(auto, unfolding(crate::specs::Reading::not_null_at))]
fn not_null(from: &mut Cursor<'_>) -> Result<(), SqlError>
    ensures { Reads result (not_null_at from.old) from.new }
{
    if from.begins_word(Word::Not) {
        from.skip();
        return from.word(Word::Null);
    }
    Ok(())
}

// The key's column, and its name.
#[tactic(auto, unfolding(crate::specs::Reading::key_at))]
fn key(alloc: Global, from: &mut Cursor<'_>) -> Result<Name, SqlError>
    ensures { Reads result (key_at from.old) from.new }
{
    let name = from.name(alloc)?;
    from.word(Word::BigInt)?;
    not_null(from)?;
    from.word(Word::Primary)?;
    from.word(Word::Key)?;
    Ok(name)
}

#[tactic(auto, unfolding(crate::specs::Reading::big_int_at))]
fn big_int(from: &mut Cursor<'_>) -> Result<ParsedKind, SqlError>
    ensures { Reads result (big_int_at from.old) from.new }
{
    from.word(Word::BigInt)?;
    not_null(from)?;
    Ok(ParsedKind::BigInt)
}

#[tactic(auto, unfolding(crate::specs::Reading::var_char_at))]
fn var_char(alloc: Global, from: &mut Cursor<'_>) -> Result<ParsedKind, SqlError>
    ensures { Reads result (var_char_at from.old) from.new }
{
    from.word(Word::VarChar)?;
    from.symbol(Symbol::Open)?;
    let size = from.digits(alloc)?;
    from.symbol(Symbol::Close)?;
    not_null(from)?;
    Ok(ParsedKind::VarChar(size))
}

#[tactic(auto, unfolding(crate::specs::Reading::geo_at))]
fn geo(from: &mut Cursor<'_>) -> Result<ParsedKind, SqlError>
    ensures { Reads result (geo_at from.old) from.new }
{
    from.word(Word::Geometry)?;
    from.word(Word::Not)?;
    from.word(Word::Null)?;
    from.word(Word::Srid)?;
    from.zero()?;
    Ok(ParsedKind::Geo)
}

// What a column holds.
#[tactic(auto, unfolding(crate::specs::Reading::kind_at))]
fn kind(alloc: Global, from: &mut Cursor<'_>) -> Result<ParsedKind, SqlError>
    ensures { Reads result (kind_at from.old) from.new }
{
    if from.begins_word(Word::BigInt) {
        return big_int(from);
    }
    if from.begins_word(Word::VarChar) {
        return var_char(alloc, from);
    }
    geo(from)
}

// What stands between the parentheses.
#[tactic(auto, unfolding(crate::specs::Reading::definition_at))]
fn definition(alloc: Global, from: &mut Cursor<'_>, name: Name) -> Result<Parsed, SqlError>
    ensures { Reads result (definition_at name from.old) from.new }
{
    let key = key(alloc, from)?;
    let columns = more(alloc, from, Going::Column, &OneColumn)?;
    let indexes = more(alloc, from, Going::Comma, &OneIndex)?;
    Ok(Parsed::Create {
        name,
        key,
        columns,
        indexes,
    })
}

/// What stands behind CREATE. Syntax comes where it is no definition of a table.
#[tactic(auto, unfolding(crate::specs::Reading::create_at))]
pub fn create(alloc: Global, from: &mut Cursor<'_>) -> Result<Parsed, SqlError>
    ensures { Reads result (create_at from.old) from.new }
{
    from.word(Word::Table)?;
    let name = from.name(alloc)?;
    from.symbol(Symbol::Open)?;
    let created = definition(alloc, from, name)?;
    from.symbol(Symbol::Close)?;
    Ok(created)
}
