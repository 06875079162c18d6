//! The condition of a statement.

ghost use Rattle.std.specs.Prelude.{◌≡◌, List};
ghost use Rattle.isp_tokens.specs.OneToken.{Reads, Outcome};
ghost use Rattle.isp_sql.specs.Reading.{atom_at, compared_at, spatial_at, arguments_at, column_first_at, column_second_at, where_at};
ghost use Rattle.isp_tokens.specs.declared.token.Token.{Token};

use crate::members::{Going, Item, list};
use crate::parsed::{ParsedAtom, ParsedAtoms};
use crate::value::{geometry, plain};
use isp_mbr::Test;
use isp_tokens::{Cursor, SqlError, Symbol, Word, exchanged};
use sqlite_items::Items;
use std::alloc::Global;

// A test of a condition.
#[derive(Clone, Copy)]
struct OneAtom;

impl Item for OneAtom {
    type Out = ParsedAtom;

    ghost item_at = { λ _. atom_at };

    #[tactic(auto, unfolding(crate::specs::Reading::atom_at))]
    fn read(&self, alloc: Global, from: &mut Cursor<'_>) -> Result<ParsedAtom, SqlError> {
        if from.begins_name() {
            return compared(alloc, from);
        }
        spatial(alloc, from)
    }
}

// A column, a comparison, and a number or a string.
#[tactic(auto, unfolding(crate::specs::Reading::compared_at))]
fn compared(alloc: Global, from: &mut Cursor<'_>) -> Result<ParsedAtom, SqlError>
    ensures { Reads result (compared_at from.old) from.new }
{
    let column = from.name(alloc)?;
    let op = from.op()?;
    let v = plain(alloc, from)?;
    Ok(ParsedAtom::Cmp { column, op, v })
}

// A test of the boxes of a column and of a geometry.
#[tactic(auto, unfolding(crate::specs::Reading::spatial_at))]
fn spatial(alloc: Global, from: &mut Cursor<'_>) -> Result<ParsedAtom, SqlError>
    ensures { Reads result (spatial_at from.old) from.new }
{
    let test = from.test()?;
    from.symbol(Symbol::Open)?;
    let atom = arguments(alloc, from, test)?;
    from.symbol(Symbol::Close)?;
    Ok(atom)
}

// The arguments of a function that is this test where the column stands first.
#[tactic(auto, unfolding(crate::specs::Reading::arguments_at))]
fn arguments(alloc: Global, from: &mut Cursor<'_>, test: Test) -> Result<ParsedAtom, SqlError>
    ensures { Reads result (arguments_at test from.old) from.new }
{
    if from.begins_name() {
        return column_first(alloc, from, test);
    }
    column_second(alloc, from, test)
}

#[tactic(auto, unfolding(crate::specs::Reading::column_first_at))]
fn column_first(alloc: Global, from: &mut Cursor<'_>, test: Test) -> Result<ParsedAtom, SqlError>
    ensures { Reads result (column_first_at test from.old) from.new }
{
    let column = from.name(alloc)?;
    from.symbol(Symbol::Comma)?;
    let g = geometry(alloc, from)?;
    Ok(ParsedAtom::Box { column, test, g })
}

#[tactic(auto, unfolding(crate::specs::Reading::column_second_at))]
fn column_second(alloc: Global, from: &mut Cursor<'_>, test: Test) -> Result<ParsedAtom, SqlError>
    ensures { Reads result (column_second_at test from.old) from.new }
{
    let g = geometry(alloc, from)?;
    from.symbol(Symbol::Comma)?;
    let column = from.name(alloc)?;
    let test = exchanged(test);
    Ok(ParsedAtom::Box { column, test, g })
}

/// The tests behind WHERE, or none where it isn't there. Syntax comes where a test is wrong, or none follows WHERE.
#[tactic(auto, unfolding(crate::specs::Reading::where_at))]
pub fn condition(alloc: Global, from: &mut Cursor<'_>) -> Result<ParsedAtoms, SqlError>
    ensures { Reads result (where_at from.old) from.new }
{
    if from.begins_word(Word::Where) {
        from.skip();
        return list(alloc, from, Going::And, &OneAtom);
    }
    Ok(Items::new(alloc))
}
