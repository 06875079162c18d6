//! Lists, in which members follow one another behind a comma or AND.

ghost use Rattle.std.specs.Prelude.{◌≡◌, List, [], ◌∷◌, IfOk};
ghost use Rattle.isp_tokens.specs.OneToken.{Reads, Outcome};
ghost use Rattle.isp_sql.specs.Reading.{goes_on, others_at, more_at, list_at};
ghost use Rattle.isp_sql.specs.Following.{with_front};
ghost use Rattle.isp_tokens.specs.declared.token.Token.{Token};

use isp_tokens::{Cursor, SqlError, Symbol, Word};
use sqlite_items::Items;
use std::alloc::{AllocError, Global};

/// What stands before a further member: a comma, AND, or a comma with a name behind it.
#[derive(Clone, Copy)]
pub enum Going {
    Comma,
    And,
    Column,
}

/// What a list has as its members.
pub trait Item {
    type Out: Drop;

    ghost item_at: { Self → List Token → Outcome Self.Out };

    /// The member that stands there: Syntax where none does. The other error is want of memory.
    fn read(&self, alloc: Global, from: &mut Cursor<'_>) -> Result<Self::Out, SqlError>
        ensures { Reads result (item_at self.now from.old) from.new };
}

// Whether one more member follows.
fn goes_on(going: Going, from: &Cursor<'_>) -> bool
    ensures { result ≡ goes_on going from.now }
{
    match going {
        Going::Comma => from.begins_symbol(Symbol::Comma),
        Going::And => from.begins_word(Word::And),
        Going::Column => from.begins_column(),
    }
}

// Members that follow those that were found, each behind one token.
fn others<I: Item>(
    alloc: Global,
    from: &mut Cursor<'_>,
    going: Going,
    found: Items<I::Out>,
    item: &I,
) -> Result<Items<I::Out>, SqlError>
    ensures { Reads result (with_front found (more_at going (I.item_at item.now) from.old)) from.new }
{
    let mut found = found;
    let most = from.len();
    for _ in 0..most {
        if !goes_on(going, from) {
            return Ok(found);
        }
        from.skip();
        found.push(item.read(alloc, from)?)?;
    }
    Ok(found)
}

/// None or more members, each behind one token. Syntax comes where a member is wrong.
pub fn more<I: Item>(
    alloc: Global,
    from: &mut Cursor<'_>,
    going: Going,
    item: &I,
) -> Result<Items<I::Out>, SqlError>
    ensures { Reads result (more_at going (I.item_at item.now) from.old) from.new }
{
    others(alloc, from, going, Items::new(alloc), item)
}

/// One or more members. Syntax comes where a member is wrong, or none stands there.
#[tactic(auto, unfolding(crate::specs::Reading::list_at))]
pub fn list<I: Item>(
    alloc: Global,
    from: &mut Cursor<'_>,
    going: Going,
    item: &I,
) -> Result<Items<I::Out>, SqlError>
    ensures { Reads result (list_at going (I.item_at item.now) from.old) from.new }
{
    let first = item.read(alloc, from)?;
    let found = alone(alloc, first)?;
    others(alloc, from, going, found, item)
}

// One member.
fn alone<X: Drop>(alloc: Global, first: X) -> Result<Items<X>, AllocError>
    ensures { IfOk result (λ found. found ≡ first ∷ []) }
{
    let mut found = Items::new(alloc);
    found.push(first)?;
    Ok(found)
}
