//! Of which rows a condition holds.

ghost use Rattle.std.specs.Prelude.{◌≡◌};
ghost use Rattle.std.specs.Cmp.Lexicographic.{slice_cmp};
ghost use Rattle.std.specs.Option.{option_copied};
ghost use Rattle.std.specs.Ordering.{int_cmp, nat_cmp, is_some_and};
ghost use Rattle.isp_plain.specs.Conditions.{atom_holds, holds, meets, order_of, value_compares, value_satisfies};

use isp_mbr::{Predicate, satisfies};
use isp_plain::{Atom, Condition, Op, Row, Value, box_of};
use std::cmp::Ordering;

// Whether values that stand so to each other meet the comparison.
fn meets(op: Op, order: Ordering) -> bool
    ensures { result ≡ meets op order }
{
    match op {
        Op::Eq => order.is_eq(),
        Op::Ne => order.is_ne(),
        Op::Lt => order.is_lt(),
        Op::Le => order.is_le(),
        Op::Gt => order.is_gt(),
        Op::Ge => order.is_ge(),
    }
}

// How two numbers stand to each other.
fn order_of_numbers(a: i64, b: i64) -> Ordering
    ensures { result ≡ int_cmp a b }
{
    a.cmp(&b)
}

// How two texts stand to each other: by the first byte that differs, and else by their lengths.
fn order_of_texts(a: &[u8], b: &[u8]) -> Ordering
    ensures { result ≡ slice_cmp nat_cmp a.now b.now }
{
    a.cmp(&b)
}

// How two values of one kind stand to each other, which geometries don't.
fn order_of(a: &Value, b: &Value) -> Option<Ordering>
    ensures { result ≡ order_of a.now b.now }
{
    match (a, b) {
        (Value::Int(a), Value::Int(b)) => Some(order_of_numbers(*a, *b)),
        (Value::Text(a), Value::Text(b)) => Some(order_of_texts(a.as_slice(), b.as_slice())),
        _ => None,
    }
}

// Whether a value compares so with another one.
fn compares(op: Op, v: &Value, value: &Value) -> bool
    ensures { result ≡ is_some_and (meets op) (order_of value.now v.now) }
{
    match order_of(value, v) {
        Some(order) => meets(op, order),
        None => false,
    }
}

fn value_compares(op: Op, v: &Value, value: Option<&Value>) -> bool
    ensures { result ≡ value_compares op v.now (option_copied value.entry) }
{
    match value {
        Some(value) => compares(op, v, value),
        None => false,
    }
}

// Whether the box of a geometry satisfies the predicate; no other value does.
fn value_satisfies(p: &Predicate, value: Option<&Value>) -> bool
    ensures { result ≡ value_satisfies p.now (option_copied value.entry) }
{
    match value {
        Some(Value::Geo(geometry)) => satisfies(p, &box_of(geometry)),
        _ => false,
    }
}

fn atom_holds(row: &Row, atom: &Atom) -> bool
    ensures { result ≡ atom_holds row.now atom.now }
{
    match atom {
        Atom::Cmp { column, op, v } => value_compares(*op, v, row.values.get(*column as usize)),
        Atom::Box { column, p } => value_satisfies(p, row.values.get(*column as usize)),
    }
}

/// Whether each test of the condition is true of the row.
pub fn holds(condition: &Condition, row: &Row) -> bool
    ensures { result ≡ holds condition.now row.now }
{
    condition
        .atoms
        .as_slice()
        .iter()
        .all(|atom| atom_holds(row, atom))
}
