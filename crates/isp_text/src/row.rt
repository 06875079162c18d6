//! The texts of values and rows.

ghost use Rattle.std.specs.Prelude.{◌≡◌, ◌∷◌, ◌++◌, IfOk, OnOk};
ghost use Rattle.std.specs.List.{flat_map};
ghost use Rattle.isp_wkt.specs.Printed.{printed};
ghost use Rattle.isp_plain.specs.Texts.{doubled, quoted, row_text, value_text, values_text};

use crate::bytes::{push, push_number};
use isp_geom::Geometry;
use isp_mbr::Bytes;
use isp_plain::{Row, Value};
use std::alloc::{AllocError, Global};

/// A row as `(v,..)`: whole numbers in decimal, texts in quotes with each quote twice, geometries in their canonical
/// text. The error is want of memory.
pub fn print_row(alloc: Global, row: &Row) -> Result<Bytes, AllocError>
    ensures { IfOk result (λ text. text ≡ row_text row.now) }
{
    let mut out = Vec::new(alloc);
    push_row(&mut out, alloc, row)?;
    Ok(Bytes::from_vec(out))
}

/// Adds a row's text.
pub fn push_row(out: &mut Vec<u8>, alloc: Global, row: &Row) -> Result<(), AllocError>
    ensures { OnOk result (out.new.items ≡ out.old.items ++ row_text row.now) }
{
    push(out, b"(")?;
    push_values(out, alloc, row.values.as_slice())?;
    push(out, b")")?;
    Ok(())
}

fn push_values(out: &mut Vec<u8>, alloc: Global, values: &[Value]) -> Result<(), AllocError>
    ensures { OnOk result (out.new.items ≡ out.old.items ++ values_text values.now) }
{
    match values {
        [first, others @ ..] => {
            push_value(out, alloc, first)?;
            push_others(out, alloc, others)?;
            Ok(())
        }
        [] => Ok(()),
    }
}

// The values after the first.
fn push_others(out: &mut Vec<u8>, alloc: Global, values: &[Value]) -> Result<(), AllocError>
    ensures { OnOk result (out.new.items ≡ out.old.items ++ flat_map (λ value. 44 ∷ value_text value) values.now) }
{
    for value in values {
        push_other(out, alloc, value)?;
    }
    Ok(())
}

fn push_other(out: &mut Vec<u8>, alloc: Global, value: &Value) -> Result<(), AllocError>
    ensures { OnOk result (out.new.items ≡ out.old.items ++ 44 ∷ value_text value.now) }
{
    push(out, b",")?;
    push_value(out, alloc, value)?;
    Ok(())
}

fn push_value(out: &mut Vec<u8>, alloc: Global, value: &Value) -> Result<(), AllocError>
    ensures { OnOk result (out.new.items ≡ out.old.items ++ value_text value.now) }
{
    match value {
        Value::Int(number) => push_number(out, alloc, *number),
        Value::Text(text) => push_quoted(out, text.as_slice()),
        Value::Geo(geometry) => push_geometry(out, alloc, geometry),
    }
}

fn push_quoted(out: &mut Vec<u8>, text: &[u8]) -> Result<(), AllocError>
    ensures { OnOk result (out.new.items ≡ out.old.items ++ quoted text.now) }
{
    push(out, b"'")?;
    push_doubled(out, text)?;
    push(out, b"'")?;
    Ok(())
}

// The bytes, with each quote twice.
fn push_doubled(out: &mut Vec<u8>, text: &[u8]) -> Result<(), AllocError>
    ensures { OnOk result (out.new.items ≡ out.old.items ++ flat_map doubled text.now) }
{
    for b in text {
        push_byte(out, *b)?;
    }
    Ok(())
}

// A byte; a quote stands twice.
fn push_byte(out: &mut Vec<u8>, b: u8) -> Result<(), AllocError>
    ensures { OnOk result (out.new.items ≡ out.old.items ++ doubled b) }
{
    if b == b'\'' {
        return push(out, b"''");
    }
    push(out, &[b])
}

fn push_geometry(out: &mut Vec<u8>, alloc: Global, geometry: &Geometry) -> Result<(), AllocError>
    ensures { OnOk result (out.new.items ≡ out.old.items ++ printed geometry.now) }
{
    let text = isp_wkt::print(alloc, geometry)?;
    push(out, text.as_slice())
}
