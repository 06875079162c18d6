//! Spelling a row.
ghost use Rattle.std.specs.Prelude.{◌≡◌, ◌++◌, ◌≤◌, ℕ, All, IfOk, OnOk, drop, length};
ghost use Rattle.std.specs.List.{flat_map, sum_by};
ghost use Rattle.byteorder.specs.Endian.{big_bytes};
ghost use Rattle.isp_plain.specs.RowBytes.{indexed_columns, row_bytes, value_bytes};
ghost use Rattle.isp_plain.specs.Values.{key_of};
ghost use Rattle.isp_row.specs.RowSpelling.{IsRowOf, IsSpelled, Spells, measured, number_spelling, value_spelling};

use byteorder::{BigEndian, ByteOrder};
use isp_base::Bytes;
use isp_geom::to_bytes;
use isp_plain::{Row, Schema, Value};
use std::alloc::{AllocError, Global};

/// The bytes of a row with these numbers of its entries, one for each indexed column in their order. The error is want of
/// memory.
pub fn to_row(
    alloc: Global,
    schema: &Schema,
    row: &Row,
    numbers: &[u64],
) -> Result<Bytes, AllocError>
    requires row { IsRowOf schema.now (key_of row.now) row.now }
    requires size { row_bytes schema.now row.now ≤ 8000 }
    requires count { length numbers.now ≡ indexed_columns schema.now.columns }
    ensures { IfOk result (λ bytes. Spells schema.now (key_of row.now) bytes row.now numbers.now) }
{
    let mut out = Vec::new(alloc);
    put_numbers(&mut out, numbers)?;
    put_others(alloc, &mut out, row.values.as_slice())?;
    Ok(Bytes::from_vec(out))
}

// Adds the spelling of a number in eight bytes.
fn put_number(out: &mut Vec<u8>, number: u64) -> Result<(), AllocError>
    ensures { OnOk result (out.new.items ≡ out.old.items ++ number_spelling number) }
{
    let mut field = [0; 8];
    BigEndian::write_u64(&mut field, number);
    out.extend_from_slice(&field)?;
    Ok(())
}

fn put_numbers(out: &mut Vec<u8>, numbers: &[u64]) -> Result<(), AllocError>
    ensures { OnOk result (out.new.items ≡ out.old.items ++ flat_map number_spelling numbers.now) }
{
    for number in numbers {
        put_number(out, *number)?;
    }
    Ok(())
}

// Two bytes for a length.
fn put_count(out: &mut Vec<u8>, count: usize) -> Result<(), AllocError>
    ensures { OnOk result (out.new.items ≡ out.old.items ++ big_bytes 2 count) }
{
    let mut field = [0; 2];
    BigEndian::write_u16(&mut field, (count % 65_536) as u16);
    out.extend_from_slice(&field)?;
    Ok(())
}

// Adds bytes behind their length.
fn put_piece(out: &mut Vec<u8>, bytes: &[u8]) -> Result<(), AllocError>
    ensures { OnOk result (out.new.items ≡ out.old.items ++ measured bytes.now) }
{
    put_count(out, bytes.len())?;
    out.extend_from_slice(bytes)?;
    Ok(())
}

fn put_value(alloc: Global, out: &mut Vec<u8>, value: &Value) -> Result<(), AllocError>
    ensures spelled { OnOk result (out.new.items ≡ out.old.items ++ value_spelling value.now) }
    ensures is { value_bytes value.now ≤ 8000 → OnOk result (IsSpelled value.now) }
{
    match value {
        Value::Int(number) => {
            put_number(out, number.cast_unsigned())?;
            Ok(())
        }
        Value::Text(text) => {
            put_piece(out, text.as_slice())?;
            Ok(())
        }
        Value::Geo(geometry) => {
            let _form = geometry.form();
            let bytes = to_bytes(alloc, geometry)?;
            put_piece(out, bytes.as_slice())?;
            Ok(())
        }
    }
}

fn put_values(alloc: Global, out: &mut Vec<u8>, values: &[Value]) -> Result<(), AllocError>
    ensures spelled { OnOk result (out.new.items
        ≡ out.old.items ++ flat_map value_spelling values.now) }
    ensures are { sum_by value_bytes values.now ≤ 8000 → OnOk result (All IsSpelled values.now) }
{
    for value in values {
        put_value(alloc, out, value)?;
    }
    Ok(())
}

// The values after the key.
fn put_others(alloc: Global, out: &mut Vec<u8>, values: &[Value]) -> Result<(), AllocError>
    ensures spelled { OnOk result (out.new.items
        ≡ out.old.items ++ flat_map value_spelling (drop 1 values.now)) }
    ensures are { sum_by value_bytes (drop 1 values.now) ≤ 8000
        → OnOk result (All IsSpelled (drop 1 values.now)) }
{
    match values {
        [_key, others @ ..] => {
            put_values(alloc, out, others)?;
            Ok(())
        }
        [] => Ok(()),
    }
}
