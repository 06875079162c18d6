//! A definition into the bytes of its page.
ghost use Rattle.std.specs.Prelude.{◌≡◌, ◌+◌, ◌*◌, ◌≤◌, ◌∷◌, ◌++◌, [], ℕ, All, length};
ghost use Rattle.std.specs.List.{flat_map};
ghost use Rattle.isp_disk.specs.Moments.{image_of, put};
ghost use Rattle.isp_format.specs.Definition.{column_size, columns_place, flag_byte, most_columns, most_definition, most_name, name_field_size, root_place};
ghost use Rattle.isp_format.specs.Numbers.{bytes_of};
ghost use Rattle.isp_format.specs.Ranges.{page_bytes};
ghost use Rattle.isp_catalog.specs.Limits.{IsName};
ghost use Rattle.isp_catalog.specs.Writing.{HasRoots, column_field, kind_byte, kind_size, name_field, roots_field, table_bytes};

use crate::reading::NAME_PLACE;
use crate::table::TableDef;
use isp_format::definition_fields::{
    BIGINT_KIND, COLUMN_BYTES, COLUMN_COUNT_PLACE, COLUMN_FLAG_PLACE, COLUMN_KIND_PLACE,
    COLUMN_SIZE_PLACE, COLUMNS_PLACE, FIRST_TREE_PLACE, GEOMETRY_KIND, MOST_NAME, ROOT_PLACE,
    SECOND_TREE_PLACE, VARCHAR_KIND,
};
use isp_format::{Page, put_bytes, put_u16, put_u32};
use isp_plain::{Column, Kind};

// Puts one byte.
fn put_byte(p: &mut Page, at: usize, byte: u8)
    requires { at + 1 ≤ page_bytes }
    ensures put { (place : ℕ) → image_of p.new.bytes place
        ≡ put (image_of p.old.bytes) at (byte ∷ []) place }
    ensures size { length p.new.bytes ≡ length p.old.bytes }
{
    put_bytes(p, at, &[byte]);
}

// Puts a name into its field; the bytes behind it are 0.
fn put_name(p: &mut Page, at: usize, name: &[u8])
    requires inside { at + name_field_size ≤ page_bytes }
    requires name { length name.now ≤ most_name }
    ensures put { (place : ℕ) → image_of p.new.bytes place
        ≡ put (image_of p.old.bytes) at (name_field name.now) place }
    ensures size { length p.new.bytes ≡ length p.old.bytes }
{
    let zeros = [0; MOST_NAME];
    put_byte(p, at, name.len() as u8);
    put_bytes(p, at + NAME_PLACE, name);
    put_bytes(p, at + NAME_PLACE + name.len(), &zeros[name.len()..]);
}

fn kind_byte(kind: Kind) -> u8
    ensures { result ≡ kind_byte kind }
{
    match kind {
        Kind::BigInt => BIGINT_KIND,
        Kind::VarChar(_) => VARCHAR_KIND,
        Kind::Geo => GEOMETRY_KIND,
    }
}

// The size of a VARCHAR column; the others have none.
fn kind_size(kind: Kind) -> u16
    ensures { result ≡ kind_size kind }
{
    match kind {
        Kind::BigInt => 0,
        Kind::VarChar(most) => most,
        Kind::Geo => 0,
    }
}

fn flag_byte(flag: bool) -> u8
    ensures { result ≡ flag_byte flag }
{
    if flag { 1 } else { 0 }
}

// Puts a column into its field.
fn put_column(p: &mut Page, at: usize, column: &Column)
    requires inside { at + column_size ≤ page_bytes }
    requires name { IsName column.now.name }
    ensures put { (place : ℕ) → image_of p.new.bytes place
        ≡ put (image_of p.old.bytes) at (column_field column.now) place }
    ensures size { length p.new.bytes ≡ length p.old.bytes }
{
    put_name(p, at, column.name.as_slice());
    put_byte(p, at + COLUMN_KIND_PLACE, kind_byte(column.kind));
    put_u16(p, at + COLUMN_SIZE_PLACE, kind_size(column.kind));
    put_byte(p, at + COLUMN_FLAG_PLACE, flag_byte(column.indexed));
}

// Puts columns into their fields, one after another.
fn put_columns(p: &mut Page, at: usize, columns: &[Column])
    requires inside { at + column_size * length columns.now ≤ page_bytes }
    requires names { All (λ column. IsName column.name) columns.now }
    ensures put { (place : ℕ) → image_of p.new.bytes place
        ≡ put (image_of p.old.bytes) at (flat_map column_field columns.now) place }
    ensures size { length p.new.bytes ≡ length p.old.bytes }
{
    for (k, column) in columns.iter().enumerate() {
        put_column(p, at + COLUMN_BYTES * k, column);
    }
}

// Puts the roots of the definition that stands at that place.
fn put_roots(p: &mut Page, at: usize, t: &TableDef)
    requires inside { at + columns_place ≤ page_bytes }
    ensures put { (place : ℕ) → image_of p.new.bytes place
        ≡ put (image_of p.old.bytes) (at + root_place) (roots_field t.now) place }
    ensures size { length p.new.bytes ≡ length p.old.bytes }
    ensures roots { HasRoots t.now }
{
    let trees = t.trees;
    put_u32(p, at + ROOT_PLACE, t.root.0);
    put_u32(p, at + FIRST_TREE_PLACE, trees[0].0);
    put_u32(p, at + SECOND_TREE_PLACE, trees[1].0);
}

/// Puts a definition into its place.
pub(crate) fn put_table(p: &mut Page, at: usize, t: &TableDef)
    requires inside { at + most_definition ≤ page_bytes }
    requires name { IsName t.now.name }
    requires columns { length t.now.schema.columns ≤ most_columns }
    requires names { All (λ column. IsName column.name) t.now.schema.columns }
    ensures put { (place : ℕ) → image_of p.new.bytes place
        ≡ put (image_of p.old.bytes) at (table_bytes t.now) place }
    ensures size { length p.new.bytes ≡ length p.old.bytes }
    ensures roots { HasRoots t.now }
{
    put_name(p, at, t.name.as_slice());
    put_byte(p, at + COLUMN_COUNT_PLACE, t.schema.columns.len() as u8);
    put_roots(p, at, t);
    put_columns(p, at + COLUMNS_PLACE, t.schema.columns.as_slice());
}
