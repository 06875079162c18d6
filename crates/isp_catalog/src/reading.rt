//! A definition from the bytes of its page.
ghost use Rattle.std.specs.Prelude.{◌≡◌, ◌+◌, ◌*◌, ◌<◌, ◌≤◌, ◌&&◌, ℕ, nat_le, slice_index, Err, IfOk};
ghost use Rattle.isp_disk.specs.Moments.{image_of, slice};
ghost use Rattle.isp_format.specs.Definition.{column_count_place, column_size, definition_page, definition_place, definition_size, most_column_bytes, most_definition, most_name, name_field_size};
ghost use Rattle.isp_format.specs.Ranges.{Contents, page_bytes, page_of};
ghost use Rattle.isp_catalog.specs.Catalogue.{IsDefined};
ghost use Rattle.isp_catalog.specs.Limits.{is_size};
ghost use Rattle.isp_catalog.specs.Reading.{Finds, all_columns_in, column_in, columns_in, flag_in, kind_in, name_in, root_in, table_in, varchar_in};
ghost use Rattle.isp_catalog.specs.declared.table.TableDef.{TableDef};
ghost use Rattle.isp_catalog.specs.declared.unread.Unread.TheVariants.{Broken};

use crate::limits::are_within_limits;
use crate::table::TableDef;
use crate::unread::Unread;
use isp_base::{Bytes, Name};
use isp_format::definition_fields::{
    BIGINT_KIND, COLUMN_BYTES, COLUMN_COUNT_PLACE, COLUMN_FLAG_PLACE, COLUMN_KIND_PLACE,
    COLUMN_SIZE_PLACE, COLUMNS_PLACE, DEFINITION_BYTES, DEFINITIONS_A_PAGE, FIRST_TREE_PLACE,
    GEOMETRY_KIND, MOST_COLUMNS, MOST_NAME, ROOT_PLACE, SECOND_TREE_PLACE, VARCHAR_KIND,
};
use isp_format::{CATALOGUE_PAGE, CONTENT_PLACE, FIRST_FRESH, Page, PageNo, get_u16, get_u32};
use isp_plain::{Column, Columns, Kind, Schema};
use sqlite_items::Items;
use std::alloc::Global;

// How many bytes a VARCHAR column has at most.
const MOST_SIZE: u16 = 500;

/// Where a name stands in its field, behind its length.
pub(crate) const NAME_PLACE: usize = 1;

// So many bytes of the page from `at` on.
fn piece(p: &Page, at: usize, size: usize) -> &[u8]
    requires inside { at + size ≤ page_bytes }
    ensures { result.now ≡ slice (image_of p.now.bytes) at size }
{
    &p.bytes[at..at + size]
}

// The byte at that place.
fn byte_at(p: &Page, at: usize) -> u8
    requires inside { at + 1 ≤ page_bytes }
    ensures byte { result ≡ slice_index p.now.bytes at }
    ensures bytes { (place : ℕ) → slice_index p.now.bytes place < 256 }
{
    p.bytes[at]
}

// Whether a name may have so many bytes.
fn is_length(length: u8) -> bool
    ensures { result ≡ (nat_le 1 length && nat_le length most_name) }
{
    1 <= length && length as usize <= MOST_NAME
}

// The name in the field at that place.
fn name_at(alloc: Global, p: &Page, at: usize) -> Result<Name, Unread>
    requires inside { at + name_field_size ≤ page_bytes }
    ensures { Finds result (name_in p.now.bytes at) }
{
    let length = p.bytes[at];
    if !is_length(length) {
        return Err(Unread::Broken);
    }
    let name = Bytes::from_slice(alloc, piece(p, at + NAME_PLACE, usize::from(length)))?;
    Ok(name)
}

fn is_size(size: u16) -> bool
    ensures { result ≡ is_size size }
{
    1 <= size && size <= MOST_SIZE
}

// The kind of VARCHAR columns of that size.
fn varchar(size: u16) -> Option<Kind>
    ensures { result ≡ varchar_in size }
{
    if is_size(size) {
        Some(Kind::VarChar(size))
    } else {
        None
    }
}

// The kind with that byte and that size.
fn kind_of(byte: u8, size: u16) -> Option<Kind>
    ensures { result ≡ kind_in byte size }
{
    if byte == BIGINT_KIND {
        Some(Kind::BigInt)
    } else if byte == VARCHAR_KIND {
        varchar(size)
    } else if byte == GEOMETRY_KIND {
        Some(Kind::Geo)
    } else {
        None
    }
}

fn flag_of(byte: u8) -> Option<bool>
    ensures { result ≡ flag_in byte }
{
    match byte {
        0 => Some(false),
        1 => Some(true),
        _ => None,
    }
}

// The column in the field at that place.
fn column_at(alloc: Global, p: &Page, at: usize) -> Result<Column, Unread>
    requires inside { at + column_size ≤ page_bytes }
    ensures { Finds result (column_in p.now.bytes at) }
{
    let name = name_at(alloc, p, at)?;
    let Some(kind) = kind_of(
        p.bytes[at + COLUMN_KIND_PLACE],
        get_u16(p, at + COLUMN_SIZE_PLACE),
    ) else {
        return Err(Unread::Broken);
    };
    match flag_of(p.bytes[at + COLUMN_FLAG_PLACE]) {
        Some(indexed) => Ok(Column {
            name,
            kind,
            indexed,
        }),
        None => Err(Unread::Broken),
    }
}

// So many columns, in fields one after another.
fn columns_at(alloc: Global, p: &Page, at: usize, count: usize) -> Result<Columns, Unread>
    requires inside { at + column_size * count ≤ page_bytes }
    ensures { Finds result (columns_in p.now.bytes at count) }
{
    let mut columns = Items::new(alloc);
    for k in 0..count {
        let column = column_at(alloc, p, at + COLUMN_BYTES * k)?;
        columns.push(column)?;
    }
    Ok(columns)
}

// The columns of a definition, within their limits.
fn all_columns_at(alloc: Global, p: &Page, at: usize, count: u8) -> Result<Columns, Unread>
    requires inside { at + most_column_bytes ≤ page_bytes }
    ensures { Finds result (all_columns_in p.now.bytes at count) }
{
    if count < 1 || count > MOST_COLUMNS {
        return Err(Unread::Broken);
    }
    let columns = columns_at(alloc, p, at, usize::from(count))?;
    if are_within_limits(columns.as_slice()) {
        Ok(columns)
    } else {
        Err(Unread::Broken)
    }
}

// The root of a tree in a file of so many pages.
fn root_of(root: u32, pages: u32) -> Option<u32>
    ensures { result ≡ root_in pages root }
{
    if FIRST_FRESH <= root && root < pages {
        Some(root)
    } else {
        None
    }
}

// The definition of that number at that place of the page, which has so many columns.
#[tactic(auto, unfolding(crate::specs::Reading::table_in))]
fn parts_at(
    alloc: Global,
    p: &Page,
    at: usize,
    count: u8,
    number: u32,
    pages: u32,
) -> Result<TableDef, Unread>
    requires inside { at + most_definition ≤ page_bytes }
    requires count { count ≡ slice_index p.now.bytes (at + column_count_place) }
    ensures table { Finds result (table_in pages number p.now.bytes at) }
    ensures root { IfOk result (λ def. def.root.0 < pages) }
{
    let name = name_at(alloc, p, at)?;
    let columns = all_columns_at(alloc, p, at + COLUMNS_PLACE, count)?;
    match root_of(get_u32(p, at + ROOT_PLACE), pages) {
        Some(root) => Ok(TableDef {
            number,
            name,
            schema: Schema { columns },
            root: PageNo(root),
            trees: [
                PageNo(get_u32(p, at + FIRST_TREE_PLACE)),
                PageNo(get_u32(p, at + SECOND_TREE_PLACE)),
            ],
        }),
        None => Err(Unread::Broken),
    }
}

/// The page of the definition of that number.
pub(crate) fn page_of_number(number: u32) -> u32
    requires from { 1 ≤ number }
    ensures { result ≡ definition_page number }
{
    CATALOGUE_PAGE + (number - 1) / DEFINITIONS_A_PAGE
}

/// Where the definition of that number stands on its page.
pub(crate) fn place_of_number(number: u32) -> usize
    requires from { 1 ≤ number }
    ensures place { result ≡ definition_place number }
    ensures inside { result + definition_size ≤ page_bytes }
{
    CONTENT_PLACE + (number - 1) as usize % DEFINITIONS_A_PAGE as usize * DEFINITION_BYTES
}

/// The definition of that number on its page, in a file of so many pages.
pub(crate) fn table_at(alloc: Global, p: &Page, number: u32, pages: u32) -> Result<TableDef, Unread>
    requires from { 1 ≤ number }
    ensures root { IfOk result (λ def. def.root.0 < pages) }
    ensures found { (contents : Contents) → p.now.bytes ≡ page_of contents (definition_page number)
        → IfOk result (λ def. IsDefined pages contents number def) }
    ensures refused { result ≡ Err Broken → (contents : Contents) (def : TableDef)
        → p.now.bytes ≡ page_of contents (definition_page number)
        → IsDefined pages contents number def → ⊥ }
{
    let at = place_of_number(number);
    let count = byte_at(p, at + COLUMN_COUNT_PLACE);
    let def = parts_at(alloc, p, at, count, number, pages)?;
    Ok(def)
}
