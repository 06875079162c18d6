//! Rows worked out by hand.
use isp_base::Bytes;
use isp_plain::{Column, Columns, Kind, Row, Schema};
use isp_row::{RowError, from_row, law_bytes_are_one_row, law_row_is_one_spelling, size, to_row};
use isp_text::print_row;
use sqlite_items::Items;
use std::alloc::{AllocError, Global};
use std::test::Fail;

// The kinds of the columns behind the key, and whether each has an index.
type Kinds = &'static [(Kind, bool)];

// A row: its columns, its key, its bytes, its text, and how many entries it has.
struct Good {
    kinds: Kinds,
    key: i64,
    bytes: &'static [u8],
    text: &'static [u8],
    entries: usize,
}

static GOOD: [Good; 7] = [
    Good {
        kinds: &[(Kind::Geo, true)],
        key: 1,
        bytes: &[0, 0, 0, 0, 0, 0, 0, 0, 0, 9, 1, 0, 0, 0, 0, 0, 0, 0, 0],
        text: b"(1,POINT(0 0))",
        entries: 1,
    },
    Good {
        kinds: &[(Kind::Geo, true)],
        key: 4,
        bytes: &[
            0, 0, 0, 0, 0, 0, 1, 3, 0, 9, 1, 0, 0, 0, 10, 255, 255, 255, 246,
        ],
        text: b"(4,POINT(10 -10))",
        entries: 1,
    },
    Good {
        kinds: &[(Kind::VarChar(3), false), (Kind::BigInt, false)],
        key: -7,
        bytes: &[0, 3, 97, 98, 99, 255, 255, 255, 255, 255, 255, 255, 254],
        text: b"(-7,'abc',-2)",
        entries: 0,
    },
    Good {
        kinds: &[(Kind::VarChar(3), false), (Kind::BigInt, false)],
        key: 7,
        bytes: &[0, 0, 127, 255, 255, 255, 255, 255, 255, 255],
        text: b"(7,'',9223372036854775807)",
        entries: 0,
    },
    Good {
        kinds: &[(Kind::VarChar(3), false), (Kind::BigInt, false)],
        key: 0,
        bytes: &[0, 1, 39, 0, 0, 0, 0, 0, 0, 1, 0],
        text: b"(0,'''',256)",
        entries: 0,
    },
    Good {
        kinds: &[
            (Kind::Geo, true),
            (Kind::VarChar(500), false),
            (Kind::Geo, true),
        ],
        key: 2,
        bytes: &[
            0, 0, 0, 0, 0, 0, 0, 5, 0, 0, 0, 0, 0, 0, 0, 6, 0, 9, 1, 0, 0, 0, 1, 0, 0, 0, 2, 0, 1,
            120, 0, 9, 1, 0, 0, 0, 3, 0, 0, 0, 4,
        ],
        text: b"(2,POINT(1 2),'x',POINT(3 4))",
        entries: 2,
    },
    Good {
        kinds: &[],
        key: 9,
        bytes: &[],
        text: b"(9)",
        entries: 0,
    },
];

// Columns, and bytes that spell none of their rows.
static BAD: [(Kinds, &[u8]); 9] = [
    (&[(Kind::Geo, true)], &[]),
    (
        &[(Kind::Geo, true)],
        &[0, 0, 0, 0, 0, 0, 0, 0, 0, 9, 1, 0, 0, 0, 0, 0, 0, 0],
    ),
    (
        &[(Kind::Geo, true)],
        &[0, 0, 0, 0, 0, 0, 0, 0, 0, 9, 1, 0, 0, 0, 0, 0, 0, 0, 0, 0],
    ),
    (
        &[(Kind::Geo, true)],
        &[0, 0, 0, 0, 0, 0, 0, 0, 0, 9, 8, 0, 0, 0, 0, 0, 0, 0, 0],
    ),
    (&[(Kind::Geo, true)], &[0, 9, 1, 0, 0, 0, 0, 0, 0, 0, 0]),
    (
        &[(Kind::VarChar(3), false), (Kind::BigInt, false)],
        &[0, 4, 97, 97, 97, 97, 0, 0, 0, 0, 0, 0, 0, 1],
    ),
    (
        &[(Kind::VarChar(3), false), (Kind::BigInt, false)],
        &[1, 97, 0, 0, 0, 0, 0, 0, 0, 1],
    ),
    (
        &[(Kind::VarChar(3), false), (Kind::BigInt, false)],
        &[0, 1, 97, 0, 0, 0, 0, 0, 0, 1],
    ),
    (&[], &[0]),
];

fn push_column(
    alloc: Global,
    columns: &mut Columns,
    kind: Kind,
    indexed: bool,
) -> Result<(), AllocError> {
    let name = Bytes::from_slice(alloc, b"c")?;
    columns.push(Column {
        name,
        kind,
        indexed,
    })
}

fn schema_of(alloc: Global, kinds: Kinds) -> Result<Schema, AllocError> {
    let mut columns = Items::new(alloc);
    push_column(alloc, &mut columns, Kind::BigInt, false)?;
    for (kind, indexed) in kinds {
        push_column(alloc, &mut columns, *kind, *indexed)?;
    }
    Ok(Schema { columns })
}

// Whether the row is printed so.
fn is_printed(alloc: Global, row: &Row, text: &[u8]) -> Result<bool, AllocError> {
    let printed = print_row(alloc, row)?;
    Ok(printed.as_slice() == text)
}

// Whether the row, which has so many bytes at most, is spelled by these bytes.
#[tactic(auto, using(crate::proofs::OwnKeys::row_is))]
fn is_spelled(
    alloc: Global,
    schema: &Schema,
    key: i64,
    bytes: &[u8],
    text: &[u8],
    entries: usize,
) -> Result<bool, RowError> {
    let (row, numbers) = from_row(alloc, schema, key, bytes)?;
    if size(schema, &row) != bytes.len() || size(schema, &row) > 8000 || numbers.len() != entries {
        return Ok(false);
    }
    let spelled = to_row(alloc, schema, &row, numbers.as_slice())?;
    let printed = is_printed(alloc, &row, text)?;
    Ok(printed && spelled.as_slice() == bytes)
}

fn is_good(alloc: Global, good: &Good) -> Result<bool, RowError> {
    let schema = schema_of(alloc, good.kinds)?;
    let is = is_spelled(
        alloc,
        &schema,
        good.key,
        good.bytes,
        good.text,
        good.entries,
    )?;
    Ok(is)
}

fn are_good(alloc: Global) -> Result<bool, RowError> {
    for good in &GOOD {
        let is = is_good(alloc, good)?;
        if !is {
            return Ok(false);
        }
    }
    Ok(true)
}

#[test]
fn rows_are_read_and_spelled_again(rt: HostRuntime) -> Result<(), Fail> {
    let good = are_good(rt.alloc())?;
    assert!(rt; good);
    Ok(())
}

// Whether the bytes are refused.
fn is_refused(alloc: Global, kinds: Kinds, bytes: &[u8]) -> Result<bool, AllocError> {
    let schema = schema_of(alloc, kinds)?;
    match from_row(alloc, &schema, 1, bytes) {
        Ok(_) => Ok(false),
        Err(e) => Ok(e == RowError::NotRow),
    }
}

fn are_refused(alloc: Global) -> Result<bool, AllocError> {
    for (kinds, bytes) in &BAD {
        let refused = is_refused(alloc, *kinds, *bytes)?;
        if !refused {
            return Ok(false);
        }
    }
    Ok(true)
}

#[test]
fn other_bytes_are_refused(rt: HostRuntime) -> Result<(), Fail> {
    let refused = are_refused(rt.alloc())?;
    assert!(rt; refused);
    Ok(())
}

#[test]
fn laws_are_there(rt: HostRuntime) {
    law_bytes_are_one_row();
    law_row_is_one_spelling();
    assert!(rt; true);
}
