//! The texts of refusals, rows and replies, and the line of an answer.

use isp_base::Bytes;
use isp_geom::{Form, Geometry, Point};
use isp_plain::{Refusal, Reply, Row, Rows, Value, Values};
use isp_text::{answer_line, print_reply, print_row};
use isp_wkt::WktCause;
use std::alloc::{AllocError, Global};
use std::test::Fail;

// A refusal and its text.
static REFUSALS: [(Refusal, &[u8]); 16] = [
    (Refusal::TableExists, b"ERR 1050 42S01 table exists"),
    (Refusal::UnknownColumn, b"ERR 1054 42S22 unknown column"),
    (
        Refusal::DuplicateKey { key: -12 },
        b"ERR 1062 23000 duplicate key -12",
    ),
    (Refusal::Syntax, b"ERR 1064 42000 syntax"),
    (Refusal::FileFull, b"ERR 1114 HY000 file is full"),
    (Refusal::ColumnCount, b"ERR 1136 21S01 column count"),
    (Refusal::NoSuchTable, b"ERR 1146 42S02 no such table"),
    (
        Refusal::Deadlock,
        b"ERR 1213 40001 Deadlock found when trying to get lock; try restarting transaction",
    ),
    (Refusal::OutOfRange, b"ERR 1264 22003 out of range"),
    (Refusal::TooLong, b"ERR 1406 22001 too long"),
    (Refusal::NotAllowedHere, b"ERR 9010 HY000 not allowed here"),
    (Refusal::RowTooLarge, b"ERR 9011 HY000 row too large"),
    (
        Refusal::OutOfLimits,
        b"ERR 9013 HY000 definition out of limits",
    ),
    (Refusal::WrongType, b"ERR 9014 HY000 wrong type"),
    (
        Refusal::AlreadyBegun,
        b"ERR 9015 HY000 transaction already begun",
    ),
    (Refusal::KeyCannotBeSet, b"ERR 9016 HY000 key cannot be set"),
];

// The cause of a fault in a geometry's text, its place, and the text of the refusal.
static FAULTS: [(WktCause, u32, &[u8]); 9] = [
    (
        WktCause::NotWhole,
        8,
        b"ERR 9001 HY000 coordinate not whole at 8",
    ),
    (
        WktCause::OutOfRange,
        15,
        b"ERR 9002 HY000 coordinate out of range at 15",
    ),
    (
        WktCause::Unclosed,
        24,
        b"ERR 9003 HY000 ring not closed at 24",
    ),
    (WktCause::TooFew, 14, b"ERR 9004 HY000 too few points at 14"),
    (WktCause::Empty, 6, b"ERR 9005 HY000 empty geometry at 6"),
    (WktCause::Unknown, 0, b"ERR 9006 HY000 unknown text at 0"),
    (
        WktCause::Trailing,
        10,
        b"ERR 9007 HY000 trailing text at 10",
    ),
    (
        WktCause::Truncated,
        9,
        b"ERR 9008 HY000 truncated text at 9",
    ),
    (
        WktCause::TooDeep,
        170,
        b"ERR 9009 HY000 nested too deep at 170",
    ),
];

fn is_told(alloc: Global, reply: &Reply, expected: &[u8]) -> Result<bool, AllocError> {
    let text = print_reply(alloc, reply)?;
    Ok(text.as_slice() == expected)
}

fn are_refusals_told(alloc: Global) -> Result<bool, AllocError> {
    for (refusal, expected) in REFUSALS {
        if !is_told(alloc, &Reply::Err(refusal), expected)? {
            return Ok(false);
        }
    }
    Ok(true)
}

fn are_faults_told(alloc: Global) -> Result<bool, AllocError> {
    for (cause, at, expected) in FAULTS {
        let refusal = Refusal::Geometry { cause, at };
        if !is_told(alloc, &Reply::Err(refusal), expected)? {
            return Ok(false);
        }
    }
    Ok(true)
}

#[test]
fn refusals_have_texts(rt: HostRuntime) -> Result<(), Fail> {
    let told = are_refusals_told(rt.alloc())?;
    assert!(rt; told);
    Ok(())
}

#[test]
fn faults_in_geometries_have_texts(rt: HostRuntime) -> Result<(), Fail> {
    let told = are_faults_told(rt.alloc())?;
    assert!(rt; told);
    Ok(())
}

fn push_row(rows: &mut Rows, alloc: Global, key: i64, text: &[u8]) -> Result<(), AllocError> {
    let mut values = Values::new(alloc);
    values.push(Value::Int(key))?;
    values.push(Value::Text(Bytes::from_slice(alloc, text)?))?;
    rows.push(Row { values })
}

fn push_point(values: &mut Values, x: i32, y: i32) -> Result<(), AllocError> {
    if let Some(point) = Geometry::new(Form::Point(Point { x, y })) {
        values.push(Value::Geo(point))?;
    }
    Ok(())
}

fn has_a_row_its_text(alloc: Global) -> Result<bool, AllocError> {
    let mut values = Values::new(alloc);
    values.push(Value::Int(i64::MIN))?;
    values.push(Value::Text(Bytes::from_slice(alloc, b"it's 'so'")?))?;
    push_point(&mut values, 1, -2)?;
    let row = Row { values };
    let text = print_row(alloc, &row)?;
    Ok(text.as_slice() == b"(-9223372036854775808,'it''s ''so''',POINT(1 -2))".as_slice())
}

#[test]
fn a_row_has_its_text(rt: HostRuntime) -> Result<(), Fail> {
    let told = has_a_row_its_text(rt.alloc())?;
    assert!(rt; told);
    Ok(())
}

fn are_rows_told(alloc: Global) -> Result<bool, AllocError> {
    let mut rows = Rows::new(alloc);
    let none = is_told(alloc, &Reply::Rows(Rows::new(alloc)), b"OK 0 rows")?;
    push_row(&mut rows, alloc, 1, b"")?;
    push_row(&mut rows, alloc, 2, b"a, b")?;
    let two = is_told(alloc, &Reply::Rows(rows), b"OK 2 rows (1,'') (2,'a, b')")?;
    Ok(none && two)
}

#[test]
fn rows_are_told_behind_their_number(rt: HostRuntime) -> Result<(), Fail> {
    let told = are_rows_told(rt.alloc())?;
    assert!(rt; told);
    Ok(())
}

fn has_an_answer_its_line(alloc: Global) -> Result<bool, AllocError> {
    let line = answer_line(alloc, 17, 2, 3, &Reply::Count(5))?;
    Ok(line.as_slice() == b"17 2.3 OK 5 rows\n".as_slice())
}

#[test]
fn an_answer_has_its_line(rt: HostRuntime) -> Result<(), Fail> {
    let told = has_an_answer_its_line(rt.alloc())?;
    assert!(rt; told);
    Ok(())
}
