//! What statements mean on four tables, their first cause of refusal, and the ways to their rows.

use isp_base::Name;
use isp_mbr::{Predicate, Test};
use isp_paths::{Path, law_paths_reach, path_of};
use isp_plain::{Atom, Columns, Condition, Op, Schema, Statement, Value};
use isp_plan::{bind, law_bound_fits, law_whole_is_faithful, meaning_of};
use isp_serial::Place;
use isp_sql::{SqlError, parse};
use std::alloc::{AllocError, Global};
use std::test::Fail;

// The tables that the statements below are bound to.
static TABLES: [&[u8]; 4] = [
    b"CREATE TABLE t (id BIGINT PRIMARY KEY, name VARCHAR(5), n BIGINT, g GEOMETRY NOT NULL SRID 0, h GEOMETRY NOT NULL SRID 0, SPATIAL INDEX (g))",
    b"CREATE TABLE p (id BIGINT PRIMARY KEY, g GEOMETRY NOT NULL SRID 0, SPATIAL INDEX (g))",
    b"CREATE TABLE w (id BIGINT PRIMARY KEY, a VARCHAR(500), b VARCHAR(500))",
    b"CREATE TABLE q (id BIGINT PRIMARY KEY, a GEOMETRY NOT NULL SRID 0, b GEOMETRY NOT NULL SRID 0, SPATIAL INDEX (a), SPATIAL INDEX (b))",
];

const S: Place = Place::Setup;

const O: Place = Place::Session;

const T: Place = Place::InTransaction;

// Where a text stands, the text, and the number and the place of its refusal; a number 0 for a text that is not refused.
static CASES: [(Place, &[u8], u32, i64); 130] = [
    // no statement
    (O, b"", 1064, 0),
    (O, b"SELEC * FROM t", 1064, 0),
    (S, b"CREATE TABLE u (k VARCHAR(5) PRIMARY KEY)", 1064, 0),
    (
        O,
        b"SELECT * FROM t WHERE g = ST_GeomFromText('POINT(1 1)')",
        1064,
        0,
    ),
    (S, b"COMMIT COMMIT", 1064, 0),
    // not allowed here
    (S, b"SELECT * FROM t", 9010, 0),
    (S, b"UPDATE t SET n = 1", 9010, 0),
    (S, b"DELETE FROM t", 9010, 0),
    (S, b"BEGIN", 9010, 0),
    (S, b"START TRANSACTION", 9010, 0),
    (S, b"COMMIT", 9010, 0),
    (S, b"ROLLBACK", 9010, 0),
    (O, b"CREATE TABLE u (k BIGINT PRIMARY KEY)", 9010, 0),
    (T, b"CREATE TABLE u (k BIGINT PRIMARY KEY)", 9010, 0),
    (S, b"SELECT x FROM nowhere", 9010, 0),
    (
        O,
        b"CREATE TABLE t (k BIGINT PRIMARY KEY, k BIGINT)",
        9010,
        0,
    ),
    // a transaction in a transaction
    (T, b"BEGIN", 9015, 0),
    (T, b"start transaction", 9015, 0),
    (O, b"BEGIN", 0, 0),
    (O, b"START TRANSACTION", 0, 0),
    (O, b"COMMIT", 0, 0),
    (T, b"COMMIT", 0, 0),
    (O, b"ROLLBACK", 0, 0),
    (T, b"ROLLBACK", 0, 0),
    // a table that is there
    (S, b"CREATE TABLE t (k BIGINT PRIMARY KEY)", 1050, 0),
    (
        S,
        b"CREATE TABLE p (k BIGINT PRIMARY KEY, a VARCHAR(0))",
        1050,
        0,
    ),
    (S, b"CREATE TABLE T (k BIGINT PRIMARY KEY)", 0, 0),
    // the limits of a definition
    (
        S,
        b"CREATE TABLE u (k BIGINT PRIMARY KEY, a BIGINT, a BIGINT)",
        9013,
        0,
    ),
    (
        S,
        b"CREATE TABLE u (k BIGINT PRIMARY KEY, k BIGINT)",
        9013,
        0,
    ),
    (S, b"CREATE TABLE u (k BIGINT PRIMARY KEY, K BIGINT)", 0, 0),
    (
        S,
        b"CREATE TABLE u (k BIGINT PRIMARY KEY, a VARCHAR(0))",
        9013,
        0,
    ),
    (
        S,
        b"CREATE TABLE u (k BIGINT PRIMARY KEY, a VARCHAR(000))",
        9013,
        0,
    ),
    (
        S,
        b"CREATE TABLE u (k BIGINT PRIMARY KEY, a VARCHAR(1))",
        0,
        0,
    ),
    (
        S,
        b"CREATE TABLE u (k BIGINT PRIMARY KEY, a VARCHAR(500))",
        0,
        0,
    ),
    (
        S,
        b"CREATE TABLE u (k BIGINT PRIMARY KEY, a VARCHAR(0000500))",
        0,
        0,
    ),
    (
        S,
        b"CREATE TABLE u (k BIGINT PRIMARY KEY, a VARCHAR(501))",
        9013,
        0,
    ),
    (
        S,
        b"CREATE TABLE u (k BIGINT PRIMARY KEY, a VARCHAR(18446744073709551617))",
        9013,
        0,
    ),
    (
        S,
        b"CREATE TABLE u (k BIGINT PRIMARY KEY, SPATIAL INDEX (a))",
        9013,
        0,
    ),
    (
        S,
        b"CREATE TABLE u (k BIGINT PRIMARY KEY, SPATIAL INDEX (k))",
        9013,
        0,
    ),
    (
        S,
        b"CREATE TABLE u (k BIGINT PRIMARY KEY, a BIGINT, SPATIAL INDEX (a))",
        9013,
        0,
    ),
    (
        S,
        b"CREATE TABLE u (k BIGINT PRIMARY KEY, a VARCHAR(5), SPATIAL INDEX (a))",
        9013,
        0,
    ),
    (
        S,
        b"CREATE TABLE u (k BIGINT PRIMARY KEY, a GEOMETRY NOT NULL SRID 0, SPATIAL INDEX (a), SPATIAL INDEX (a))",
        9013,
        0,
    ),
    (
        S,
        b"CREATE TABLE u (k BIGINT PRIMARY KEY, a GEOMETRY NOT NULL SRID 0, b GEOMETRY NOT NULL SRID 0, SPATIAL INDEX (b), SPATIAL INDEX (a))",
        0,
        0,
    ),
    (
        S,
        b"CREATE TABLE u (k BIGINT PRIMARY KEY, a GEOMETRY NOT NULL SRID 0, b GEOMETRY NOT NULL SRID 0, c GEOMETRY NOT NULL SRID 0, SPATIAL INDEX (a), SPATIAL INDEX (b), SPATIAL INDEX (c))",
        9013,
        0,
    ),
    (
        S,
        b"CREATE TABLE u (k BIGINT PRIMARY KEY, c2 BIGINT, c3 BIGINT, c4 BIGINT, c5 BIGINT, c6 BIGINT, c7 BIGINT, c8 BIGINT, c9 BIGINT, c10 BIGINT, c11 BIGINT, c12 BIGINT, c13 BIGINT, c14 BIGINT, c15 BIGINT, c16 BIGINT)",
        0,
        0,
    ),
    (
        S,
        b"CREATE TABLE u (k BIGINT PRIMARY KEY, c2 BIGINT, c3 BIGINT, c4 BIGINT, c5 BIGINT, c6 BIGINT, c7 BIGINT, c8 BIGINT, c9 BIGINT, c10 BIGINT, c11 BIGINT, c12 BIGINT, c13 BIGINT, c14 BIGINT, c15 BIGINT, c16 BIGINT, c17 BIGINT)",
        9013,
        0,
    ),
    (
        S,
        b"CREATE TABLE a1234567890123456789012345678901 (k BIGINT PRIMARY KEY)",
        0,
        0,
    ),
    (
        S,
        b"CREATE TABLE a12345678901234567890123456789012 (k BIGINT PRIMARY KEY)",
        9013,
        0,
    ),
    (
        S,
        b"CREATE TABLE u (a12345678901234567890123456789012 BIGINT PRIMARY KEY)",
        9013,
        0,
    ),
    (
        S,
        b"CREATE TABLE u (k BIGINT PRIMARY KEY, a1234567890123456789012345678901 BIGINT)",
        0,
        0,
    ),
    (
        S,
        b"CREATE TABLE u (k BIGINT PRIMARY KEY, a12345678901234567890123456789012 BIGINT)",
        9013,
        0,
    ),
    // no such table
    (S, b"INSERT INTO nowhere VALUES (1)", 1146, 0),
    (O, b"SELECT x FROM nowhere", 1146, 0),
    (O, b"SELECT * FROM T", 1146, 0),
    (O, b"UPDATE nowhere SET id = 'a' WHERE x = 1", 1146, 0),
    (T, b"DELETE FROM nowhere WHERE x = 1", 1146, 0),
    // unknown column
    (O, b"SELECT id, x FROM t", 1054, 0),
    (O, b"SELECT Id FROM t", 1054, 0),
    (O, b"SELECT * FROM t WHERE x = 1", 1054, 0),
    (O, b"SELECT * FROM t WHERE n = 'a' AND x = 1", 1054, 0),
    (O, b"SELECT x FROM t WHERE n = 'a'", 1054, 0),
    (
        O,
        b"SELECT * FROM t WHERE MBRWithin(x, ST_GeomFromText('POINT(1'))",
        1054,
        0,
    ),
    (O, b"UPDATE t SET x = 1", 1054, 0),
    (O, b"UPDATE t SET n = 'a' WHERE x = 1", 1054, 0),
    (O, b"UPDATE t SET id = 1 WHERE x = 1", 1054, 0),
    (O, b"UPDATE t SET id = 1, x = 1", 1054, 0),
    (O, b"DELETE FROM t WHERE id = 'a' AND x = 1", 1054, 0),
    // the key is set
    (O, b"UPDATE t SET id = 1", 9016, 0),
    (O, b"UPDATE t SET n = 'a', id = 1", 9016, 0),
    (O, b"UPDATE t SET id = 'a' WHERE n = 'a'", 9016, 0),
    // column count
    (O, b"INSERT INTO p VALUES (1)", 1136, 0),
    (
        O,
        b"INSERT INTO p VALUES (1, ST_GeomFromText('POINT(1 1)'), 2)",
        1136,
        0,
    ),
    (O, b"INSERT INTO p VALUES ('a', 1), (1)", 1136, 0),
    // wrong type
    (
        O,
        b"INSERT INTO p VALUES ('a', ST_GeomFromText('POINT(1 1)'))",
        9014,
        0,
    ),
    (
        O,
        b"INSERT INTO p VALUES (ST_GeomFromText('POINT(1 1)'), ST_GeomFromText('POINT(1 1)'))",
        9014,
        0,
    ),
    (O, b"INSERT INTO p VALUES (1, 2)", 9014, 0),
    (O, b"INSERT INTO p VALUES (1, 'POINT(1 1)')", 9014, 0),
    (S, b"INSERT INTO w VALUES (1, 2, 'a')", 9014, 0),
    (
        S,
        b"INSERT INTO w VALUES (1, ST_GeomFromText('POINT(1'), 'a')",
        9014,
        0,
    ),
    (O, b"UPDATE t SET name = 1", 9014, 0),
    (O, b"UPDATE t SET n = 'a'", 9014, 0),
    (O, b"UPDATE t SET g = 'POINT(1 1)'", 9014, 0),
    (O, b"UPDATE t SET n = ST_GeomFromText('POINT(1')", 9014, 0),
    (O, b"SELECT * FROM t WHERE g = 1", 9014, 0),
    (O, b"SELECT * FROM t WHERE g = 'POINT(1 1)'", 9014, 0),
    (O, b"SELECT * FROM t WHERE id = 'a'", 9014, 0),
    (
        O,
        b"DELETE FROM t WHERE name < 99999999999999999999",
        9014,
        0,
    ),
    (
        O,
        b"SELECT * FROM t WHERE MBRWithin(id, ST_GeomFromText('POINT(1'))",
        9014,
        0,
    ),
    (
        O,
        b"SELECT * FROM t WHERE MBRWithin(ST_GeomFromText('POINT(1 1)'), name)",
        9014,
        0,
    ),
    // out of range
    (O, b"DELETE FROM t WHERE id = 9223372036854775807", 0, 0),
    (O, b"DELETE FROM t WHERE id = 9223372036854775808", 1264, 0),
    (O, b"DELETE FROM t WHERE id = -9223372036854775808", 0, 0),
    (
        O,
        b"DELETE FROM t WHERE id = - 9223372036854775809",
        1264,
        0,
    ),
    (O, b"DELETE FROM t WHERE id = 18446744073709551617", 1264, 0),
    (
        O,
        b"DELETE FROM t WHERE id = 0000000000000000000000000000000000000009",
        0,
        0,
    ),
    (O, b"DELETE FROM t WHERE id = -0", 0, 0),
    (
        O,
        b"INSERT INTO p VALUES (9223372036854775808, ST_GeomFromText('POINT(1 1)'))",
        1264,
        0,
    ),
    (O, b"UPDATE t SET n = 9223372036854775808", 1264, 0),
    // too long
    (O, b"UPDATE t SET name = '12345'", 0, 0),
    (O, b"UPDATE t SET name = '123456'", 1406, 0),
    (O, b"UPDATE t SET name = 'a''b''c'", 0, 0),
    (
        O,
        b"UPDATE t SET name = '\xC3\xA9\xC3\xA9\xC3\xA9'",
        1406,
        0,
    ),
    (O, b"UPDATE t SET name = ''", 0, 0),
    (O, b"DELETE FROM t WHERE name = '123456'", 0, 0),
    (
        O,
        b"INSERT INTO t VALUES (1, '123456', 1, ST_GeomFromText('POINT(1 1)'), ST_GeomFromText('POINT(1 1)'))",
        1406,
        0,
    ),
    // faults of a geometry's text
    (
        O,
        b"INSERT INTO p VALUES (1, ST_GeomFromText('POINT(1.5 2)'))",
        9001,
        8,
    ),
    (
        O,
        b"INSERT INTO p VALUES (1, ST_GeomFromText('POINT(1073741825 2)'))",
        9002,
        15,
    ),
    (
        O,
        b"INSERT INTO p VALUES (1, ST_GeomFromText('POLYGON((0 0,4 0,4 4,1 1))'))",
        9003,
        24,
    ),
    (
        O,
        b"UPDATE t SET g = ST_GeomFromText('LINESTRING(0 0)')",
        9004,
        14,
    ),
    (O, b"UPDATE t SET g = ST_GeomFromText('POINT()')", 9005, 6),
    (
        O,
        b"UPDATE t SET g = ST_GeomFromText('PUNKT(1 1)')",
        9006,
        1,
    ),
    (
        O,
        b"SELECT * FROM t WHERE MBREquals(g, ST_GeomFromText('POINT(1 1) x'))",
        9007,
        11,
    ),
    (
        O,
        b"SELECT * FROM t WHERE MBREquals(ST_GeomFromText('POINT(1'), h)",
        9008,
        7,
    ),
    (
        O,
        b"SELECT * FROM t WHERE MBREquals(g, ST_GeomFromText(''))",
        9008,
        0,
    ),
    (
        O,
        b"INSERT INTO p VALUES (1, ST_GeomFromText('GEOMETRYCOLLECTION(GEOMETRYCOLLECTION(GEOMETRYCOLLECTION(GEOMETRYCOLLECTION(GEOMETRYCOLLECTION(GEOMETRYCOLLECTION(GEOMETRYCOLLECTION(GEOMETRYCOLLECTION(GEOMETRYCOLLECTION('))",
        9009,
        170,
    ),
    // the first bad value in the order of the text
    (
        O,
        b"INSERT INTO p VALUES (99999999999999999999, ST_GeomFromText('POINT(1'))",
        1264,
        0,
    ),
    (
        O,
        b"INSERT INTO p VALUES (1, ST_GeomFromText('POINT(1')), ('a', 1)",
        9008,
        7,
    ),
    (
        O,
        b"INSERT INTO p VALUES (1, ST_GeomFromText('POINT(1 1)')), ('a', ST_GeomFromText('POINT(1'))",
        9014,
        0,
    ),
    (O, b"UPDATE t SET name = '123456' WHERE n = 'a'", 1406, 0),
    (O, b"UPDATE t SET n = 1, name = '123456', n = 'a'", 1406, 0),
    (
        O,
        b"UPDATE t SET n = 1 WHERE id = 99999999999999999999 AND n = 'a'",
        1264,
        0,
    ),
    (
        O,
        b"SELECT * FROM t WHERE MBRWithin(g, ST_GeomFromText('POINT(1')) AND id = 'a'",
        9008,
        7,
    ),
    (
        O,
        b"SELECT * FROM t WHERE name = '123456' AND g <> 1",
        9014,
        0,
    ),
    // what is not refused
    (
        S,
        b"INSERT INTO p VALUES (1, ST_GeomFromText('POINT(1 1)')), (1, ST_GeomFromText(' point ( 2 2.0 ) ', 0))",
        0,
        0,
    ),
    (
        T,
        b"INSERT INTO t VALUES (-7, 'abc', 0, ST_GeomFromText('POINT(1 1)'), ST_GeomFromText('LINESTRING(0 0,1 1)'))",
        0,
        0,
    ),
    (O, b"SELECT * FROM t", 0, 0),
    (
        T,
        b"SELECT g, id, g FROM t WHERE id > 1 AND n <> -1 AND name >= 'a'",
        0,
        0,
    ),
    (
        O,
        b"SELECT h FROM t WHERE MBRDisjoint(h, ST_GeomFromText('POINT(1 1)')) AND MBRContains(ST_GeomFromText('POINT(1 1)'), g)",
        0,
        0,
    ),
    (
        O,
        b"UPDATE t SET n = 1, n = 2, g = ST_GeomFromText('POINT(1 1)')",
        0,
        0,
    ),
    (O, b"DELETE FROM t", 0, 0),
];

// What a statement is bound to.
type Tables = Vec<(Name, Schema)>;

// The table that the text creates.
fn created(
    alloc: Global,
    tables: &[(Name, Schema)],
    text: &[u8],
) -> Result<Option<(Name, Schema)>, AllocError> {
    let statement = meaning_of(alloc, tables, S, text)?;
    match statement {
        Statement::Create { name, schema } => Ok(Some((name, schema))),
        _ => Ok(None),
    }
}

fn tables_of(alloc: Global, texts: &[&[u8]]) -> Result<Tables, AllocError> {
    let mut tables = Vec::new(alloc);
    for text in texts {
        if let Some(table) = created(alloc, tables.as_slice(), text)? {
            tables.push(table)?;
        }
    }
    Ok(tables)
}

// Whether the statement is refused by this number and place, or isn't where the number is 0.
fn is_told(s: &Statement, number: u32, at: i64) -> bool {
    match s {
        Statement::Refused(refusal) => {
            refusal.number() == number && refusal.shown().unwrap_or(0) == at
        }
        _ => number == 0,
    }
}

fn is_case(
    alloc: Global,
    tables: &[(Name, Schema)],
    case: &(Place, &[u8], u32, i64),
) -> Result<bool, AllocError> {
    let (place, text, number, at) = *case;
    let s = meaning_of(alloc, tables, place, text)?;
    Ok(is_told(&s, number, at))
}

fn are_cases(
    alloc: Global,
    tables: &[(Name, Schema)],
    cases: &[(Place, &[u8], u32, i64)],
) -> Result<bool, AllocError> {
    for case in cases {
        if !is_case(alloc, tables, case)? {
            return Ok(false);
        }
    }
    Ok(true)
}

fn all_are_cases(alloc: Global) -> Result<bool, AllocError> {
    let tables = tables_of(alloc, &TABLES)?;
    let cases = are_cases(alloc, tables.as_slice(), &CASES)?;
    Ok(cases && tables.len() == 4)
}

#[test]
fn each_text_has_its_first_cause(rt: HostRuntime) -> Result<(), Fail> {
    let cases = all_are_cases(rt.alloc())?;
    assert!(rt; cases);
    Ok(())
}

// The front of an INSERT, how many bytes its texts have, and the number of its refusal. A row has 2 bytes beside those of
// each text: 2 + 500 + 2 + 496 are the most.
static SIZES: [(&[u8], &[usize], u32); 5] = [
    (b"INSERT INTO w VALUES (1", &[500, 496], 0),
    (b"INSERT INTO w VALUES (1", &[500, 497], 9011),
    (b"INSERT INTO w VALUES (1", &[501, 500], 1406),
    (
        b"INSERT INTO w VALUES (9999999999999999999",
        &[500, 500],
        1264,
    ),
    (b"INSERT INTO w VALUES (1", &[500, 500, 500], 1136),
];

// Adds so many bytes `x` between quotes, behind a comma.
fn put_text(out: &mut Vec<u8>, length: usize) -> Result<(), AllocError> {
    out.extend_from_slice(b", '")?;
    for _ in 0..length {
        out.push(b'x')?;
    }
    out.push(b'\'')?;
    Ok(())
}

fn with_texts(alloc: Global, front: &[u8], lengths: &[usize]) -> Result<Vec<u8>, AllocError> {
    let mut text = Vec::from_slice(alloc, front)?;
    for length in lengths {
        put_text(&mut text, *length)?;
    }
    text.push(b')')?;
    Ok(text)
}

fn are_sizes(
    alloc: Global,
    tables: &[(Name, Schema)],
    rows: &[(&[u8], &[usize], u32)],
) -> Result<bool, AllocError> {
    for (front, lengths, number) in rows {
        let text = with_texts(alloc, front, lengths)?;
        if !is_case(alloc, tables, &(O, &text, *number, 0))? {
            return Ok(false);
        }
    }
    Ok(true)
}

fn all_are_sizes(alloc: Global) -> Result<bool, AllocError> {
    let tables = tables_of(alloc, &TABLES)?;
    are_sizes(alloc, tables.as_slice(), &SIZES)
}

#[test]
fn a_row_has_a_thousand_bytes_at_the_most(rt: HostRuntime) -> Result<(), Fail> {
    let sizes = all_are_sizes(rt.alloc())?;
    assert!(rt; sizes);
    Ok(())
}

// A new table and one that is there, beside 63 tables and beside 64.
static NEW: [(Place, &[u8], u32, i64); 2] = [
    (S, b"CREATE TABLE u (k BIGINT PRIMARY KEY)", 0, 0),
    (S, b"CREATE TABLE v (k BIGINT PRIMARY KEY)", 1050, 0),
];

static FULL: [(Place, &[u8], u32, i64); 2] = [
    (S, b"CREATE TABLE u (k BIGINT PRIMARY KEY)", 9013, 0),
    (S, b"CREATE TABLE v (k BIGINT PRIMARY KEY)", 1050, 0),
];

// So many tables of one name, without columns.
fn so_many(alloc: Global, count: usize) -> Result<Tables, AllocError> {
    let mut tables = Vec::new(alloc);
    for _ in 0..count {
        let name = Name::from_slice(alloc, b"v")?;
        let columns = Columns::new(alloc);
        tables.push((name, Schema { columns }))?;
    }
    Ok(tables)
}

fn are_new(
    alloc: Global,
    count: usize,
    cases: &[(Place, &[u8], u32, i64)],
) -> Result<bool, AllocError> {
    let tables = so_many(alloc, count)?;
    are_cases(alloc, tables.as_slice(), cases)
}

#[test]
fn there_are_sixty_four_tables_at_the_most(rt: HostRuntime) -> Result<(), Fail> {
    let new = are_new(rt.alloc(), 63, &NEW)?;
    let full = are_new(rt.alloc(), 64, &FULL)?;
    assert!(rt; new && full);
    Ok(())
}

// The way to rows, a box as its four numbers x1, y1, x2 and y2.
#[derive(Clone, Copy)]
enum Way {
    Key(i64),
    Tree(u32, Test, i32, i32, i32, i32),
    Scan,
}

// A text, and the way to the rows of its condition in the table that is named.
static PATHS: [(usize, &[u8], Way); 15] = [
    (0, b"SELECT * FROM t", Way::Scan),
    (0, b"SELECT * FROM t WHERE id = 7", Way::Key(7)),
    (0, b"SELECT * FROM t WHERE id = 7 AND id = 8", Way::Key(7)),
    (0, b"SELECT * FROM t WHERE id >= 7", Way::Scan),
    (0, b"SELECT * FROM t WHERE n = 7", Way::Scan),
    (0, b"SELECT * FROM t WHERE name = 'a'", Way::Scan),
    (
        0,
        b"SELECT * FROM t WHERE n = 7 AND id = -9223372036854775808",
        Way::Key(i64::MIN),
    ),
    (
        0,
        b"DELETE FROM t WHERE MBRWithin(g, ST_GeomFromText('LINESTRING(3 1,1 2)'))",
        Way::Tree(3, Test::Within, 1, 1, 3, 2),
    ),
    (
        0,
        b"DELETE FROM t WHERE MBRContains(g, ST_GeomFromText('POINT(1 2)'))",
        Way::Tree(3, Test::Covers, 1, 2, 1, 2),
    ),
    (
        0,
        b"DELETE FROM t WHERE MBRContains(ST_GeomFromText('POINT(1 2)'), g)",
        Way::Tree(3, Test::Within, 1, 2, 1, 2),
    ),
    (
        0,
        b"UPDATE t SET n = 1 WHERE MBRWithin(h, ST_GeomFromText('POINT(1 2)'))",
        Way::Scan,
    ),
    (
        0,
        b"UPDATE t SET n = 1 WHERE MBRWithin(h, ST_GeomFromText('POINT(1 2)')) AND MBREquals(g, ST_GeomFromText('POINT(3 4)')) AND MBRDisjoint(g, ST_GeomFromText('POINT(5 6)'))",
        Way::Tree(3, Test::Equals, 3, 4, 3, 4),
    ),
    (
        0,
        b"UPDATE t SET n = 1 WHERE MBREquals(g, ST_GeomFromText('POINT(3 4)')) AND id = 1",
        Way::Key(1),
    ),
    (
        3,
        b"SELECT id FROM q WHERE MBRIntersects(b, ST_GeomFromText('POINT(1 2)')) AND MBRIntersects(a, ST_GeomFromText('POINT(3 4)'))",
        Way::Tree(2, Test::Intersects, 1, 2, 1, 2),
    ),
    (
        1,
        b"INSERT INTO p VALUES (1, ST_GeomFromText('POINT(1 1)'))",
        Way::Scan,
    ),
];

// Whether the path is this way.
fn is_way(path: &Path, way: Way) -> bool {
    match (path, way) {
        (Path::Key(key), Way::Key(wanted)) => *key == wanted,
        (Path::Tree { column, p }, Way::Tree(wanted, test, x1, y1, x2, y2)) => {
            *column == wanted && is_test(p, test, x1, y1, x2, y2)
        }
        (Path::Scan, Way::Scan) => true,
        _ => false,
    }
}

fn is_test(p: &Predicate, test: Test, x1: i32, y1: i32, x2: i32, y2: i32) -> bool {
    p.test == test && p.q.x1 == x1 && p.q.y1 == y1 && p.q.x2 == x2 && p.q.y2 == y2
}

fn has_way(
    alloc: Global,
    tables: &[(Name, Schema)],
    row: &(usize, &[u8], Way),
) -> Result<bool, AllocError> {
    let (table, text, way) = *row;
    let s = meaning_of(alloc, tables, O, text)?;
    match tables.get(table) {
        Some((_, schema)) => Ok(is_told(&s, 0, 0) && is_way(&path_of(schema, &s), way)),
        None => Ok(false),
    }
}

fn have_ways(
    alloc: Global,
    tables: &[(Name, Schema)],
    rows: &[(usize, &[u8], Way)],
) -> Result<bool, AllocError> {
    for row in rows {
        if !has_way(alloc, tables, row)? {
            return Ok(false);
        }
    }
    Ok(true)
}

fn all_have_ways(alloc: Global) -> Result<bool, AllocError> {
    let tables = tables_of(alloc, &TABLES)?;
    have_ways(alloc, tables.as_slice(), &PATHS)
}

#[test]
fn the_first_key_or_test_is_the_way(rt: HostRuntime) -> Result<(), Fail> {
    let ways = all_have_ways(rt.alloc())?;
    assert!(rt; ways);
    Ok(())
}

// Whether it is the condition `id <> 3`.
fn is_other_than_three(w: &Condition) -> bool {
    match w.atoms.as_slice() {
        [
            Atom::Cmp {
                column: 0,
                op: Op::Ne,
                v: Value::Int(3),
            },
        ] => true,
        _ => false,
    }
}

// Whether it shows these columns of the table, of the rows with `id <> 3`.
fn shows(s: &Statement, name: &[u8], wanted: &[u32]) -> bool {
    match s {
        Statement::Select { table, columns, w } => {
            table.as_slice() == name && columns.as_slice() == wanted && is_other_than_three(w)
        }
        _ => false,
    }
}

fn named_are_shown(alloc: Global, tables: &[(Name, Schema)]) -> Result<bool, AllocError> {
    match parse(alloc, b"SELECT g, id, g FROM p WHERE id <> 3") {
        Ok(p) => {
            let s = bind(alloc, tables, &p, T)?;
            Ok(shows(&s, b"p", &[1, 0, 1]))
        }
        Err(SqlError::Syntax) => Ok(false),
        Err(SqlError::OutOfMemory) => Err(AllocError),
    }
}

fn all_are_shown(alloc: Global, tables: &[(Name, Schema)]) -> Result<bool, AllocError> {
    let s = meaning_of(alloc, tables, O, b"SELECT * FROM t WHERE id <> 3")?;
    Ok(shows(&s, b"t", &[0, 1, 2, 3, 4]))
}

fn are_shown(alloc: Global) -> Result<bool, AllocError> {
    let tables = tables_of(alloc, &TABLES)?;
    let named = named_are_shown(alloc, tables.as_slice())?;
    let all = all_are_shown(alloc, tables.as_slice())?;
    Ok(named && all)
}

#[test]
fn columns_are_shown_in_their_order(rt: HostRuntime) -> Result<(), Fail> {
    law_bound_fits();
    law_whole_is_faithful();
    law_paths_reach();
    let shown = are_shown(rt.alloc())?;
    assert!(rt; shown);
    Ok(())
}
