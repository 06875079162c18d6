//! Statements on plain tables in memory, with what each is told.

use isp_plain::{Plain, Reply};
use isp_plan::meaning_of;
use isp_serial::Place;
use isp_text::print_reply;
use std::alloc::{AllocError, Global};
use std::test::Fail;

// A table of four points.
static SETUP: [(&[u8], &[u8]); 2] = [
    (
        b"CREATE TABLE p (id BIGINT PRIMARY KEY, name VARCHAR(500), g GEOMETRY NOT NULL SRID 0, SPATIAL INDEX (g))",
        b"OK",
    ),
    (
        b"INSERT INTO p VALUES (1,'b',ST_GeomFromText('POINT(0 0)')),(2,'ab',ST_GeomFromText('POINT(5 5)')),(3,'B',ST_GeomFromText('POINT(10 0)')),(-4,'',ST_GeomFromText('POINT(0 10)'))",
        b"OK 4 rows",
    ),
];

// Searches of that table. The box of the last three is (0 0,6 6).
static SEARCHES: [(&[u8], &[u8]); 12] = [
    (b"SELECT id FROM p", b"OK 4 rows (-4) (1) (2) (3)"),
    (b"SELECT id FROM p WHERE id < 2", b"OK 2 rows (-4) (1)"),
    (b"SELECT id FROM p WHERE id >= 2", b"OK 2 rows (2) (3)"),
    (b"SELECT id FROM p WHERE id <> 2", b"OK 3 rows (-4) (1) (3)"),
    (b"SELECT id FROM p WHERE name > 'a'", b"OK 2 rows (1) (2)"),
    (b"SELECT id FROM p WHERE name <= 'B'", b"OK 2 rows (-4) (3)"),
    (b"SELECT id FROM p WHERE name = 'ab'", b"OK 1 rows (2)"),
    (
        b"SELECT id FROM p WHERE id = 2 AND name = 'b'",
        b"OK 0 rows",
    ),
    (
        b"SELECT g,id FROM p WHERE id = 3",
        b"OK 1 rows (POINT(10 0),3)",
    ),
    (
        b"SELECT id FROM p WHERE MBRIntersects(g, ST_GeomFromText('LINESTRING(0 0,6 6)'))",
        b"OK 2 rows (1) (2)",
    ),
    (
        b"SELECT id FROM p WHERE MBRDisjoint(g, ST_GeomFromText('LINESTRING(0 0,6 6)'))",
        b"OK 2 rows (-4) (3)",
    ),
    (
        b"SELECT id FROM p WHERE MBRCovers(g, ST_GeomFromText('LINESTRING(0 0,6 6)'))",
        b"OK 0 rows",
    ),
];

// Changes of that table, each behind the one before it.
static CHANGES: [(&[u8], &[u8]); 12] = [
    (
        b"INSERT INTO p VALUES (-5,'',ST_GeomFromText('POINT(1 1)')),(1,'',ST_GeomFromText('POINT(1 1)'))",
        b"ERR 1062 23000 duplicate key 1",
    ),
    (
        b"INSERT INTO p VALUES (7,'',ST_GeomFromText('POINT(1 1)')),(7,'',ST_GeomFromText('POINT(1 1)'))",
        b"ERR 1062 23000 duplicate key 7",
    ),
    (b"SELECT id FROM p", b"OK 4 rows (-4) (1) (2) (3)"),
    (
        b"UPDATE p SET name = 'x', g = ST_GeomFromText('POINT(7 7)'), name = 'y' WHERE id >= 2",
        b"OK 2 rows",
    ),
    (
        b"SELECT * FROM p WHERE name > 'b'",
        b"OK 2 rows (2,'y',POINT(7 7)) (3,'y',POINT(7 7))",
    ),
    (b"UPDATE p SET name = 'z' WHERE id = 9", b"OK 0 rows"),
    (b"DELETE FROM p WHERE name = 'y'", b"OK 2 rows"),
    (
        b"INSERT INTO p VALUES (-5,'',ST_GeomFromText('POINT(1 1)')),(2,'',ST_GeomFromText('POINT(1 1)'))",
        b"OK 2 rows",
    ),
    (b"SELECT id FROM p", b"OK 4 rows (-5) (-4) (1) (2)"),
    (
        b"DELETE FROM q WHERE id = 1",
        b"ERR 1146 42S02 no such table",
    ),
    (b"DELETE FROM p", b"OK 4 rows"),
    (b"SELECT id FROM p", b"OK 0 rows"),
];

// What the text is answered on the tables.
fn answer(
    plain: &mut Plain,
    alloc: Global,
    place: Place,
    text: &[u8],
) -> Result<Reply, AllocError> {
    let statement = meaning_of(alloc, plain.tables(), place, text)?;
    plain.run(&statement)
}

fn is_told(
    plain: &mut Plain,
    alloc: Global,
    place: Place,
    row: (&[u8], &[u8]),
) -> Result<bool, AllocError> {
    let reply = answer(plain, alloc, place, row.0)?;
    let told = print_reply(alloc, &reply)?;
    Ok(told.as_slice() == row.1)
}

fn are_told(
    plain: &mut Plain,
    alloc: Global,
    place: Place,
    rows: &[(&[u8], &[u8])],
) -> Result<bool, AllocError> {
    for row in rows {
        if !is_told(plain, alloc, place, *row)? {
            return Ok(false);
        }
    }
    Ok(true)
}

fn are_all_told(alloc: Global, rows: &[(&[u8], &[u8])]) -> Result<bool, AllocError> {
    let mut plain = Plain::new(alloc);
    let set_up = are_told(&mut plain, alloc, Place::Setup, &SETUP)?;
    let told = are_told(&mut plain, alloc, Place::Session, rows)?;
    Ok(set_up && told)
}

#[test]
fn conditions_pick_rows(rt: HostRuntime) -> Result<(), Fail> {
    let told = are_all_told(rt.alloc(), &SEARCHES)?;
    assert!(rt; told);
    Ok(())
}

#[test]
fn statements_answer_and_leave(rt: HostRuntime) -> Result<(), Fail> {
    let told = are_all_told(rt.alloc(), &CHANGES)?;
    assert!(rt; told);
    Ok(())
}

// A text with so many y in it.
fn with_filler(
    alloc: Global,
    front: &[u8],
    times: usize,
    back: &[u8],
) -> Result<Vec<u8>, AllocError> {
    let mut text = Vec::new(alloc);
    text.extend_from_slice(front)?;
    for _ in 0..times {
        text.push(b'y')?;
    }
    text.extend_from_slice(back)?;
    Ok(text)
}

// What UPDATE is told that puts so many bytes beside a text of 499 bytes: a row has 8 for the number, 2 and 499 for the
// text, and 2 and the new bytes.
fn is_told_of(
    plain: &mut Plain,
    alloc: Global,
    times: usize,
    expected: &[u8],
) -> Result<bool, AllocError> {
    let text = with_filler(alloc, b"UPDATE w SET b = '", times, b"'")?;
    is_told(plain, alloc, Place::Session, (&text, expected))
}

static WIDE: [(&[u8], &[u8]); 1] = [(
    b"CREATE TABLE w (id BIGINT PRIMARY KEY, n BIGINT, a VARCHAR(500), b VARCHAR(500))",
    b"OK",
)];

fn is_size_limited(alloc: Global) -> Result<bool, AllocError> {
    let mut plain = Plain::new(alloc);
    let made = are_told(&mut plain, alloc, Place::Setup, &WIDE)?;
    let text = with_filler(alloc, b"INSERT INTO w VALUES (1,5,'", 499, b"','')")?;
    let added = is_told(&mut plain, alloc, Place::Session, (&text, b"OK 1 rows"))?;
    let fits = is_told_of(&mut plain, alloc, 489, b"OK 1 rows")?;
    let refused = is_told_of(&mut plain, alloc, 490, b"ERR 9011 HY000 row too large")?;
    Ok(made && added && fits && refused)
}

#[test]
fn rows_have_at_most_1000_bytes(rt: HostRuntime) -> Result<(), Fail> {
    let limited = is_size_limited(rt.alloc())?;
    assert!(rt; limited);
    Ok(())
}
