//! Files, statements on them, and what each step of these is.
ghost use Rattle.std.specs.Prelude.{◌≡◌, true, false, OnOk};
ghost use Rattle.isp_tables.specs.Calls.{Serves};

use crate::steps::Kind::{Event, Failing};
use crate::steps::{Act, commit, goes, open};
use isp_exec::Context;
use isp_page::{Fault, MemPages, Pages};
use isp_serial::Place;
use std::alloc::Global;
use std::test::Fail;

/// A file, statements of which each is committed, and then statements of one transaction.
struct Case {
    /// How many pages it has beyond 64.
    more: u8,
    setup: &'static [Act],
    acts: &'static [Act],
}

macro_rules! setup {
    ($text:expr, $steps:expr => $answer:expr) => {
        Act {
            place: Place::Setup,
            text: $text,
            steps: &$steps,
            answer: $answer,
        }
    };
}

macro_rules! act {
    ($text:expr, $steps:expr => $answer:expr) => {
        Act {
            place: Place::Session,
            text: $text,
            steps: &$steps,
            answer: $answer,
        }
    };
}

/// Five points of a table, on one leaf.
static ON_ONE_LEAF: Case = Case {
    more: 64,
    setup: &[
        setup!(
            b"CREATE TABLE p (id BIGINT PRIMARY KEY, g GEOMETRY NOT NULL SRID 0, SPATIAL INDEX (g))",
            [] => b"OK"
        ),
        setup!(
            b"INSERT INTO p VALUES (1,ST_GeomFromText('POINT(0 0)')),\
            (2,ST_GeomFromText('POINT(10 0)')),(3,ST_GeomFromText('POINT(0 10)')),\
            (4,ST_GeomFromText('POINT(10 10)')),(5,ST_GeomFromText('POINT(5 5)'))",
            [Event, Event, Event, Event, Event, Event, Event, Event, Event, Event] => b"OK 5 rows"
        ),
    ],
    acts: &[
        // A key that is named is one event, and a leaf is one.
        act!(b"SELECT id FROM p WHERE id = 5", [Event] => b"OK 1 rows (5)"),
        act!(b"SELECT id FROM p WHERE id = 6", [Event] => b"OK 0 rows"),
        act!(b"SELECT id FROM p", [Event] => b"OK 5 rows (1) (2) (3) (4) (5)"),
        // Of a key that is there what was written is taken back.
        act!(
            b"INSERT INTO p VALUES (6,ST_GeomFromText('POINT(9 1)')),\
            (1,ST_GeomFromText('POINT(9 2)'))",
            [Event, Event, Failing(1062), Event] => b"ERR 1062 23000 duplicate key 1"
        ),
        act!(
            b"INSERT INTO p VALUES (1,ST_GeomFromText('POINT(9 2)'))",
            [Failing(1062)] => b"ERR 1062 23000 duplicate key 1"
        ),
        act!(
            b"INSERT INTO p VALUES (8,ST_GeomFromText('POINT(9 1)')),\
            (8,ST_GeomFromText('POINT(9 2)'))",
            [Event, Event, Failing(1062), Event] => b"ERR 1062 23000 duplicate key 8"
        ),
        // These are ready at once, and end nothing.
        act!(b"BEGIN", [] => b"OK"),
        act!(b"COMMIT", [] => b"OK"),
        act!(b"ROLLBACK", [] => b"OK"),
        act!(b"SELECT", [] => b"ERR 1064 42000 syntax"),
        act!(b"SELECT * FROM q", [] => b"ERR 1146 42S02 no such table"),
        // ROLLBACK takes back one change a step.
        act!(
            b"INSERT INTO p VALUES (7,ST_GeomFromText('POINT(9 1)'))",
            [Event, Event] => b"OK 1 rows"
        ),
        act!(b"DELETE FROM p WHERE id > 4", [Event, Event, Event] => b"OK 2 rows"),
        act!(b"ROLLBACK", [Event, Event, Event] => b"OK"),
        act!(b"SELECT id FROM p", [Event] => b"OK 5 rows (1) (2) (3) (4) (5)"),
    ],
};

/// Eight rows so wide that they stand on two leaves, four on each.
static ON_TWO_LEAVES: Case = Case {
    more: 64,
    setup: &[
        setup!(
            b"CREATE TABLE t (id BIGINT PRIMARY KEY, n BIGINT, a VARCHAR(500), b VARCHAR(500))",
            [] => b"OK"
        ),
        setup!(
            b"INSERT INTO t VALUES (1,0,'#',''),(2,0,'#',''),(3,0,'#',''),(4,0,'#',''),\
            (5,0,'#',''),(6,0,'#',''),(7,0,'#',''),(8,0,'#','')",
            [
                Event, Event, Event, Event, Event, Event, Event, Event,
                Event, Event, Event, Event, Event, Event, Event, Event
            ] => b"OK 8 rows"
        ),
    ],
    acts: &[
        act!(b"SELECT id FROM t", [Event, Event] => b"OK 8 rows (1) (2) (3) (4) (5) (6) (7) (8)"),
        act!(b"SELECT id FROM t WHERE id = 8", [Event] => b"OK 1 rows (8)"),
        // All leaves are read before a row is written.
        act!(
            b"UPDATE t SET n = 2 WHERE id > 3 AND id < 7",
            [Event, Event, Event, Event, Event] => b"OK 3 rows"
        ),
        act!(b"SELECT id FROM t WHERE n = 2", [Event, Event] => b"OK 3 rows (4) (5) (6)"),
        // A row that would get too large ends the scan on its leaf.
        act!(
            b"UPDATE t SET b = '#' WHERE id > 3",
            [Failing(9011)] => b"ERR 9011 HY000 row too large"
        ),
        act!(
            b"UPDATE t SET b = '#' WHERE id > 4",
            [Event, Failing(9011)] => b"ERR 9011 HY000 row too large"
        ),
        act!(b"DELETE FROM t WHERE n = 2", [Event, Event, Event, Event, Event] => b"OK 3 rows"),
        act!(b"ROLLBACK", [Event, Event, Event, Event, Event, Event] => b"OK"),
        act!(b"SELECT id FROM t WHERE n = 0", [Event, Event] => b"OK 8 rows (1) (2) (3) (4) (5) (6) (7) (8)"),
    ],
};

/// Of 65 pages a table leaves the 48 that a change asks for, and the first change takes one.
static FULL: Case = Case {
    more: 1,
    setup: &[setup!(
        b"CREATE TABLE p (id BIGINT PRIMARY KEY, n BIGINT)",
        [] => b"OK"
    )],
    acts: &[
        act!(
            b"INSERT INTO p VALUES (1,1),(2,2),(3,3),(4,4),(5,5)",
            [Event, Event, Event, Failing(1114), Event] => b"ERR 1114 HY000 file is full"
        ),
        act!(b"SELECT * FROM p", [Event] => b"OK 0 rows"),
        act!(
            b"INSERT INTO p VALUES (1,1)",
            [Event, Failing(1114)] => b"ERR 1114 HY000 file is full"
        ),
    ],
};

/// Of 64 pages a table leaves one less.
static NO_ROOM: Case = Case {
    more: 0,
    setup: &[
        setup!(b"CREATE TABLE p (id BIGINT PRIMARY KEY, n BIGINT)", [] => b"OK"),
        setup!(
            b"CREATE TABLE q (id BIGINT PRIMARY KEY, n BIGINT)",
            [] => b"ERR 1114 HY000 file is full"
        ),
    ],
    acts: &[act!(b"SELECT * FROM q", [] => b"ERR 1146 42S02 no such table")],
};

fn set_up<P: Pages>(alloc: Global, context: &mut Context<P>, acts: &[Act]) -> Result<bool, Fault>
    requires serves { Serves P.Pages context.old.pages context.old.tables }
    ensures serves { OnOk result (Serves P.Pages context.new.pages context.new.tables) }
{
    for act in acts {
        if !goes(alloc, context, act)? {
            return Ok(false);
        }
        commit(alloc, context)?;
    }
    Ok(true)
}

fn go<P: Pages>(alloc: Global, context: &mut Context<P>, acts: &[Act]) -> Result<bool, Fault>
    requires serves { Serves P.Pages context.old.pages context.old.tables }
    ensures serves { OnOk result (Serves P.Pages context.new.pages context.new.tables) }
{
    for act in acts {
        if !goes(alloc, context, act)? {
            return Ok(false);
        }
    }
    Ok(true)
}

fn goes_on<P: Pages + Drop>(alloc: Global, pages: P, case: &Case) -> Result<bool, Fault>
    requires usable { P.usable pages ≡ true }
    requires none { (P.mini pages).is_begun ≡ false }
{
    let mut context = open(alloc, pages)?;
    let made = set_up(alloc, &mut context, case.setup)?;
    let gone = go(alloc, &mut context, case.acts)?;
    Ok(made && gone)
}

fn is_so(alloc: Global, case: &Case) -> Result<bool, Fault> {
    let pages = MemPages::new(alloc, 64 + u32::from(case.more), 4, 0)?;
    goes_on(alloc, pages, case)
}

#[test]
fn statements_go_by_events(rt: HostRuntime) {
    assert!(rt; is_so(rt.alloc(), &ON_ONE_LEAF) == Ok(true));
}

#[test]
fn leaves_are_read_one_by_one(rt: HostRuntime) {
    assert!(rt; is_so(rt.alloc(), &ON_TWO_LEAVES) == Ok(true));
}

#[test]
fn a_full_file_turns_a_statement(rt: HostRuntime) {
    assert!(rt; is_so(rt.alloc(), &FULL) == Ok(true));
    assert!(rt; is_so(rt.alloc(), &NO_ROOM) == Ok(true));
}
