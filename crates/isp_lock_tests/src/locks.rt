//! The modes against each other, who blocks whom, and a mixture of locks as it is listed.

use isp_reclock::{Asked, Blocker, Held, Locks, Mode};
use std::alloc::{AllocError, Global};
use std::test::Fail;

/// Each mode that is held, each that is asked for, and whether they conflict (the MySQL 8.0 manual, "InnoDB Locking").
static MODES: [(Mode, Mode, bool); 16] = [
    (Mode::IS, Mode::IS, false),
    (Mode::IS, Mode::IX, false),
    (Mode::IS, Mode::S, false),
    (Mode::IS, Mode::X, true),
    (Mode::IX, Mode::IS, false),
    (Mode::IX, Mode::IX, false),
    (Mode::IX, Mode::S, true),
    (Mode::IX, Mode::X, true),
    (Mode::S, Mode::IS, false),
    (Mode::S, Mode::IX, true),
    (Mode::S, Mode::S, false),
    (Mode::S, Mode::X, true),
    (Mode::X, Mode::IS, true),
    (Mode::X, Mode::IX, true),
    (Mode::X, Mode::S, true),
    (Mode::X, Mode::X, true),
];

fn modes_agree() -> bool {
    for (held, asked, conflict) in &MODES {
        if held.conflicts_with(*asked) != *conflict {
            return false;
        }
    }
    true
}

#[test]
fn modes_against_each_other(rt: HostRuntime) {
    assert!(rt; modes_agree());
}

/// A lock that a session asks for, and those that stand in its way.
#[derive(Clone, Copy)]
struct Ask {
    trx: u32,
    table: u32,
    key: Option<i64>,
    mode: Mode,
    by: &'static [Blocker],
}

/// Session 9 gets a little of everything, in no order; 3 and 20 share a table with it; 4 and 9 ask for what they hold.
static ASKS: [Ask; 17] = [
    Ask {
        trx: 9,
        table: 2,
        key: Some(4),
        mode: Mode::X,
        by: &[],
    },
    Ask {
        trx: 9,
        table: 2,
        key: Some(-4),
        mode: Mode::X,
        by: &[],
    },
    Ask {
        trx: 20,
        table: 2,
        key: None,
        mode: Mode::IX,
        by: &[],
    },
    Ask {
        trx: 9,
        table: 5,
        key: None,
        mode: Mode::S,
        by: &[],
    },
    Ask {
        trx: 9,
        table: 2,
        key: Some(4),
        mode: Mode::S,
        by: &[],
    },
    Ask {
        trx: 9,
        table: 2,
        key: None,
        mode: Mode::IX,
        by: &[],
    },
    Ask {
        trx: 3,
        table: 2,
        key: None,
        mode: Mode::IX,
        by: &[],
    },
    Ask {
        trx: 3,
        table: 2,
        key: None,
        mode: Mode::IS,
        by: &[],
    },
    Ask {
        trx: 9,
        table: 1,
        key: Some(100),
        mode: Mode::S,
        by: &[],
    },
    Ask {
        trx: 9,
        table: 2,
        key: None,
        mode: Mode::IS,
        by: &[],
    },
    Ask {
        trx: 6,
        table: 8,
        key: None,
        mode: Mode::X,
        by: &[],
    },
    Ask {
        trx: 4,
        table: 1,
        key: Some(100),
        mode: Mode::S,
        by: &[],
    },
    Ask {
        trx: 3,
        table: 1,
        key: Some(100),
        mode: Mode::X,
        by: &[
            Blocker {
                trx: 4,
                held: Mode::S,
            },
            Blocker {
                trx: 9,
                held: Mode::S,
            },
        ],
    },
    Ask {
        trx: 3,
        table: 2,
        key: Some(-4),
        mode: Mode::S,
        by: &[Blocker {
            trx: 9,
            held: Mode::X,
        }],
    },
    Ask {
        trx: 4,
        table: 2,
        key: None,
        mode: Mode::X,
        by: &[
            Blocker {
                trx: 3,
                held: Mode::IS,
            },
            Blocker {
                trx: 9,
                held: Mode::IS,
            },
            Blocker {
                trx: 20,
                held: Mode::IX,
            },
        ],
    },
    Ask {
        trx: 9,
        table: 2,
        key: None,
        mode: Mode::S,
        by: &[
            Blocker {
                trx: 3,
                held: Mode::IX,
            },
            Blocker {
                trx: 20,
                held: Mode::IX,
            },
        ],
    },
    Ask {
        trx: 9,
        table: 6,
        key: None,
        mode: Mode::X,
        by: &[],
    },
];

/// Asks; a key is asked for in mode S or X alone.
fn asked(locks: &mut Locks, ask: Ask) -> Result<Asked, AllocError> {
    match (ask.key, ask.mode) {
        (Some(key), Mode::S) => locks.ask_key(ask.trx, ask.table, key, Mode::S),
        (Some(key), Mode::X) => locks.ask_key(ask.trx, ask.table, key, Mode::X),
        _ => locks.ask_table(ask.trx, ask.table, ask.mode),
    }
}

fn names(answer: &Asked, wanted: &[Blocker]) -> bool {
    match answer {
        Asked::Granted => wanted.is_empty(),
        Asked::Conflict(by) => !wanted.is_empty() && by.as_slice() == wanted,
    }
}

/// Whether each that asks is answered as its row says.
fn all_answered(locks: &mut Locks) -> Result<bool, AllocError> {
    for ask in &ASKS {
        let answer = asked(locks, *ask)?;
        if !names(&answer, ask.by) {
            return Ok(false);
        }
    }
    Ok(true)
}

/// The locks of session 9: tables by number and mode, then keys by table, key and mode.
static OF_NINE: [Held; 8] = [
    Held {
        table: 2,
        key: None,
        mode: Mode::IS,
    },
    Held {
        table: 2,
        key: None,
        mode: Mode::IX,
    },
    Held {
        table: 5,
        key: None,
        mode: Mode::S,
    },
    Held {
        table: 6,
        key: None,
        mode: Mode::X,
    },
    Held {
        table: 1,
        key: Some(100),
        mode: Mode::S,
    },
    Held {
        table: 2,
        key: Some(-4),
        mode: Mode::X,
    },
    Held {
        table: 2,
        key: Some(4),
        mode: Mode::S,
    },
    Held {
        table: 2,
        key: Some(4),
        mode: Mode::X,
    },
];

/// The locks of session 3.
static OF_THREE: [Held; 2] = [
    Held {
        table: 2,
        key: None,
        mode: Mode::IS,
    },
    Held {
        table: 2,
        key: None,
        mode: Mode::IX,
    },
];

fn lists(alloc: Global, locks: &Locks, trx: u32, wanted: &[Held]) -> Result<bool, AllocError> {
    let list = locks.list(alloc, trx)?;
    Ok(list.as_slice() == wanted)
}

/// Whether keys are held and taken as the rows say: by a key's lock, by that of its table, or not.
fn keys_agree(locks: &Locks) -> bool {
    locks.holds_key(9, 2, 4, Mode::S)
        && !locks.holds_key(9, 2, -4, Mode::S)
        && locks.key_taken(2, -4)
        && locks.key_taken(8, 1)
        && !locks.key_taken(1, 100)
}

fn mixture_agrees(alloc: Global) -> Result<bool, AllocError> {
    let mut locks = Locks::new(alloc);
    let answered = all_answered(&mut locks)?;
    let listed = lists(alloc, &locks, 9, &OF_NINE)?;
    let agree = keys_agree(&locks);
    locks.release_all(9);
    let gone = lists(alloc, &locks, 9, &[])?;
    let left = lists(alloc, &locks, 3, &OF_THREE)?;
    Ok(answered && listed && agree && gone && left)
}

#[test]
fn a_mixture_of_locks(rt: HostRuntime) -> Result<(), Fail> {
    let agrees = mixture_agrees(rt.alloc())?;
    assert!(rt; agrees);
    Ok(())
}
