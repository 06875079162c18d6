//! Wait graphs worked out by hand, their cycles and victims.

use isp_waits::{Waits, victim};
use std::alloc::Global;

/// Whom a session waits for; or the cycle through it, where none is empty.
type Row = (u32, &'static [u32]);

/// Two triangles that share 4, a pair beside them, and 9 before all.
static WOVEN: [Row; 8] = [
    (9, &[4, 7]),
    (4, &[6, 5]),
    (5, &[3]),
    (6, &[2]),
    (3, &[4]),
    (2, &[4, 3]),
    (7, &[8]),
    (8, &[7]),
];

/// None through 9 or 0, the less of two, the shorter of two, a pair.
static WOVEN_CYCLES: [Row; 5] = [
    (9, &[]),
    (0, &[]),
    (4, &[4, 5, 3]),
    (2, &[2, 4, 6]),
    (8, &[8, 7]),
];

/// All but 0 in a row, each waiting for the one before it.
static ROW: [Row; 16] = [
    (1, &[0]),
    (2, &[1]),
    (3, &[2]),
    (4, &[3]),
    (5, &[4]),
    (6, &[5]),
    (7, &[6]),
    (8, &[7]),
    (9, &[8]),
    (10, &[9]),
    (11, &[10]),
    (12, &[11]),
    (13, &[12]),
    (14, &[13]),
    (15, &[14]),
    (16, &[15]),
];

/// The ring that they make with 0.
static RING: [Row; 1] = [(
    5,
    &[5, 4, 3, 2, 1, 0, 16, 15, 14, 13, 12, 11, 10, 9, 8, 7, 6],
)];

/// All sessions, and all but the last again: from place s + 1 on stand the 16 others of session s.
static ROUND: [u32; 33] = [
    0, 1, 2, 3, 4, 5, 6, 7, 8, 9, 10, 11, 12, 13, 14, 15, 16, 0, 1, 2, 3, 4, 5, 6, 7, 8, 9, 10, 11,
    12, 13, 14, 15,
];

/// The cycles where all wait for all.
static PAIRS: [Row; 4] = [(0, &[0, 1]), (1, &[1, 0]), (5, &[5, 0]), (16, &[16, 0])];

fn wait(waits: &mut Waits, rows: &[Row]) {
    for (s, on) in rows {
        if *s < 17 && on.len() <= 17 {
            waits.wait(*s, *on);
        }
    }
}

/// Whether that is the cycle which is told of the session.
fn has_cycle(waits: &Waits, s: u32, wanted: &[u32]) -> bool {
    match waits.cycle_from(s) {
        None => wanted.is_empty(),
        Some(cycle) => cycle.members.as_slice() == wanted,
    }
}

fn has_cycles(waits: &Waits, rows: &[Row]) -> bool {
    for (s, wanted) in rows {
        if !has_cycle(waits, *s, *wanted) {
            return false;
        }
    }
    true
}

/// Whether the woven graph has its cycles, and those that are left as sessions end and stop waiting.
fn woven_agrees(alloc: Global) -> bool {
    let mut waits = Waits::new(alloc);
    wait(&mut waits, &WOVEN);
    let whole = has_cycles(&waits, &WOVEN_CYCLES);
    waits.ended(5);
    let without_five = has_cycle(&waits, 4, &[4, 6, 2]);
    waits.stop_waiting(2);
    let two_goes_on = has_cycle(&waits, 4, &[]);
    whole && without_five && two_goes_on && blocked_agrees(&waits)
}

fn blocked_agrees(waits: &Waits) -> bool {
    waits.blocked(6) && !waits.blocked(2) && !waits.blocked(5) && !waits.blocked(99)
}

#[test]
fn cycles_by_hand(rt: HostRuntime) {
    assert!(rt; woven_agrees(rt.alloc()));
}

fn ring_agrees(alloc: Global) -> bool {
    let mut waits = Waits::new(alloc);
    wait(&mut waits, &ROW);
    let none = has_cycle(&waits, 5, &[]);
    waits.wait(0, &[16]);
    none && has_cycles(&waits, &RING)
}

#[test]
fn all_in_a_ring(rt: HostRuntime) {
    assert!(rt; ring_agrees(rt.alloc()));
}

fn all_wait_for_all(waits: &mut Waits) {
    for s in 0..17u32 {
        let first = s as usize + 1;
        waits.wait(s, &ROUND[first..first + 16]);
    }
}

fn crowd_agrees(alloc: Global) -> bool {
    let mut waits = Waits::new(alloc);
    all_wait_for_all(&mut waits);
    has_cycles(&waits, &PAIRS)
}

#[test]
fn the_least_of_many_cycles(rt: HostRuntime) {
    assert!(rt; crowd_agrees(rt.alloc()));
}

/// The undo entries of each session.
static UNDO: [u64; 17] = [0, 3, 7, 3, 9, 5, 4, 0, 0, 0, 0, 0, 0, 0, 0, 0, 1];

/// Rings, and who gives way: the fewest entries; the greatest number of equals.
static VICTIMS: [(&[Row], u32); 2] = [
    (&[(2, &[5]), (5, &[6]), (6, &[4]), (4, &[2])], 6),
    (&[(1, &[5]), (5, &[3]), (3, &[2]), (2, &[1])], 3),
];

fn gives_way(alloc: Global, rows: &[Row], wanted: u32) -> bool {
    let mut waits = Waits::new(alloc);
    wait(&mut waits, rows);
    match waits.cycle_from(5) {
        None => false,
        Some(cycle) => !cycle.members.is_empty() && victim(&cycle, &UNDO) == wanted,
    }
}

fn victims_agree(alloc: Global) -> bool {
    for (rows, wanted) in &VICTIMS {
        if !gives_way(alloc, *rows, *wanted) {
            return false;
        }
    }
    true
}

#[test]
fn victims(rt: HostRuntime) {
    assert!(rt; victims_agree(rt.alloc()));
}
