//! Drawn transactions beside plain rows.
ghost use Rattle.std.specs.Prelude.{◌≡◌, ◌<◌, true, false, OnOk};
ghost use Rattle.isp_format.specs.Undo.{undo_slots};
ghost use Rattle.isp_trx_tests.specs.Ready.{IsReady};

use crate::acts::{Act, do_one, make};
use crate::noted::{put_back, read_file};
use crate::seen::{NO_ROWS, Row, Rows, look, set_row, unmarked};
use isp_page::{Fault, MemPages, Pages};
use isp_trx::Trx;
use std::alloc::Global;
use std::test::Fail;

/// How many changes of a transaction can be taken back at most.
const MOST: usize = 63;

/// The committed rows; and the present ones before each change that can be taken back, and behind the last one.
#[derive(Drop)]
struct Plain {
    committed: Rows,
    present: [Rows; 64],
    count: usize,
}

// The present rows.
fn present(plain: &Plain) -> Rows {
    plain.present.get(plain.count).copied().unwrap_or(NO_ROWS)
}

// Changes the row of a key.
fn change(plain: &mut Plain, key: u8, row: Option<Row>) {
    let mut rows = present(plain);
    set_row(&mut rows, usize::from(key), row);
    if plain.count < MOST {
        let next = plain.count + 1;
        plain.present[next] = rows;
        plain.count = next;
    }
}

// Makes the plain rows what the act makes those of the file.
fn follow(plain: &mut Plain, act: Act) {
    match act {
        Act::Write(key, byte, len) => {
            let len = usize::from(len);
            change(plain, key, Some(Row { byte, len }));
        }
        Act::Delete(key) => change(plain, key, None),
        Act::Undo => plain.count = plain.count.saturating_sub(1),
        Act::UndoAll => plain.count = 0,
        Act::Commit => {
            plain.committed = present(plain);
            plain.present[0] = plain.committed;
            plain.count = 0;
        }
        Act::End => {}
    }
}

// A number for this place of a turn, as SplitMix draws them (Steele, Lea and Flood 2014).
fn drawn(at: u64, place: u64) -> u64 {
    let seed = at.wrapping_mul(16).wrapping_add(place);
    let first = seed.wrapping_mul(0x9E37_79B9_7F4A_7C15);
    let second = (first ^ first >> 30).wrapping_mul(0xBF58_476D_1CE4_E5B9);
    let third = (second ^ second >> 27).wrapping_mul(0x94D0_49BB_1331_11EB);
    third >> 32
}

// A row of a key written, of up to 200 bytes.
fn written(key: u8, at: u64) -> Act {
    let len = (drawn(at, 3) % 201) as u16;
    let byte = (drawn(at, 4) % 256) as u8;
    Act::Write(key, if len == 0 { 0 } else { byte }, len)
}

// The act of a turn: sixteen turns mostly write, and the next sixteen take back as often.
fn act_of(plain: &Plain, at: u64) -> Act {
    let key = (1 + drawn(at, 0) % 12) as u8;
    let rows = present(plain);
    let there = rows.get(usize::from(key)).is_some_and(|row| row.is_some());
    let undoes = if at / 16 % 2 == 0 { 1 } else { 4 };
    if plain.count == MOST || drawn(at, 1) % 8 < undoes {
        Act::Undo
    } else if there && drawn(at, 2) % 4 == 0 {
        Act::Delete(key)
    } else {
        written(key, at)
    }
}

// Does an act on the file and on the plain rows; whether the file's rows are the present ones then, and with the old rows of the
// transaction put back the committed ones.
fn step<P: Pages>(
    alloc: Global,
    pages: &mut P,
    trx: &mut Trx,
    plain: &mut Plain,
    act: Act,
) -> Result<bool, Fault>
    requires { IsReady P.Pages pages.old }
    ensures { OnOk result (IsReady P.Pages pages.new) }
{
    do_one(alloc, pages, trx, act)?;
    follow(plain, act);
    let now = unmarked(&look(alloc, pages)?);
    let file = read_file(pages)?;
    let mut back = now;
    let count = put_back(&file, trx.session(), &mut back);
    let counted = count == plain.count && trx.undo_count() == plain.count;
    Ok(now == present(plain) && back == plain.committed && counted)
}

// Does up to 95 drawn acts.
fn change_rows<P: Pages>(
    alloc: Global,
    pages: &mut P,
    trx: &mut Trx,
    plain: &mut Plain,
    at: u64,
) -> Result<bool, Fault>
    requires { IsReady P.Pages pages.old }
    ensures { OnOk result (IsReady P.Pages pages.new) }
{
    for turn in 0..drawn(at, 5) % 96 {
        let act = act_of(plain, at.wrapping_mul(96).wrapping_add(turn));
        let agrees = step(alloc, pages, trx, plain, act)?;
        if !agrees {
            return Ok(false);
        }
    }
    Ok(true)
}

// The slot of a transaction.
fn slot_of(at: u64) -> u32
    ensures { result < undo_slots }
{
    match at % 3 {
        0 => 0,
        1 => 7,
        _ => 31,
    }
}

// A transaction, which is committed as it is or all taken back.
fn transact<P: Pages>(
    alloc: Global,
    pages: &mut P,
    plain: &mut Plain,
    at: u64,
) -> Result<bool, Fault>
    requires { IsReady P.Pages pages.old }
    ensures { OnOk result (IsReady P.Pages pages.new) }
{
    let mut trx = Trx::begin(alloc, slot_of(at));
    let last = if drawn(at, 6) % 3 == 0 {
        Act::UndoAll
    } else {
        Act::Undo
    };
    let changed = change_rows(alloc, pages, &mut trx, plain, at)?;
    let undone = step(alloc, pages, &mut trx, plain, last)?;
    let committed = step(alloc, pages, &mut trx, plain, Act::Commit)?;
    let ended = step(alloc, pages, &mut trx, plain, Act::End)?;
    Ok(changed && undone && committed && ended)
}

// So many transactions, one after another.
fn is_so<P: Pages>(alloc: Global, pages: &mut P, count: u64) -> Result<bool, Fault>
    requires usable { P.usable pages.old ≡ true }
    requires none { (P.mini pages.old).is_begun ≡ false }
{
    make(pages)?;
    let mut plain = Plain {
        committed: NO_ROWS,
        present: [NO_ROWS; 64],
        count: 0,
    };
    for at in 0..count {
        let agrees = transact(alloc, pages, &mut plain, at)?;
        if !agrees {
            return Ok(false);
        }
    }
    Ok(true)
}

fn all_agree(alloc: Global) -> Result<bool, Fault> {
    let mut pages = MemPages::new(alloc, 128, 4, 0)?;
    let agree = is_so(alloc, &mut pages, 100)?;
    Ok(agree)
}

#[test]
fn transactions_follow_plain_rows(rt: HostRuntime) {
    assert!(rt; all_agree(rt.alloc()) == Ok(true));
}
