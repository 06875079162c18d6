//! The rows of one table in memory, by their keys.

ghost use Rattle.std.specs.Prelude.{◌≡◌, ◌<◌, ◌≤◌, IfOk, OnOk, OnErr, MatchResult, true, false, if◌then◌else◌, IsNone, IsSome, length, Some, None};
ghost use Rattle.isp_plain.specs.Entries.{has_key, with_row, with_rows, with_value, without_row, without_rows, first_duplicate};
ghost use Rattle.isp_plain.specs.Values.{key_of};

use crate::{Row, Value};
use isp_mbr::Duplicate;
use std::alloc::{AllocError, Global};
use std::collections::BTreeMap;

/// Rows by key.
pub type Entries = BTreeMap<i64, Row>;

// The key of a row: its first value.
fn key_of(row: &Row) -> i64
    ensures { result ≡ key_of row.now }
{
    match row.values.as_slice() {
        [Value::Int(key), ..] => *key,
        _ => 0,
    }
}

// Whether a row has the key.
fn has_key(entries: &Entries, key: i64) -> bool
    ensures { result ≡ has_key entries.now.entries key }
{
    entries.contains_key(&key)
}

// Puts a row at its key. Want of memory leaves the rows as they were.
fn put(entries: &mut Entries, key: i64, row: Row) -> Result<(), AllocError>
    ensures ok { OnOk result (entries.new.entries ≡ with_row entries.old.entries key row) }
    ensures err { OnErr result (entries.new.entries ≡ entries.old.entries) }
{
    entries.insert(key, row)?;
    Ok(())
}

/// Puts the row in the place of the one at the key, if there is one. It takes no memory.
pub fn replace(entries: &mut Entries, key: i64, row: Row)
    ensures { entries.new.entries ≡ with_value entries.old.entries key row }
{
    if let Some(place) = entries.get_mut(&key) {
        *place = row;
    }
}

fn remove(entries: &mut Entries, key: i64)
    ensures { entries.new.entries ≡ without_row entries.old.entries key }
{
    let _row = entries.remove(&key);
}

// Puts a copy of the row where no row has its key, and says whether it did.
fn add(entries: &mut Entries, alloc: Global, row: &Row) -> Result<bool, AllocError>
    ensures { MatchResult result (λ added. (has_key entries.old.entries (key_of row.now) ≡ (if added then false else true))
        × (entries.new.entries ≡ (if added then with_row entries.old.entries (key_of row.now) row.now else entries.old.entries)))
        (λ _. entries.new.entries ≡ entries.old.entries) }
{
    let key = key_of(row);
    if has_key(entries, key) {
        return Ok(false);
    }
    let copy = row.copy(alloc)?;
    put(entries, key, copy)?;
    Ok(true)
}

// Takes the rows out, the last first.
fn take_back(entries: &mut Entries, rows: &[Row])
    ensures { entries.new.entries ≡ without_rows entries.old.entries rows.now }
{
    let mut left = rows.len();
    while left > 0 {
        left -= 1;
        remove(entries, key_of(&rows[left]));
    }
}

/// Adds copies of all the rows, or none of them where a key is there already or stands in them twice: the answer is
/// then the first such key. Want of memory leaves the rows as they were.
pub fn add_all(
    entries: &mut Entries,
    alloc: Global,
    rows: &[Row],
) -> Result<Option<i64>, AllocError>
    ensures ok { IfOk result (λ duplicate. (duplicate ≡ first_duplicate entries.old.entries rows.now)
        × (IsNone duplicate → entries.new.entries ≡ with_rows entries.old.entries rows.now)) }
    ensures none { MatchResult result (λ duplicate. IsSome duplicate → entries.new.entries ≡ entries.old.entries) (λ _. entries.new.entries ≡ entries.old.entries) }
{
    for (i, row) in rows.iter().enumerate() {
        match add(entries, alloc, row) {
            Ok(true) => {}
            Ok(false) => {
                take_back(entries, &rows[..i]);
                return Ok(Some(key_of(row)));
            }
            Err(error) => {
                take_back(entries, &rows[..i]);
                return Err(error);
            }
        }
    }
    Ok(None)
}
