//! The rows of the table.
ghost use Rattle.std.specs.Prelude.{OnOk};
ghost use Rattle.isp_trx_tests.specs.Ready.{IsReady};

use crate::acts::ROOT;
use isp_clustered::{Kept, get};
use isp_page::{Fault, Pages};
use std::alloc::Global;

/// A row of so many bytes, all of them one.
#[derive(Clone, Copy, PartialEq, Eq)]
pub(crate) struct Row {
    pub byte: u8,
    pub len: usize,
}

/// A row as it stands, in a slot of so many bytes.
#[derive(Clone, Copy, PartialEq, Eq)]
pub(crate) struct Seen {
    pub row: Row,
    pub marked: bool,
    pub slot: u16,
}

/// How many keys there are, from 0 on, which has no row.
pub(crate) const KEYS: usize = 13;

/// A row or none at each key.
pub(crate) type Rows = [Option<Row>; KEYS];

pub(crate) const NO_ROWS: Rows = [None; KEYS];

/// The row that these bytes are, none that is ever written where they aren't all one.
pub(crate) fn row_of(bytes: &[u8]) -> Row {
    let byte = bytes.first().copied().unwrap_or(0);
    let alike = bytes.iter().all(|other| *other == byte);
    Row {
        byte,
        len: if alike { bytes.len() } else { 9_999 },
    }
}

fn seen_of(got: &Option<Kept>) -> Option<Seen> {
    match got {
        Some(kept) => Some(Seen {
            row: row_of(kept.row.as_slice()),
            marked: kept.marked,
            slot: kept.slot,
        }),
        None => None,
    }
}

/// What stands at each key.
pub(crate) fn look<P: Pages>(alloc: Global, pages: &mut P) -> Result<[Option<Seen>; KEYS], Fault>
    requires { IsReady P.Pages pages.old }
    ensures { OnOk result (IsReady P.Pages pages.new) }
{
    let mut seen = [None; KEYS];
    for key in 0..13_u8 {
        let got = get(alloc, pages, ROOT, i64::from(key))?;
        seen[usize::from(key)] = seen_of(&got);
    }
    Ok(seen)
}

/// Puts a row at a key, or none.
pub(crate) fn set_row(rows: &mut Rows, key: usize, row: Option<Row>) {
    if key < KEYS {
        rows[key] = row;
    }
}

/// The rows of them that aren't marked.
pub(crate) fn unmarked(seen: &[Option<Seen>; KEYS]) -> Rows {
    let mut rows = NO_ROWS;
    for (key, seen) in seen.iter().enumerate() {
        let row = seen.filter(|seen| !seen.marked).map(|seen| seen.row);
        set_row(&mut rows, key, row);
    }
    rows
}
