//! What stands at a key, as an entry of an undo chain.
ghost use Rattle.std.specs.Prelude.{◌≡◌, ◌≤◌, length, take, IfSome, Some, if◌then◌else◌};
ghost use Rattle.isp_format.specs.Leaf.{most_slot};
ghost use Rattle.isp_format.specs.Undo.{marked_kind, unmarked_kind};
ghost use Rattle.isp_trx.specs.Transactions.{old_image};
ghost use Rattle.isp_undo_pages.specs.Entries.{IsBuf, image_in};

use crate::keys::RowKey;
use isp_clustered::Kept;
use isp_format::MOST_SLOT;
use isp_undo_pages::{MARKED_KIND, UndoBuf};

// The kind of an entry where no row stood.
pub(crate) const ABSENT_KIND: u8 = 0;

// That of a row without a mark.
const UNMARKED_KIND: u8 = 1;

// Copies a row to the front.
fn copy_row(row: &[u8], into: &mut [u8; MOST_SLOT])
    requires { length row.now ≤ most_slot }
    ensures { take (length row.now) into.new ≡ row.now }
{
    into[..row.len()].copy_from_slice(row);
}

// The kind of an entry for a row.
fn kind_of(marked: bool) -> u8
    ensures { result ≡ (if marked then marked_kind else unmarked_kind) }
{
    if marked { MARKED_KIND } else { UNMARKED_KIND }
}

// The entry for a row.
fn row_entry(at: RowKey, kept: &Kept) -> UndoBuf
    requires { length kept.now.row ≤ most_slot }
    ensures buf { IsBuf result }
    ensures image { image_in result ≡ old_image at (Some kept.now) }
{
    let row = kept.row.as_slice();
    let mut bytes = [0; MOST_SLOT];
    copy_row(row, &mut bytes);
    UndoBuf {
        table: at.table,
        key: at.key,
        kind: kind_of(kept.marked),
        len: row.len() as u16,
        bytes,
    }
}

/// The entry for what stands at a key: of kind 0 where nothing does, of kind 1 for a row, of kind 2 for a marked one.
pub(crate) fn entry_of(at: RowKey, old: &Option<Kept>) -> UndoBuf
    requires short { IfSome old.now (λ kept. length kept.row ≤ most_slot) }
    ensures buf { IsBuf result }
    ensures image { image_in result ≡ old_image at old.now }
{
    match old {
        Some(kept) => row_entry(at, kept),
        None => UndoBuf {
            table: at.table,
            key: at.key,
            kind: ABSENT_KIND,
            len: 0,
            bytes: [0; MOST_SLOT],
        },
    }
}
