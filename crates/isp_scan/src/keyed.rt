//! The row of a table that its condition names by key.

ghost use Rattle.std.specs.Prelude.{◌≡◌, ◌<◌, [], true, IfErr, IfOk, OnOk};
ghost use Rattle.isp_changes.specs.Changes.{found_at};
ghost use Rattle.isp_clustered.specs.Calls.{Lacks};
ghost use Rattle.isp_image.specs.Databases.{FileTable, row_key, shown};
ghost use Rattle.isp_image.specs.Faults.{NamesLaterOrLacks};
ghost use Rattle.isp_image.specs.Keyed.{found, joined};
ghost use Rattle.isp_page.specs.Calls.{ContinuesOrLacks};
ghost use Rattle.isp_page.specs.Steps.{IsNoDamageOrLacks};
ghost use Rattle.isp_work.specs.Finding.{found_in};
ghost use Rattle.isp_scan.specs.Keys.{key_of_path, named_key};
ghost use Rattle.isp_scan.specs.Readings.{AreFoundFor, SetsFitIn};
ghost use Rattle.isp_scan.specs.Scanning.{AreKeptAs, HasFileTable};

use crate::finding::found_in;
use isp_catalog::TableDef;
use isp_clustered::{KeptRow, KeptRows, get};
use isp_format::ROWS_RULE;
use isp_page::{Fault, Pages, StoreFault};
use isp_paths::{Path, path_of};
use isp_plain::Statement;
use isp_row::RowError;
use isp_work::Found;
use std::alloc::Global;

fn key_of_path(path: Path) -> Option<i64>
    ensures { result ≡ key_of_path path }
{
    match path {
        Path::Key(key) => Some(key),
        _ => None,
    }
}

/// The key that the statement's condition names, if it names one: of no other row it holds.
pub fn named_key(def: &TableDef, statement: &Statement) -> Option<i64>
    ensures { result ≡ named_key def.now statement.now }
{
    key_of_path(path_of(&def.schema, statement))
}

// The row of a key, if there is one, as a list.
fn row_of<P: Pages>(
    alloc: Global,
    pages: &mut P,
    def: &TableDef,
    key: i64,
) -> Result<KeptRows, Fault>
    requires usable { P.usable pages.old ≡ true }
    requires page { def.now.root.0 < (P.shape pages.old).pages }
    ensures kept { ContinuesOrLacks P.Pages pages.old pages.new result }
    ensures contents { P.tells → OnOk result (P.contents pages.new ≡ P.contents pages.old) }
    ensures lacks { P.tells → Lacks result (P.contents pages.new ≡ P.contents pages.old) }
    ensures mini { OnOk result (P.mini pages.new ≡ P.mini pages.old) }
    ensures row { P.tells → (t : FileTable) → HasFileTable P.Pages pages.old def.now t
        → IfOk result (λ rows. AreKeptAs def.now.schema rows (joined (found row_key key t.rows) [])) }
    ensures sound { P.tells → (t : FileTable) → HasFileTable P.Pages pages.old def.now t
        → IfErr result IsNoDamageOrLacks }
    ensures later { IfErr result NamesLaterOrLacks }
{
    let mut rows = KeptRows::new(alloc);
    match get(alloc, pages, def.root, key)? {
        Some(kept) => {
            rows.push(KeptRow { key, kept })?;
            Ok(rows)
        }
        None => Ok(rows),
    }
}

/// Reads the row of a key for a statement, with one page read a level: of SELECT it finds the row of its answer, of UPDATE the one
/// that it writes, of DELETE the one that it deletes, where the condition holds of it.
///
/// # Errors
///
/// As of `get` of isp_clustered; or Damaged, with the root and rule 8, where the bytes there spell no row of the table.
pub fn read_key<P: Pages>(
    alloc: Global,
    pages: &mut P,
    def: &TableDef,
    statement: &Statement,
    key: i64,
) -> Result<Found, Fault>
    requires usable { P.usable pages.old ≡ true }
    requires page { def.now.root.0 < (P.shape pages.old).pages }
    requires sets { SetsFitIn def.now.schema statement.now }
    ensures kept { ContinuesOrLacks P.Pages pages.old pages.new result }
    ensures contents { P.tells → OnOk result (P.contents pages.new ≡ P.contents pages.old) }
    ensures lacks { P.tells → Lacks result (P.contents pages.new ≡ P.contents pages.old) }
    ensures mini { OnOk result (P.mini pages.new ≡ P.mini pages.old) }
    ensures rows { IfOk result (AreFoundFor def.now.schema statement.now) }
    ensures found { P.tells → (t : FileTable) → HasFileTable P.Pages pages.old def.now t
        → IfOk result
        (λ found. found ≡ found_in def.now.schema statement.now (found_at (shown t.rows) key)) }
    ensures sound { P.tells → (t : FileTable) → HasFileTable P.Pages pages.old def.now t
        → IfErr result IsNoDamageOrLacks }
    ensures later { IfErr result NamesLaterOrLacks }
{
    let there = row_of(alloc, pages, def, key)?;
    match found_in(alloc, &def.schema, statement, there.as_slice()) {
        Ok(found) => Ok(found),
        Err(RowError::NotRow) => Err(Fault::Store(StoreFault::Damaged {
            page: def.root.0,
            rule: ROWS_RULE,
        })),
        Err(RowError::OutOfMemory) => Err(Fault::Memory),
    }
}
