//! Whether a key is taken.

ghost use Rattle.std.specs.Prelude.{◌≡◌, ◌<◌, is_some, true, IfErr, IfOk, OnOk};
ghost use Rattle.isp_changes.specs.Rows.{row_at};
ghost use Rattle.isp_clustered.specs.Calls.{Lacks};
ghost use Rattle.isp_file_laws.specs.Seen.{is_live};
ghost use Rattle.isp_image.specs.Databases.{FileTable, shown};
ghost use Rattle.isp_image.specs.Faults.{NamesLaterOrLacks};
ghost use Rattle.isp_page.specs.Calls.{ContinuesOrLacks};
ghost use Rattle.isp_page.specs.Steps.{IsNoDamageOrLacks};
ghost use Rattle.isp_scan.specs.Scanning.{HasFileTable};

use isp_catalog::TableDef;
use isp_clustered::{Kept, get};
use isp_page::{Fault, Pages};
use std::alloc::Global;

// Whether a row is there that isn't marked.
fn is_shown(got: &Option<Kept>) -> bool
    ensures { result ≡ is_live got.now }
{
    match got {
        Some(kept) => !kept.marked,
        None => false,
    }
}

/// Whether the table has a row of that key.
///
/// # Errors
///
/// As of `get` of isp_clustered.
pub fn is_taken<P: Pages>(
    alloc: Global,
    pages: &mut P,
    def: &TableDef,
    key: i64,
) -> Result<bool, Fault>
    requires usable { P.usable pages.old ≡ true }
    requires page { def.now.root.0 < (P.shape pages.old).pages }
    ensures kept { ContinuesOrLacks P.Pages pages.old pages.new result }
    ensures contents { P.tells → OnOk result (P.contents pages.new ≡ P.contents pages.old) }
    ensures lacks { P.tells → Lacks result (P.contents pages.new ≡ P.contents pages.old) }
    ensures mini { OnOk result (P.mini pages.new ≡ P.mini pages.old) }
    ensures taken { P.tells → (t : FileTable) → HasFileTable P.Pages pages.old def.now t
        → IfOk result (λ taken. taken ≡ is_some (row_at (shown t.rows) key)) }
    ensures sound { P.tells → (t : FileTable) → HasFileTable P.Pages pages.old def.now t
        → IfErr result IsNoDamageOrLacks }
    ensures later { IfErr result NamesLaterOrLacks }
{
    let got = get(alloc, pages, def.root, key)?;
    Ok(is_shown(&got))
}
