//! A table, leaf by leaf.

ghost use Rattle.std.specs.Prelude.{◌≡◌, ◌<◌, ◌∷◌, List, true, IfErr, IfOk, IfSome, OnOk};
ghost use Rattle.std.specs.Option.{option_map};
ghost use Rattle.isp_clustered.specs.Calls.{Lacks};
ghost use Rattle.isp_image.specs.Databases.{FileTable};
ghost use Rattle.isp_image.specs.Faults.{NamesLaterOrLacks};
ghost use Rattle.isp_levels.specs.Inners.{number_of};
ghost use Rattle.isp_page.specs.Calls.{ContinuesOrLacks};
ghost use Rattle.isp_page.specs.Steps.{IsNoDamageOrLacks};
ghost use Rattle.isp_scan.specs.Leaves.{IsBehind, IsLeafFound, Piece};
ghost use Rattle.isp_scan.specs.Readings.{AreFoundFor, SetsFitIn};
ghost use Rattle.isp_scan.specs.Scanning.{HasFileTable};

use crate::finding::found_in;
use isp_catalog::TableDef;
use isp_clustered::{Leaf, next_leaf};
use isp_format::{PageNo, ROWS_RULE};
use isp_page::{Fault, Pages, StoreFault};
use isp_plain::Statement;
use isp_row::RowError;
use isp_work::Found;
use std::alloc::Global;

/// What a statement finds on a leaf of its table.
#[derive(Drop)]
pub struct LeafFound {
    /// What it finds among the leaf's rows.
    pub found: Found,
    /// The leaf's page, if another leaf stands to its right.
    pub next: Option<PageNo>,
}

// The page of a leaf, if another one stands to its right.
fn going_on(leaf: &Leaf) -> Option<PageNo>
    ensures { result ≡ option_map (λ next. leaf.now.page) leaf.now.next }
{
    match leaf.next {
        Some(_) => Some(leaf.page),
        None => None,
    }
}

/// Reads the leaf behind that page, or the first one of the table where none is named, for a statement: of SELECT it finds the rows
/// of its answer, of UPDATE those that it writes, of DELETE those that it deletes.
///
/// # Errors
///
/// As of `next_leaf` of isp_clustered; or Damaged, with the leaf and rule 8, where bytes on it spell no row of the table.
pub fn read_leaf<P: Pages>(
    alloc: Global,
    pages: &mut P,
    def: &TableDef,
    statement: &Statement,
    after: Option<PageNo>,
) -> Result<LeafFound, Fault>
    requires usable { P.usable pages.old ≡ true }
    requires page { def.now.root.0 < (P.shape pages.old).pages }
    requires after { IfSome after (λ page. page.0 < (P.shape pages.old).pages) }
    requires sets { SetsFitIn def.now.schema statement.now }
    ensures kept { ContinuesOrLacks P.Pages pages.old pages.new result }
    ensures contents { P.tells → OnOk result (P.contents pages.new ≡ P.contents pages.old) }
    ensures lacks { P.tells → Lacks result (P.contents pages.new ≡ P.contents pages.old) }
    ensures mini { OnOk result (P.mini pages.new ≡ P.mini pages.old) }
    ensures inside { IfOk result
        (λ leaf. IfSome leaf.next (λ page. page.0 < (P.shape pages.old).pages)) }
    ensures rows { IfOk result (λ leaf. AreFoundFor def.now.schema statement.now leaf.found) }
    ensures found { P.tells → (t : FileTable) (piece : Piece) (left : List Piece)
        → HasFileTable P.Pages pages.old def.now t → IsBehind t (number_of after) (piece ∷ left)
        → IfOk result (IsLeafFound def.now.schema statement.now t piece left) }
    ensures sound { P.tells → (t : FileTable) (piece : Piece) (left : List Piece)
        → HasFileTable P.Pages pages.old def.now t → IsBehind t (number_of after) (piece ∷ left)
        → IfErr result IsNoDamageOrLacks }
    ensures later { IfErr result NamesLaterOrLacks }
{
    let leaf = next_leaf(alloc, pages, def.root, after)?;
    match found_in(alloc, &def.schema, statement, leaf.rows.as_slice()) {
        Ok(found) => {
            let next = going_on(&leaf);
            Ok(LeafFound { found, next })
        }
        Err(RowError::NotRow) => Err(Fault::Store(StoreFault::Damaged {
            page: leaf.page.0,
            rule: ROWS_RULE,
        })),
        Err(RowError::OutOfMemory) => Err(Fault::Memory),
    }
}
