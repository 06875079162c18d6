//! What a step reads: a leaf of its table, the row of a key that its condition names, or whether a key is there.

ghost use Rattle.std.specs.Prelude.{◌≡◌, ◌==◌, ◌<◌, ◌+◌, ◌≤◌, ℤ, List, slice_get, length, Some, None, true, IfErr, IfOk, IfSome, OnOk, if◌then◌else◌};
ghost use Rattle.isp_catalog.specs.declared.table.TableDef.{TableDef};
ghost use Rattle.isp_clustered.specs.Calls.{Lacks};
ghost use Rattle.isp_format.specs.Rules.{catalogue_rule, space_number};
ghost use Rattle.isp_image.specs.Databases.{FileTable, shown};
ghost use Rattle.isp_image.specs.Faults.{NamesLaterOrLacks};
ghost use Rattle.isp_page.specs.Calls.{ContinuesOrLacks};
ghost use Rattle.isp_page.specs.Steps.{IsNoDamageOrLacks};
ghost use Rattle.isp_page.specs.declared.fault.Fault.TheVariants.{Store};
ghost use Rattle.isp_page.specs.declared.fault.StoreFault.TheVariants.{Damaged};
ghost use Rattle.isp_plain.specs.declared.value.Row.{Row};
ghost use Rattle.isp_scan.specs.Leaves.{HasPiece};
ghost use Rattle.isp_scan.specs.Readings.{AreFoundFor, SetsFitIn};
ghost use Rattle.isp_scan.specs.Scanning.{HasFileTable};
ghost use Rattle.isp_tables.specs.Calls.{Serves};
ghost use Rattle.isp_work.specs.Works.{IsLookOf, IsNotOver, look_by, look_of, next_row};
ghost use Rattle.isp_exec.specs.Standing.{IsFoundBehind, IsLeft, IsLooking, IsReading};

use isp_catalog::TableDef;
use isp_format::{CATALOGUE_RULE, PageNo, SPACE_PAGE, WALK_RULE};
use isp_page::{Fault, Pages, StoreFault};
use isp_plain::{Refusal, Row};
use isp_scan::{LeafFound, is_taken, key_of, named_key, read_key, read_leaf};
use isp_tables::Tables;
use isp_work::{Looked, Progress};
use std::alloc::Global;

/// That no table stands at a place where one has to.
pub(crate) fn no_table() -> Fault
    ensures { result ≡ Store (Damaged space_number catalogue_rule) }
{
    Fault::Store(StoreFault::Damaged {
        page: SPACE_PAGE,
        rule: CATALOGUE_RULE,
    })
}

// What is read first: the row of the key that the condition names, or the first leaf.
fn read_first<P: Pages>(
    alloc: Global,
    pages: &mut P,
    def: &TableDef,
    work: &Progress,
) -> Result<LeafFound, Fault>
    requires usable { P.usable pages.old ≡ true }
    requires page { def.now.root.0 < (P.shape pages.old).pages }
    requires sets { SetsFitIn def.now.schema work.now.statement }
    ensures kept { ContinuesOrLacks P.Pages pages.old pages.new result }
    ensures contents { P.tells → OnOk result (P.contents pages.new ≡ P.contents pages.old) }
    ensures mini { OnOk result (P.mini pages.new ≡ P.mini pages.old) }
    ensures rows { IfOk result (λ leaf. AreFoundFor def.now.schema work.now.statement leaf.found) }
    ensures inside { IfOk result
        (λ leaf. IfSome leaf.next (λ page. page.0 < (P.shape pages.old).pages)) }
    ensures found { P.tells → (t : FileTable) (left : List (List (ℤ × Row)))
        → HasFileTable P.Pages pages.old def.now t
        → IsLeft t work.now.statement None left
        → IfOk result (IsFoundBehind def.now.schema work.now.statement t left) }
    ensures sound { P.tells → (t : FileTable) (left : List (List (ℤ × Row)))
        → HasFileTable P.Pages pages.old def.now t
        → IsLeft t work.now.statement None left → HasPiece left
        → IfErr result IsNoDamageOrLacks }
    ensures lacks { P.tells → Lacks result (P.contents pages.new ≡ P.contents pages.old) }
    ensures later { IfErr result NamesLaterOrLacks }
{
    match named_key(def, work.statement()) {
        Some(key) => {
            let found = read_key(alloc, pages, def, work.statement(), key)?;
            Ok(LeafFound { found, next: None })
        }
        None => read_leaf(alloc, pages, def, work.statement(), None),
    }
}

// What is read next: first that, and then the leaves behind.
fn read_piece<P: Pages>(
    alloc: Global,
    pages: &mut P,
    def: &TableDef,
    work: &Progress,
) -> Result<LeafFound, Fault>
    requires usable { P.usable pages.old ≡ true }
    requires page { def.now.root.0 < (P.shape pages.old).pages }
    requires sets { SetsFitIn def.now.schema work.now.statement }
    requires after { IfSome work.now.after (λ page. page.0 < (P.shape pages.old).pages) }
    ensures kept { ContinuesOrLacks P.Pages pages.old pages.new result }
    ensures contents { P.tells → OnOk result (P.contents pages.new ≡ P.contents pages.old) }
    ensures mini { OnOk result (P.mini pages.new ≡ P.mini pages.old) }
    ensures rows { IfOk result (λ leaf. AreFoundFor def.now.schema work.now.statement leaf.found) }
    ensures inside { IfOk result
        (λ leaf. IfSome leaf.next (λ page. page.0 < (P.shape pages.old).pages)) }
    ensures found { P.tells → (t : FileTable) (left : List (List (ℤ × Row)))
        → HasFileTable P.Pages pages.old def.now t
        → IsLeft t work.now.statement work.now.after left
        → IfOk result (IsFoundBehind def.now.schema work.now.statement t left) }
    ensures sound { P.tells → (t : FileTable) (left : List (List (ℤ × Row)))
        → HasFileTable P.Pages pages.old def.now t
        → IsLeft t work.now.statement work.now.after left → HasPiece left
        → IfErr result IsNoDamageOrLacks }
    ensures lacks { P.tells → Lacks result (P.contents pages.new ≡ P.contents pages.old) }
    ensures later { IfErr result NamesLaterOrLacks }
{
    match work.after() {
        Some(page) => read_leaf(alloc, pages, def, work.statement(), Some(page)),
        None => read_first(alloc, pages, def, work),
    }
}

// The page behind which more leaves stand than a walk may read, if there is one.
fn beyond(leaf: &LeafFound, budget: u32) -> Option<PageNo>
    ensures { result ≡ (if budget == 0 then leaf.now.next else None) }
{
    if budget == 0 { leaf.next } else { None }
}

/// What is read next for a statement.
pub(crate) fn read_next<P: Pages>(
    alloc: Global,
    pages: &mut P,
    tables: &Tables,
    work: &Progress,
) -> Result<LeafFound, Fault>
    requires serves { Serves P.Pages pages.old tables.now }
    requires reading { IsReading (P.shape pages.old).pages tables.now work.now }
    ensures kept { ContinuesOrLacks P.Pages pages.old pages.new result }
    ensures contents { P.tells → OnOk result (P.contents pages.new ≡ P.contents pages.old) }
    ensures mini { OnOk result (P.mini pages.new ≡ P.mini pages.old) }
    ensures rows { (def : TableDef) → slice_get tables.now work.now.place ≡ Some def
        → IfOk result (λ leaf. AreFoundFor def.schema work.now.statement leaf.found) }
    ensures inside { IfOk result
        (λ leaf. IfSome leaf.next (λ page. page.0 < (P.shape pages.old).pages)) }
    ensures budget { IfOk result (λ leaf. IfSome leaf.next (λ page. 1 ≤ work.now.budget)) }
    ensures found { P.tells → (def : TableDef) (t : FileTable) (left : List (List (ℤ × Row)))
        → slice_get tables.now work.now.place ≡ Some def → HasFileTable P.Pages pages.old def t
        → IsLeft t work.now.statement work.now.after left
        → IfOk result (IsFoundBehind def.schema work.now.statement t left) }
    ensures sound { P.tells → (def : TableDef) (t : FileTable) (left : List (List (ℤ × Row)))
        → slice_get tables.now work.now.place ≡ Some def → HasFileTable P.Pages pages.old def t
        → IsLeft t work.now.statement work.now.after left → HasPiece left
        → length left ≤ work.now.budget + 1 → IfErr result IsNoDamageOrLacks }
    ensures lacks { P.tells → Lacks result (P.contents pages.new ≡ P.contents pages.old) }
    ensures later { IfErr result NamesLaterOrLacks }
{
    let Some(def) = tables.get(work.place()) else {
        return Err(no_table());
    };
    let leaf = read_piece(alloc, pages, def, work)?;
    match beyond(&leaf, work.budget()) {
        Some(page) => Err(Fault::Store(StoreFault::Damaged {
            page: page.0,
            rule: WALK_RULE,
        })),
        None => Ok(leaf),
    }
}

// Whether the key of a row is taken, and by which refusal then.
fn look_at<P: Pages>(
    alloc: Global,
    pages: &mut P,
    def: &TableDef,
    row: &Row,
) -> Result<Looked, Fault>
    requires usable { P.usable pages.old ≡ true }
    requires page { def.now.root.0 < (P.shape pages.old).pages }
    ensures kept { ContinuesOrLacks P.Pages pages.old pages.new result }
    ensures contents { P.tells → OnOk result (P.contents pages.new ≡ P.contents pages.old) }
    ensures mini { OnOk result (P.mini pages.new ≡ P.mini pages.old) }
    ensures there { IfOk result IsNotOver }
    ensures looked { P.tells → (t : FileTable) → HasFileTable P.Pages pages.old def.now t
        → IfOk result (λ looked. looked ≡ look_of row.now (shown t.rows)) }
    ensures sound { P.tells → (t : FileTable) → HasFileTable P.Pages pages.old def.now t
        → IfErr result IsNoDamageOrLacks }
    ensures lacks { P.tells → Lacks result (P.contents pages.new ≡ P.contents pages.old) }
    ensures later { IfErr result NamesLaterOrLacks }
{
    let key = key_of(row);
    if is_taken(alloc, pages, def, key)? {
        Ok(Looked::Taken(Refusal::DuplicateKey { key }))
    } else {
        Ok(Looked::Free)
    }
}

/// Looks the key of the next row up.
pub(crate) fn look_next<P: Pages>(
    alloc: Global,
    pages: &mut P,
    tables: &Tables,
    work: &Progress,
) -> Result<Looked, Fault>
    requires serves { Serves P.Pages pages.old tables.now }
    requires looking { IsLooking tables.now work.now }
    ensures kept { ContinuesOrLacks P.Pages pages.old pages.new result }
    ensures contents { P.tells → OnOk result (P.contents pages.new ≡ P.contents pages.old) }
    ensures mini { OnOk result (P.mini pages.new ≡ P.mini pages.old) }
    ensures next { IfOk result (IsLookOf work.now) }
    ensures looked { P.tells → (def : TableDef) (t : FileTable)
        → slice_get tables.now work.now.place ≡ Some def → HasFileTable P.Pages pages.old def t
        → IfOk result (λ looked. looked ≡ look_by (next_row work.now) (shown t.rows)) }
    ensures sound { P.tells → (def : TableDef) (t : FileTable)
        → slice_get tables.now work.now.place ≡ Some def → HasFileTable P.Pages pages.old def t
        → IfErr result IsNoDamageOrLacks }
    ensures lacks { P.tells → Lacks result (P.contents pages.new ≡ P.contents pages.old) }
    ensures later { IfErr result NamesLaterOrLacks }
{
    match tables.get(work.place()) {
        Some(def) => match work.row() {
            Some(row) => look_at(alloc, pages, def, row),
            None => Ok(Looked::Over),
        },
        None => Err(no_table()),
    }
}
