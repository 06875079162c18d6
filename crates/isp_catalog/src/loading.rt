//! Reading the catalogue.
ghost use Rattle.std.specs.Prelude.{◌≡◌, ◌<◌, ◌≤◌, All, List, false, true, Err, Ok, IfErr, IfOk, OnOk, if◌then◌else◌};
ghost use Rattle.isp_page.specs.declared.fault.Fault.TheVariants.{Store};
ghost use Rattle.isp_page.specs.declared.fault.StoreFault.TheVariants.{Damaged};
ghost use Rattle.isp_format.specs.Definition.{most_tables};
ghost use Rattle.isp_format.specs.Rules.{catalogue_rule};
ghost use Rattle.isp_page.specs.Calls.{ContinuesOrLacks};
ghost use Rattle.isp_page.specs.Steps.{IsNoDamageOrLacks};
ghost use Rattle.isp_space.specs.Spaces.{IsSpace, Space};
ghost use Rattle.isp_catalog.specs.Catalogue.{HasTables, IsDefined, NamesBroken, NamesCatalogueOrLacks, NamesDefinition, has_table};
ghost use Rattle.isp_catalog.specs.declared.table.TableDef.{TableDef};

use crate::reading::{page_of_number, table_at};
use crate::table::TableDef;
use crate::unread::Unread;
use isp_base::Name;
use isp_format::{CATALOGUE_RULE, MOST_TABLES, PAGE_BYTES, Page, PageNo, SPACE_PAGE};
use isp_page::{Fault, Pages, StoreFault};
use isp_space::table_count;
use std::alloc::Global;

pub(crate) fn empty_page() -> Page {
    Page {
        bytes: [0; PAGE_BYTES],
    }
}

fn has_table(defs: &[TableDef], name: &Name) -> bool
    ensures { result ≡ has_table defs.now name.now }
{
    defs.iter().any(|def| def.name == *name)
}

// A definition whose name is none of these, else what is wrong with its page.
fn new_or(def: TableDef, defs: &[TableDef], page: u32) -> Result<TableDef, Fault>
    ensures { result ≡ (if has_table defs.now def.name
        then Err (Store (Damaged page catalogue_rule)) else Ok def) }
{
    if has_table(defs, &def.name) {
        Err(Fault::Store(StoreFault::Damaged {
            page,
            rule: CATALOGUE_RULE,
        }))
    } else {
        Ok(def)
    }
}

// The definition of that number, whose name is none of these.
fn read_one<P: Pages>(
    alloc: Global,
    pages: &mut P,
    number: u32,
    defs: &[TableDef],
) -> Result<TableDef, Fault>
    requires usable { P.usable pages.old ≡ true }
    requires from { 1 ≤ number }
    requires to { number ≤ most_tables }
    ensures kept { ContinuesOrLacks P.Pages pages.old pages.new result }
    ensures contents { P.tells → OnOk result (P.contents pages.new ≡ P.contents pages.old) }
    ensures mini { OnOk result (P.mini pages.new ≡ P.mini pages.old) }
    ensures root { IfOk result (λ def. def.root.0 < (P.shape pages.old).pages) }
    ensures found { P.tells → IfOk result (λ def.
        IsDefined (P.shape pages.old).pages (P.contents pages.old) number def) }
    ensures new { IfOk result (λ def. has_table defs.now def.name ≡ false) }
    ensures broken { P.tells → IfErr result (NamesDefinition (P.shape pages.old).pages
        (P.contents pages.old) number defs.now) }
    ensures names { IfErr result NamesCatalogueOrLacks }
{
    let p = page_of_number(number);
    let count = pages.pages();
    let mut page = empty_page();
    pages.read(PageNo(p), &mut page)?;
    match table_at(alloc, &page, number, count) {
        Ok(def) => new_or(def, defs, p),
        Err(Unread::Broken) => Err(Fault::Store(StoreFault::Damaged {
            page: p,
            rule: CATALOGUE_RULE,
        })),
        Err(Unread::Lacking) => Err(Fault::Memory),
    }
}

/// The definitions of all tables, in the order of their numbers.
///
/// # Errors
///
/// Disk; want of memory; Damaged, with page 0 and rule 4, where page 0 says no space; with page 0 and rule 6 where it counts more
/// than 64 tables; with the page of the first definition that is none, or that has the name of one before it, and rule 6.
pub fn load<P: Pages>(alloc: Global, pages: &mut P) -> Result<Vec<TableDef>, Fault>
    requires usable { P.usable pages.old ≡ true }
    ensures kept { ContinuesOrLacks P.Pages pages.old pages.new result }
    ensures contents { P.tells → OnOk result (P.contents pages.new ≡ P.contents pages.old) }
    ensures mini { OnOk result (P.mini pages.new ≡ P.mini pages.old) }
    ensures roots { IfOk result (λ defs.
        All (λ def. def.root.0 < (P.shape pages.old).pages) defs.items) }
    ensures found { P.tells → (s : Space)
        → IsSpace (P.shape pages.old).pages (P.contents pages.old) s → IfOk result (λ defs.
        HasTables (P.shape pages.old).pages (P.contents pages.old) s defs.items) }
    ensures broken { P.tells → (s : Space)
        → IsSpace (P.shape pages.old).pages (P.contents pages.old) s → IfErr result
        (NamesBroken (P.shape pages.old).pages (P.contents pages.old) s.tables) }
    ensures sound { P.tells → (s : Space) (defs : List TableDef)
        → HasTables (P.shape pages.old).pages (P.contents pages.old) s defs
        → IfErr result IsNoDamageOrLacks }
    ensures names { IfErr result NamesCatalogueOrLacks }
{
    let count = table_count(pages)?;
    if count > MOST_TABLES {
        return Err(Fault::Store(StoreFault::Damaged {
            page: SPACE_PAGE,
            rule: CATALOGUE_RULE,
        }));
    }
    let mut defs = Vec::new(alloc);
    for k in 0..count {
        let def = read_one(alloc, pages, k + 1, defs.as_slice())?;
        defs.push(def)?;
    }
    Ok(defs)
}
