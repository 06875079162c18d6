//! Writing one definition more.
ghost use Rattle.std.specs.Prelude.{◌≡◌, ◌+◌, ◌≤◌, ◌<◌, ◌||◌, ◌++◌, [], ◌∷◌, ℕ, List, true, length, IfErr, OnOk};
ghost use Rattle.isp_format.specs.Definition.{definition_page};
ghost use Rattle.isp_format.specs.Header.{header_of};
ghost use Rattle.isp_format.specs.Ranges.{page_of};
ghost use Rattle.isp_format.specs.Rules.{space_number};
ghost use Rattle.isp_page.specs.Calls.{Continues};
ghost use Rattle.isp_page.specs.State.{HasRoom, most_changed};
ghost use Rattle.isp_page.specs.Steps.{IsNoDamage};
ghost use Rattle.isp_page.specs.Touched.{Grows, KeepsPages, is_page};
ghost use Rattle.isp_space.specs.Spaces.{Space};
ghost use Rattle.isp_catalog.specs.Catalogue.{HasPlace, HasTables, IsNext, NamesCatalogue, counted};
ghost use Rattle.isp_catalog.specs.Writing.{Wrote};
ghost use Rattle.isp_catalog.specs.declared.table.TableDef.{TableDef};

use crate::loading::empty_page;
use crate::reading::{page_of_number, place_of_number};
use crate::spelling::put_table;
use crate::table::TableDef;
use isp_format::{CATALOGUE_RULE, PageNo, SPACE_PAGE};
use isp_page::{Pages, StoreFault, replace};
use isp_space::count_table;

// Writes a definition into its place.
fn write_table<P: Pages>(pages: &mut P, t: &TableDef) -> Result<(), StoreFault>
    requires usable { P.usable pages.old ≡ true }
    requires begun { (P.mini pages.old).is_begun ≡ true }
    requires room { HasRoom (definition_page t.now.number) (P.mini pages.old) }
    requires place { HasPlace (P.shape pages.old).pages t.now }
    ensures kept { Continues P.Pages pages.old pages.new result }
    ensures sound { IfErr result IsNoDamage }
    ensures others { P.tells → OnOk result (KeepsPages (is_page (definition_page t.now.number))
        (P.contents pages.old) (P.contents pages.new)) }
    ensures grown { OnOk result (Grows (definition_page t.now.number ∷ [])
        (P.mini pages.old) (P.mini pages.new)) }
    ensures written { P.tells → OnOk result
        (Wrote t.now (P.contents pages.old) (P.contents pages.new)) }
{
    let p = PageNo(page_of_number(t.number));
    let at = place_of_number(t.number);
    let _count = pages.pages();
    let mut page = empty_page();
    pages.read(p, &mut page)?;
    let mut new = page;
    put_table(&mut new, at, t);
    replace(pages, p, &page, &new)?;
    Ok(())
}

/// Writes the definition of a table behind the last one, and counts it. Its number is the next, and no table has its name.
///
/// # Errors
///
/// Disk; or Damaged, with page 0 and rule 4, where page 0 says no space or 64 tables and more, or with page 0 and rule 6, where it
/// counts other tables than those before this one.
pub fn add<P: Pages>(pages: &mut P, t: &TableDef) -> Result<(), StoreFault>
    requires usable { P.usable pages.old ≡ true }
    requires begun { (P.mini pages.old).is_begun ≡ true }
    requires room { length (P.mini pages.old).changed + 2 ≤ most_changed }
    requires place { HasPlace (P.shape pages.old).pages t.now }
    ensures kept { Continues P.Pages pages.old pages.new result }
    ensures others { P.tells → OnOk result (KeepsPages
        (λ q. is_page space_number q || is_page (definition_page t.now.number) q)
        (P.contents pages.old) (P.contents pages.new)) }
    ensures grown { OnOk result (Grows (space_number ∷ definition_page t.now.number ∷ [])
        (P.mini pages.old) (P.mini pages.new)) }
    ensures header { P.tells → OnOk result
        (header_of (page_of (P.contents pages.new) (definition_page t.now.number))
        ≡ header_of (page_of (P.contents pages.old) (definition_page t.now.number))) }
    ensures added { P.tells → (s : Space) (defs : List TableDef)
        → HasTables (P.shape pages.old).pages (P.contents pages.old) s defs → IsNext defs t.now
        → OnOk result (HasTables (P.shape pages.new).pages (P.contents pages.new)
        (counted s) (defs ++ t.now ∷ [])) }
    ensures sound { P.tells → (s : Space) (defs : List TableDef)
        → HasTables (P.shape pages.old).pages (P.contents pages.old) s defs → IsNext defs t.now
        → IfErr result IsNoDamage }
    ensures names { IfErr result NamesCatalogue }
{
    let count = count_table(pages)?;
    if count != t.number - 1 {
        return Err(StoreFault::Damaged {
            page: SPACE_PAGE,
            rule: CATALOGUE_RULE,
        });
    }
    write_table(pages, t)?;
    Ok(())
}
