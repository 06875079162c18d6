//! A table made.
ghost use Rattle.std.specs.Prelude.{List, ◌≡◌, ◌<◌, ◌≤◌, false, true, Err, Ok, nat_lt, IfErr, IfOk, OnOk, if◌then◌else◌};
ghost use Rattle.isp_format.specs.Definition.{most_tables};
ghost use Rattle.isp_format.specs.Empty.{first_fresh};
ghost use Rattle.isp_format.specs.Rules.{space_number, space_rule};
ghost use Rattle.isp_catalog.specs.declared.table.TableDef.{TableDef};
ghost use Rattle.isp_clustered.specs.Calls.{Creates as Plants, HasSpace};
ghost use Rattle.isp_image.specs.Databases.{Database};
ghost use Rattle.isp_undo.specs.Chains.{Chain};
ghost use Rattle.isp_page.specs.Calls.{Continues, MakesWith};
ghost use Rattle.isp_page.specs.Steps.{FailsOnPages, IsNoDamage};
ghost use Rattle.isp_page.specs.declared.fault.StoreFault.TheVariants.{Damaged};
ghost use Rattle.isp_space.specs.Changes.{ChangesBy, MayChange};
ghost use Rattle.isp_space.specs.Spaces.{Space, free_pages};
ghost use Rattle.isp_creating.specs.Creating.{CanCreate, Created, Creates, MayDefine, with_root};
ghost use Rattle.isp_image.specs.Faults.{NamesLater};

use isp_catalog::{TableDef, add};
use isp_clustered::create;
use isp_format::{FIRST_FRESH, PageNo, SPACE_PAGE, SPACE_RULE};
use isp_page::{Pages, StoreFault};

// The page, where a tree may have it.
fn root_or(page: PageNo) -> Result<PageNo, StoreFault>
    ensures { result ≡ (if nat_lt page.0 first_fresh then Err (Damaged space_number space_rule)
        else Ok page) }
{
    if page.0 < FIRST_FRESH {
        Err(StoreFault::Damaged {
            page: SPACE_PAGE,
            rule: SPACE_RULE,
        })
    } else {
        Ok(page)
    }
}

// A tree without rows, on a page that a tree may have.
fn plant<P: Pages>(pages: &mut P, number: u32) -> Result<PageNo, StoreFault>
    requires can { MayChange P.Pages 3 pages.old }
    requires number { number ≤ most_tables }
    ensures kept { Continues P.Pages pages.old pages.new result }
    ensures changes { OnOk result (ChangesBy P.Pages 3 pages.old pages.new) }
    ensures from { IfOk result (λ page. first_fresh ≤ page.0) }
    ensures to { IfOk result (λ page. page.0 < (P.shape pages.old).pages) }
    ensures made { P.tells → (s : Space) → HasSpace P.Pages pages.old s
        → 0 < free_pages (P.shape pages.old).pages s
        → IfOk result (λ page. Plants P.Pages pages.old pages.new number s page.0) }
    ensures sound { P.tells → (s : Space) → HasSpace P.Pages pages.old s
        → 0 < free_pages (P.shape pages.old).pages s → IfErr result IsNoDamage }
    ensures later { IfErr result NamesLater }
{
    let page = create(pages, number)?;
    let root = root_or(page)?;
    Ok(root)
}

// Gives the table its tree and writes its definition.
fn fill<P: Pages>(pages: &mut P, def: &mut TableDef) -> Result<(), StoreFault>
    requires can { MayChange P.Pages 5 pages.old }
    requires may { MayDefine def.old }
    ensures kept { Continues P.Pages pages.old pages.new result }
    ensures begun { OnOk result ((P.mini pages.new).is_begun ≡ true) }
    ensures def { def.new ≡ with_root def.new.root def.old }
    ensures inside { OnOk result (def.new.root.0 < (P.shape pages.old).pages) }
    ensures created { P.tells → (chains : List Chain) (d : Database) → CanCreate (P.shape pages.old).pages
        (P.contents pages.old) chains def.old.number def.old.name d
        → OnOk result (Created (P.shape pages.old).pages (P.contents pages.new) chains def.new d) }
    ensures sound { P.tells → (chains : List Chain) (d : Database) → CanCreate (P.shape pages.old).pages
        (P.contents pages.old) chains def.old.number def.old.name d → IfErr result IsNoDamage }
    ensures later { IfErr result NamesLater }
{
    let root = plant(pages, def.number)?;
    def.root = root;
    add(pages, def)?;
    Ok(())
}

// The same in a mini-transaction of its own, which isn't finished yet.
fn begin_create<P: Pages>(pages: &mut P, def: &mut TableDef) -> Result<(), StoreFault>
    requires usable { P.usable pages.old ≡ true }
    requires none { (P.mini pages.old).is_begun ≡ false }
    requires may { MayDefine def.old }
    ensures kept { Continues P.Pages pages.old pages.new result }
    ensures begun { OnOk result ((P.mini pages.new).is_begun ≡ true) }
    ensures def { def.new ≡ with_root def.new.root def.old }
    ensures inside { OnOk result (def.new.root.0 < (P.shape pages.old).pages) }
    ensures creates { P.tells → OnOk result (Creates (P.shape pages.old).pages
        (P.contents pages.old) def.old (P.contents pages.new)) }
    ensures created { P.tells → (chains : List Chain) (d : Database) → CanCreate (P.shape pages.old).pages
        (P.contents pages.old) chains def.old.number def.old.name d
        → OnOk result (Created (P.shape pages.old).pages (P.contents pages.new) chains def.new d) }
    ensures sound { P.tells → (chains : List Chain) (d : Database) → CanCreate (P.shape pages.old).pages
        (P.contents pages.old) chains def.old.number def.old.name d → IfErr result IsNoDamage }
    ensures later { IfErr result NamesLater }
{
    pages.begin();
    fill(pages, def)?;
    Ok(())
}

/// Makes a table of this definition: its tree without rows, on a page that is taken for it and becomes the definition's root, and
/// the definition behind the last one, in one mini-transaction. Its number is the next, no table has its name, and a page is free.
/// It takes no memory.
///
/// # Errors
///
/// Disk; or Damaged, as of `take_page` of isp_space and of `add` of isp_catalog, or with page 0 and rule 4 where the page that is
/// taken is one of the first sixteen. Nothing is finished then.
pub fn create_table<P: Pages>(pages: &mut P, def: &mut TableDef) -> Result<(), StoreFault>
    requires usable { P.usable pages.old ≡ true }
    requires none { (P.mini pages.old).is_begun ≡ false }
    requires may { MayDefine def.old }
    ensures made { MakesWith FailsOnPages P.Pages (Creates (P.shape pages.old).pages
        (P.contents pages.old) def.old) pages.old pages.new result }
    ensures mini { OnOk result ((P.mini pages.new).is_begun ≡ false) }
    ensures def { def.new ≡ with_root def.new.root def.old }
    ensures inside { OnOk result (def.new.root.0 < (P.shape pages.old).pages) }
    ensures created { P.tells → (chains : List Chain) (d : Database) → CanCreate (P.shape pages.old).pages
        (P.contents pages.old) chains def.old.number def.old.name d
        → OnOk result (Created (P.shape pages.old).pages (P.contents pages.new) chains def.new d) }
    ensures sound { P.tells → (chains : List Chain) (d : Database) → CanCreate (P.shape pages.old).pages
        (P.contents pages.old) chains def.old.number def.old.name d → IfErr result IsNoDamage }
    ensures later { IfErr result NamesLater }
{
    match begin_create(pages, def) {
        Ok(()) => pages.finish(),
        Err(fault) => Err(fault),
    }
}
