//! The tables of a file.

ghost use Rattle.std.specs.Prelude.{◌≡◌, ◌<◌, ◌+◌, ◌++◌, [], ◌∷◌, List, length, slice_get, false, true, IfErr, IfOk, OnErr, OnOk};
ghost use Rattle.std.specs.Option.{option_copied};
ghost use Rattle.isp_catalog.specs.Catalogue.{HasTables};
ghost use Rattle.isp_catalog.specs.declared.table.TableDef.{TableDef};
ghost use Rattle.isp_clustered.specs.Calls.{Lacks};
ghost use Rattle.isp_creating.specs.Creating.{CanCreate, Created, MayDefine, with_root};
ghost use Rattle.isp_page.specs.Calls.{ContinuesOrLacks};
ghost use Rattle.isp_catalog.specs.Limits.{has_key};
ghost use Rattle.isp_format.specs.Definition.{most_tables};
ghost use Rattle.isp_format.specs.Rules.{catalogue_rule, space_number};
ghost use Rattle.isp_image.specs.Databases.{Database};
ghost use Rattle.isp_image.specs.Faults.{NamesLaterOrLacks};
ghost use Rattle.isp_page.specs.Steps.{IsNoDamageOrLacks, LeavesAlone};
ghost use Rattle.isp_page.specs.declared.fault.Fault.TheVariants.{Store};
ghost use Rattle.isp_page.specs.declared.fault.StoreFault.TheVariants.{Damaged};
ghost use Rattle.isp_space.specs.Spaces.{Space};
ghost use Rattle.isp_undo.specs.Chains.{Chain};
ghost use Rattle.isp_trx.specs.Roots.{numbers_of};
ghost use Rattle.isp_tables.specs.Calls.{AreInside, AreKeyed, Keeps};
ghost use Rattle.isp_tables.specs.TableLists.{are_keyed, place_in, roots_of};

use crate::making::make_for_good;
use isp_base::{Name, PageNo};
use isp_catalog::{TableDef, load};
use isp_format::{CATALOGUE_RULE, SPACE_PAGE};
use isp_page::{Fault, Pages, StoreFault};
use isp_plain::{Column, Kind};
use std::alloc::{AllocError, Global};
use std::marker::Model;

/// The definitions of a file's tables, in the order of their numbers, which contracts see as the list of them.
#[derive(Drop)]
pub struct Tables {
    defs: Vec<TableDef>,
    roots: Vec<PageNo>,
}

impl Model for Tables {
    ghost use Rattle.std.specs.Prelude.{◌≡◌, List};
    ghost use Rattle.isp_catalog.specs.declared.table.TableDef.{TableDef};
    ghost use Rattle.isp_trx.specs.Roots.{numbers_of};
    ghost use Rattle.isp_tables.specs.TableLists.{roots_of};

    ghost Value = { List TableDef };

    ghost view = { λ t. t.defs.items };

    ghost invariant = { λ t. numbers_of t.roots.items ≡ roots_of t.defs.items };
}

// The roots of the tables' trees.
fn roots_of(alloc: Global, defs: &[TableDef]) -> Result<Vec<PageNo>, AllocError>
    ensures { IfOk result (λ roots. numbers_of roots.items ≡ roots_of defs.now) }
{
    let mut roots = Vec::new(alloc);
    for def in defs {
        roots.push(def.root)?;
    }
    Ok(roots)
}

// Whether the first column holds whole numbers: the keys.
fn has_key(columns: &[Column]) -> bool
    ensures { result ≡ has_key columns.now }
{
    match columns {
        [first, ..] => match first.kind {
            Kind::BigInt => true,
            Kind::VarChar(_) => false,
            Kind::Geo => false,
        },
        [] => false,
    }
}

fn are_keyed(defs: &[TableDef]) -> bool
    ensures { result ≡ are_keyed defs.now }
{
    defs.iter()
        .all(|def| has_key(def.schema.columns.as_slice()))
}

// The definitions, where each table has a key.
fn keyed_or(defs: Vec<TableDef>) -> Result<Vec<TableDef>, Fault>
    ensures same { IfOk result (λ keyed. keyed.items ≡ defs.items) }
    ensures keyed { OnOk result (AreKeyed defs.items) }
    ensures damaged { IfErr result (λ e. e ≡ Store (Damaged space_number catalogue_rule)) }
    ensures sound { are_keyed defs.items ≡ true → IfErr result IsNoDamageOrLacks }
{
    if are_keyed(defs.as_slice()) {
        Ok(defs)
    } else {
        Err(Fault::Store(StoreFault::Damaged {
            page: SPACE_PAGE,
            rule: CATALOGUE_RULE,
        }))
    }
}

impl Tables {
    /// The tables of the file.
    ///
    /// # Errors
    ///
    /// As of `load` of isp_catalog; or Damaged, with page 0 and rule 6, where a table has no key.
    pub fn load<P: Pages>(alloc: Global, pages: &mut P) -> Result<Tables, Fault>
        requires usable { P.usable pages.old ≡ true }
        ensures kept { ContinuesOrLacks P.Pages pages.old pages.new result }
        ensures contents { P.tells → OnOk result (P.contents pages.new ≡ P.contents pages.old) }
        ensures mini { OnOk result (P.mini pages.new ≡ P.mini pages.old) }
        ensures roots { IfOk result (λ tables. AreInside (P.shape pages.old).pages tables) }
        ensures keyed { IfOk result AreKeyed }
        ensures found { P.tells → (s : Space) (defs : List TableDef)
            → HasTables (P.shape pages.old).pages (P.contents pages.old) s defs
            → IfOk result (λ tables. tables ≡ defs) }
        ensures sound { P.tells → (s : Space) (defs : List TableDef)
            → HasTables (P.shape pages.old).pages (P.contents pages.old) s defs
            → IfErr result IsNoDamageOrLacks }
        ensures later { IfErr result NamesLaterOrLacks }
    {
        let defs = load(alloc, pages)?;
        let defs = keyed_or(defs)?;
        let roots = roots_of(alloc, defs.as_slice())?;
        Ok(Tables { defs, roots })
    }

    /// How many there are.
    pub fn count(&self) -> usize
        ensures { result ≡ length self.now }
    {
        self.defs.len()
    }

    /// The number of the next one.
    pub fn next_number(&self) -> u32
        requires few { length self.now < most_tables }
        ensures { result ≡ length self.now + 1 }
    {
        self.defs.len() as u32 + 1
    }

    /// Their definitions.
    pub fn defs(&self) -> &[TableDef]
        ensures { result.now ≡ self.now }
    {
        self.defs.as_slice()
    }

    /// The roots of their trees.
    pub fn roots(&self) -> &[PageNo]
        ensures { numbers_of result.now ≡ roots_of self.now }
    {
        self.roots.as_slice()
    }

    /// The table at a place, from 0.
    pub fn get(&self, place: usize) -> Option<&TableDef>
        ensures { option_copied result ≡ slice_get self.now place }
    {
        self.defs.get(place)
    }

    /// The place of the table of that name.
    pub fn place_of(&self, name: &Name) -> Option<usize>
        ensures { result ≡ place_in self.now name.now }
    {
        self.defs.iter().position(|def| def.name == *name)
    }

    /// Makes a table of this definition for good, and adds it behind the last; answers the root of its tree. All memory is taken
    /// first.
    ///
    /// # Errors
    ///
    /// Disk; want of memory, which leaves the contents as they were; or Damaged, as of `create_table` of isp_creating. The tables
    /// are as they were then.
    pub(crate) fn make<P: Pages>(&mut self, pages: &mut P, def: TableDef) -> Result<PageNo, Fault>
        requires usable { P.usable pages.old ≡ true }
        requires none { (P.mini pages.old).is_begun ≡ false }
        requires may { MayDefine def }
        ensures kept { Keeps P.Pages pages.old pages.new result }
        ensures lacks { P.tells → Lacks result (P.contents pages.new ≡ P.contents pages.old) }
        ensures flushed { P.tells → OnOk result (LeavesAlone (P.contents pages.new) (P.may_leave
            pages.new)) }
        ensures mini { OnOk result ((P.mini pages.new).is_begun ≡ false) }
        ensures added { IfOk result (λ root. self.new ≡ self.old ++ with_root root def ∷ []) }
        ensures failed { OnErr result (self.new ≡ self.old) }
        ensures inside { IfOk result (λ root. root.0 < (P.shape pages.old).pages) }
        ensures created { P.tells → (chains : List Chain) (d : Database)
            → CanCreate (P.shape pages.old).pages (P.contents pages.old) chains def.number def.name d
            → IfOk result (λ root. Created (P.shape pages.old).pages (P.contents pages.new) chains
            (with_root root def) d) }
        ensures sound { P.tells → (chains : List Chain) (d : Database)
            → CanCreate (P.shape pages.old).pages (P.contents pages.old) chains def.number def.name d
            → IfErr result IsNoDamageOrLacks }
        ensures later { IfErr result NamesLaterOrLacks }
    {
        self.defs.reserve(1)?;
        self.roots.reserve(1)?;
        let mut def = def;
        make_for_good(pages, &mut def)?;
        let root = def.root;
        self.defs.push_reserved(def);
        self.roots.push_reserved(root);
        Ok(root)
    }
}
