//! Laws of catalogues.
ghost use Rattle.isp_catalog.specs.Laws.{CatalogueIsLocal, CatalogueIsOne, TablesAreOne};

/// A catalogue stands on pages 2 to 15 alone.
pub fn law_catalogue_is_local()
    ensures { CatalogueIsLocal }
{}

/// Of a number of tables there is one catalogue at most.
pub fn law_catalogue_is_one()
    ensures { CatalogueIsOne }
{}

/// A file has one list of tables at most.
pub fn law_tables_are_one()
    ensures { TablesAreOne }
{}
