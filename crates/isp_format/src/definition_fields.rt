//! Sizes and places within the definitions of tables.
ghost use Rattle.isp_format.specs.DefinitionFields.{AreDefinitionFields};

/// How many bytes a name has at most.
pub const MOST_NAME: usize = 32;

/// How many bytes the field of a name has: its length, and as many as a name has at most.
pub const NAME_FIELD_BYTES: usize = 33;

/// How many columns a table has at most.
pub const MOST_COLUMNS: u8 = 16;

/// How many bytes the field of a column has.
pub const COLUMN_BYTES: usize = 37;

/// Where the column's kind stands in it, behind its name.
pub const COLUMN_KIND_PLACE: usize = 33;

/// Where the greatest number of bytes of a VARCHAR stands.
pub const COLUMN_SIZE_PLACE: usize = 34;

/// Where it stands whether the column has an index.
pub const COLUMN_FLAG_PLACE: usize = 36;

/// The byte of a BIGINT column's kind.
pub const BIGINT_KIND: u8 = 1;

/// The byte of a VARCHAR column's kind.
pub const VARCHAR_KIND: u8 = 2;

/// The byte of a GEOMETRY column's kind.
pub const GEOMETRY_KIND: u8 = 3;

/// How many bytes of a page a definition takes.
pub const DEFINITION_BYTES: usize = 800;

/// How many of them are used at most: those before its columns, and the fields of as many columns as there may be.
pub const MOST_DEFINITION: usize = 638;

/// How many definitions stand on a page.
pub const DEFINITIONS_A_PAGE: u32 = 5;

/// Where the number of columns stands in a definition, behind the table's name.
pub const COLUMN_COUNT_PLACE: usize = 33;

/// Where the root of the clustered tree stands.
pub const ROOT_PLACE: usize = 34;

/// Where the root of the first R-tree stands.
pub const FIRST_TREE_PLACE: usize = 38;

/// Where the root of the second one stands.
pub const SECOND_TREE_PLACE: usize = 42;

/// Where the columns begin.
pub const COLUMNS_PLACE: usize = 46;

/// The sizes and places are those of the definitions.
pub fn law_definition_fields()
    ensures { AreDefinitionFields }
{}
