//! What a page holds, as its header says, and which tree it belongs to.
ghost use Rattle.std.specs.Prelude.{◌≡◌, ◌≤◌};
ghost use Rattle.isp_format.specs.Definition.{most_tables};
ghost use Rattle.isp_format.specs.Kinds.{clustered_owner};

/// A page that holds nothing.
pub const FREE_KIND: u8 = 0;

/// Page 0.
pub(crate) const SPACE_KIND: u8 = 1;

/// The directory of undo chains.
pub(crate) const UNDO_DIRECTORY_KIND: u8 = 2;

/// A page of the catalogue.
pub(crate) const CATALOGUE_KIND: u8 = 3;

/// A leaf of a clustered tree.
pub const LEAF_KIND: u8 = 4;

/// A page of a clustered tree above its leaves.
pub const INNER_KIND: u8 = 5;

/// A page of an R-tree.
pub const RTREE_KIND: u8 = 6;

/// A page of an undo chain.
pub const UNDO_KIND: u8 = 7;

// How many columns a tree's owner may tell apart.
const COLUMNS: u32 = 32;

/// The owner of the pages of a table's clustered tree.
pub fn clustered_owner(table: u32) -> u32
    requires { table ≤ most_tables }
    ensures { result ≡ clustered_owner table }
{
    COLUMNS * table
}
