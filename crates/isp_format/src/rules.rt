//! The numbers of the page rules, as a fault names them, and of the pages that have a place of their own.
ghost use Rattle.isp_format.specs.Rules.{AreRules};

/// Page 0, which says which pages are free.
pub const SPACE_PAGE: u32 = 0;

/// The directory of undo chains.
pub const UNDO_DIRECTORY_PAGE: u32 = 1;

/// The first page of the catalogue.
pub const CATALOGUE_PAGE: u32 = 2;

/// The control block is one of this version, and the file was made whole.
pub const CONTROL_RULE: u32 = 1;

/// The list of copies is one, where the doublewrite gate is 1.
pub const COPIES_RULE: u32 = 2;

/// The log can be read to its end.
pub const LOG_RULE: u32 = 3;

/// Each page below the first one never used has its kind and its own number.
pub const SPACE_RULE: u32 = 4;

/// The free chain has its stated length.
pub const CHAIN_RULE: u32 = 5;

/// The definitions of tables are readable, within their limits, and of different names.
pub const CATALOGUE_RULE: u32 = 6;

/// Clustered trees.
pub const TREE_RULE: u32 = 7;

/// The rows of clustered leaves.
pub const ROWS_RULE: u32 = 8;

/// R-trees.
pub const RTREE_RULE: u32 = 9;

/// Undo chains.
pub const UNDO_RULE: u32 = 10;

/// No rule of a file: a walk along its pages read more of them than the file has.
pub const WALK_RULE: u32 = 13;

/// The numbers are those of the definitions.
pub fn law_rules()
    ensures { AreRules }
{}
