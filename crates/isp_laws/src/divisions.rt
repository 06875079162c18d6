//! A page's division and the choice of a subtree, as upper crates need them.

ghost use Rattle.isp_laws.specs.DivisionLaws.{OneChoice, OneDivision, SplitGivesParts};

/// The quadratic split divides a page's entries in two parts that a split of the forest may take, each with the least fill.
pub fn law_split_gives_parts()
    ensures { SplitGivesParts }
{}

/// A list of boxes has one division.
pub fn law_one_division()
    ensures { OneDivision }
{}

/// A list of entries has one choice for a box.
pub fn law_one_choice()
    ensures { OneChoice }
{}
