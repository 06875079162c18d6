//! An empty file.

ghost use Rattle.isp_file_laws.specs.Laws.{EmptyIsKept, EmptyStandsForNone};

/// Contents that begin as an empty file's are kept, without a table.
pub fn law_empty_is_kept()
    ensures { EmptyIsKept }
{}

/// An image of such contents stands for no table.
pub fn law_empty_stands_for_none()
    ensures { EmptyStandsForNone }
{}
