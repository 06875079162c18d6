//! What holds of all spellings and boxes.

ghost use Rattle.isp_geom.specs.Laws.{BoxIsLeast, NoSpellingBeginsAnother};

/// No spelling begins another: where bytes begin with the spellings of two geometries, the two are one geometry. So two
/// geometries with one spelling are equal.
pub fn law_no_spelling_begins_another()
    ensures { NoSpellingBeginsAnother }
{}

/// The box of a geometry has all its points, and each box that has them all covers it: it is the least (the MySQL 8.0
/// manual on minimum bounding rectangles).
pub fn law_box_is_least()
    ensures { BoxIsLeast }
{}
