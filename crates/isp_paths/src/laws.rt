//! What holds of all paths.

ghost use Rattle.isp_paths.specs.Reaching.{PathsReach};

/// The path of a statement reaches every row of which its condition holds: by key, the row begins with that key; by a
/// search of a tree, the column has one, and the box of the row's geometry there satisfies the predicate; a scan goes
/// over all rows. So no row that SELECT, UPDATE or DELETE is about is missed.
pub fn law_paths_reach()
    ensures { PathsReach }
{}
