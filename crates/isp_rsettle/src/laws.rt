//! What the settled pages are.
ghost use Rattle.isp_rsettle.specs.Placed.{Settles};

/// Over the tree's old pages they are those of the tree in which the entry was placed.
pub fn law_settles()
    ensures { Settles }
{}
