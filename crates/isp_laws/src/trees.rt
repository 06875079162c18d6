//! Trees stay whole while they split, and no step loses what a remembered page and number lead to.

ghost use Rattle.isp_laws.specs.TreeLaws.{AddKeeps, RaiseKeeps, SplitKeeps, RemoveKeeps, PlaceKeeps, RootIsAlone, BoxesOnTheWay, LinksNeverLeadBack, WalksEnd, WalksAreOne, WalksAfterSplit, WalksStayAtAdd, WalksStayAtRaise, WalksStayAtRemove};

/// An entry added at the end of a path that stands keeps the tree whole.
pub fn law_add_keeps()
    ensures { AddKeeps }
{}

/// So does the raise of a root.
pub fn law_raise_keeps()
    ensures { RaiseKeeps }
{}

/// So does a split of any other page, however its entries are divided and whatever free page is taken.
pub fn law_split_keeps()
    ensures { SplitKeeps }
{}

/// So does the removal of a leaf's entry.
pub fn law_remove_keeps()
    ensures { RemoveKeeps }
{}

/// So does a placing, which is an add and then splits from the leaf up.
pub fn law_place_keeps()
    ensures { PlaceKeeps }
{}

/// The root is alone on its level, and no right link leads to it.
pub fn law_root_is_alone()
    ensures { RootIsAlone }
{}

/// An entry lies in the box of each entry on the way to it.
pub fn law_boxes_on_the_way()
    ensures { BoxesOnTheWay }
{}

/// Right links never lead back.
pub fn law_links_never_lead_back()
    ensures { LinksNeverLeadBack }
{}

/// The walk from a page with a number ends.
pub fn law_walks_end()
    ensures { WalksEnd }
{}

/// There is one such walk.
pub fn law_walks_are_one()
    ensures { WalksAreOne }
{}

/// After a split it is the old walk with the new page put after the old one.
pub fn law_walks_after_split()
    ensures { WalksAfterSplit }
{}

/// An added entry leaves all walks.
pub fn law_walks_stay_at_add()
    ensures { WalksStayAtAdd }
{}

/// So does a raised root.
pub fn law_walks_stay_at_raise()
    ensures { WalksStayAtRaise }
{}

/// So does a removed entry.
pub fn law_walks_stay_at_remove()
    ensures { WalksStayAtRemove }
{}
