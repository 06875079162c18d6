//! Whose search each is.

ghost use Rattle.isp_order_searches.specs.SearchOrder.{KeepsBelongs};

/// Each search is one of a tree, and of its session's present statement or an earlier one of its
/// open transaction; a statement has one.
pub fn law_belongs_kept()
    ensures { KeepsBelongs }
{}
