//! Boxes of whole numbers and the tests on them. A box is a minimum bounding rectangle. A search over a tree of boxes asks
//! `satisfies` of a row's box and `may_hold` of the box round a subtree: the laws say that what `may_hold` refuses has no
//! row to find.
#![tactic(auto)]

mod boxes;
mod holding;
mod laws;
mod predicate;

pub use boxes::{Box4, area, covers, enlargement, meets, union};
pub use holding::{may_hold, satisfies};
pub use isp_base::{Bytes, Duplicate, Name};
pub use laws::{law_may_hold_grows, law_may_hold_of_satisfying};
pub use predicate::{Predicate, Test};
