//! How the entries of a full page are divided in two: Guttman's quadratic split (1984), with every tie settled, so that a
//! list of boxes has one division. It knows boxes and places, and no page.
//!
//! - `seeds`: the two entries that the groups begin with.
//! - `next`, `group`: the entry that is taken next, and the group that takes it.
//! - `division`: the whole, `split`.
#![tactic(auto)]

mod areas;
mod division;
mod group;
mod next;
mod seeds;
mod side;

pub use division::split;
pub use side::Side;
