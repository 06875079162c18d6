//! R-trees on pages (Guttman 1984), whose pages have the sequence numbers and right links by which a search finds what was
//! divided since (Kornacker, Mohan and Hellerstein 1997). What a tree is stands in `isp_forest`; `IsTreeIn` says that contents
//! hold one.
//!
//! - `nodes`: a page that is read and tested.
//! - `visiting`: what is seen of a page.
//! - `paths`: paths down a tree.
//! - `growing`: what grows on one.
//! - `making`: a tree is made.
//! - `removing`: an entry is taken out.
#![tactic(auto)]

mod growing;
mod making;
mod nodes;
mod paths;
mod removing;
mod visiting;

pub use growing::{Growth, growths};
pub use isp_forest::{Entry, Seen, To};
pub use making::create;
pub use nodes::{broken, read_below, read_root};
pub use paths::path_stands;
pub use removing::{has_number, remove};
pub use visiting::{choose, visit};
