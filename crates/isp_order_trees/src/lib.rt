//! What every event keeps of trees, of their entries and of the searches over them, each law a public function with an empty body.
#![tactic(auto)]

mod searches;
mod trees;

pub use searches::law_nothing_committed_is_missed;
pub use trees::{law_covered_kept, law_known_kept, law_whole_kept};
