//! What every event keeps of entries that are being placed, each law a public function with an empty body.
#![tactic(auto)]

mod paths;

pub use paths::{law_collected_kept, law_paths_kept};
