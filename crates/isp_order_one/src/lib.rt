//! What every event keeps of the status of entries, each law a public function with an empty body.
#![tactic(auto)]

mod status;

pub use status::{law_named_kept, law_one_status_kept};
