//! What every event keeps of the entries that sessions noted, and of those that wait to be purged, each law a public function with
//! an empty body.
#![tactic(auto)]

mod status;

pub use status::law_noted_kept;
