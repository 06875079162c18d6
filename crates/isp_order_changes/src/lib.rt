//! What every event keeps of what statements change, each law a public function with an empty body.
#![tactic(auto)]

mod changes;

pub use changes::law_changing_kept;
