//! What every event keeps of tables and their rows by keys, as a public function with an empty body.
#![tactic(auto)]

mod keyed;

pub use keyed::law_keyed_kept;
