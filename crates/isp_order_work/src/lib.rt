//! What every event keeps of the work of statements, each law a public function with an empty body.
#![tactic(auto)]

mod work;

pub use work::{law_before_kept, law_bound_kept, law_table_kept, law_written_kept};
