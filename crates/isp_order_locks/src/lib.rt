//! What every event keeps of locks and waits, each law a public function with an empty body.
#![tactic(auto)]

mod locks;

pub use locks::{
    law_compatible_kept, law_counted_kept, law_idle_kept, law_intended_kept, law_locked_kept,
    law_no_cycle_kept, law_waiting_kept,
};
