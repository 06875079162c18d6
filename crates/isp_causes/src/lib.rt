//! Why an event of a session comes next: where the session stands, kind by kind.
#![tactic(auto)]

mod causes;

pub use causes::law_next_has_cause;
