//! What sessions were told, and how far their statements are on the way to an answer.
//!
//! Two words on a state in order: each statement at work is on course (`specs/Course`), and each open transaction's answers stand on
//! the committed tables (`specs/Told`). Each law is a public function with an empty body.
#![tactic(auto)]

mod told;

pub use told::law_rested_is_told;
