//! What the others may count on at an event of a session. Each law is a public function with an empty body.
#![tactic(auto)]

mod others;

pub use others::{
    law_committed_changes_at_ends, law_others_are_left, law_purges_leave_committed,
    law_purges_leave_named, law_read_is_unnamed, law_rows_change_where_written,
};
