//! Transactions on a kept file: which keys they wrote, so that no marked row is left behind them, and the steps of a statement as
//! the file takes them. Each law is a public function with an empty body whose contract is the law.
#![tactic(auto)]

mod keys;
mod steps;

pub use keys::{
    law_commit_adds_none, law_create_adds_none, law_none_written, law_sweep_leaves_none,
    law_undo_adds_none, law_write_adds_key, law_written_in_any_order, law_written_may_sweep,
};
pub use steps::{law_stage_begins, law_stage_creates, law_stage_undoes, law_stage_writes};
