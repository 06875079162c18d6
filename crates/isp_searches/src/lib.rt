//! The laws of searches over a tree that changes between their visits, each a public function with an empty body whose
//! contract is the law.
#![tactic(auto)]

mod examples;
mod knowledge;
mod progress;
mod reach;

pub use examples::{law_rows_missed, law_runs_fit, law_tests_fit, law_wrong_steps_miss};
pub use knowledge::{
    law_add_keeps_known, law_beginning_knows, law_forgetting_keeps_known, law_found_all,
    law_order_leaves_known, law_place_keeps_known, law_raise_keeps_known, law_remove_keeps_known,
    law_split_keeps_known, law_visit_keeps_known,
};
pub use progress::{law_visit_comes_nearer, law_visits_end, law_visits_once};
pub use reach::{
    law_add_keeps_covered, law_beginning_covers, law_order_leaves_covered, law_place_keeps_covered,
    law_raise_keeps_covered, law_raise_may_come_first, law_remove_keeps_covered,
    law_split_keeps_covered, law_visit_keeps_covered,
};
