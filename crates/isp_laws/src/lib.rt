//! The laws of the page machine, each a public function with an empty body whose contract is the law.
#![tactic(auto)]

mod divisions;
mod examples;
mod trees;

pub use divisions::{law_one_choice, law_one_division, law_split_gives_parts};
pub use examples::{law_examples_fit, law_searches_fit, law_wrong_splits_miss};
pub use trees::{
    law_add_keeps, law_boxes_on_the_way, law_links_never_lead_back, law_place_keeps,
    law_raise_keeps, law_remove_keeps, law_root_is_alone, law_split_keeps, law_walks_after_split,
    law_walks_are_one, law_walks_end, law_walks_stay_at_add, law_walks_stay_at_raise,
    law_walks_stay_at_remove,
};
