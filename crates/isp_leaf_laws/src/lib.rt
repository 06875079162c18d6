//! What a tree keeps while its entries are placed and removed, with nothing known of its right links: it stays a forest, its
//! pages stay, a placing changes its path alone, and each entry lies on a leaf where it did. Each law is a public function with
//! an empty body whose contract is the law.
#![tactic(auto)]

mod leaves;
mod trees;

pub use leaves::{
    law_add_on_leaves, law_place_on_leaves, law_raise_on_leaves, law_remove_on_leaves,
    law_split_on_leaves,
};
pub use trees::{
    law_add_keeps_forest, law_add_leaves_pages, law_deep_is_large, law_empty_is_forest,
    law_place_changes_path, law_place_keeps_forest, law_place_leaves_pages, law_raise_keeps_forest,
    law_raise_leaves_pages, law_remove_keeps_forest, law_remove_leaves_pages,
    law_split_keeps_forest, law_split_leaves_pages,
};
