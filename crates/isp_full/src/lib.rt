//! Why a statement is told that the file is full.
#![tactic(auto)]

mod full;

pub use full::law_full_is_caused;
