//! Tests of rows as bytes through public calls: rows worked out by hand are read and spelled again, and bytes that spell none
//! are refused.
#![tactic(auto)]

#[cfg(test)]
mod rows;
