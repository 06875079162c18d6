//! Tests of the crates that know the language, over their public calls. They stand in a crate of their own, since a crate
//! with tests is proved with them and without.
//!
//! - `boxes`: boxes and the tests on them, strings of bytes and copies.
//! - `geometry`: texts of geometries with their faults, spellings in bytes, and boxes.
//! - `plain`: statements on plain tables in memory, with what each is told.
//! - `plan`: what statements mean, their first cause of refusal, and the ways to their rows.
//! - `script`: scripts, and bytes that are none.
//! - `text`: the texts of refusals, rows and replies, and the line of an answer.
#![tactic(auto)]

#[cfg(test)]
mod boxes;
#[cfg(test)]
mod geometry;
#[cfg(test)]
mod plain;
#[cfg(test)]
mod plan;
#[cfg(test)]
mod script;
#[cfg(test)]
mod text;
