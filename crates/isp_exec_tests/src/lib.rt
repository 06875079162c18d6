//! Tests of statements that go on step by step, through public calls, over pages in memory.
//!
//! - `steps`: a statement's text is stepped to its answer, and each step compared.
//! - `cases`: files, statements on them, and what each step of these is.
#![tactic(auto)]

#[cfg(test)]
mod cases;
#[cfg(test)]
mod steps;
