//! Tests of which texts are statements and what they say, over the public calls of `isp_tokens` and `isp_sql`. They stand
//! in a crate of their own, since a crate with tests is proved with them and without.
//!
//! - `reading`: statements with what they say, and texts that are none.
//! - `said`: a statement as it is written, printed.
#![tactic(auto)]

#[cfg(test)]
mod reading;
#[cfg(test)]
mod said;
