//! Tests of R-trees on pages through public calls, over pages in memory with the fan-out 4.
//!
//! - `making`: trees that are written page by page.
//! - `seen`: what is seen of them, compared.
//! - The others are tests, named for what they try.
#![tactic(auto)]

#[cfg(test)]
mod finding;
#[cfg(test)]
mod making;
#[cfg(test)]
mod removing;
#[cfg(test)]
mod seen;
#[cfg(test)]
mod spoilt;
#[cfg(test)]
mod walking;
