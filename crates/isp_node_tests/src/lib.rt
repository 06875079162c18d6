//! Tests of nodes of R-trees through public calls: divisions worked out by hand, pages of 120 entries written and read back,
//! pages that can't be read, and choices that tie.
#![tactic(auto)]

#[cfg(test)]
mod choosing;
#[cfg(test)]
mod dividing;
#[cfg(test)]
mod making;
#[cfg(test)]
mod writing;
