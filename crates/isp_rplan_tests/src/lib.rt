//! Tests of plans through public calls: paths with an entry to add, worked out by hand.
#![tactic(auto)]

#[cfg(test)]
mod making;
#[cfg(test)]
mod planning;
