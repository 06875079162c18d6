//! Tests of transactions through public calls, over pages in memory with one table, whose root is page 16.
//!
//! - `acts`: calls of a transaction as plain data.
//! - `seen`: the rows of the table.
//! - `noted`: undo chains, free pages, and old rows put back, from the bytes of pages.
//! - `cases`, `drawn`: tests, by rows of calls with what stands then, and drawn beside plain rows.
#![tactic(auto)]

#[cfg(test)]
mod acts;
#[cfg(test)]
mod cases;
#[cfg(test)]
mod drawn;
#[cfg(test)]
mod noted;
#[cfg(test)]
mod seen;
