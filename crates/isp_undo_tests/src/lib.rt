//! Tests of undo chains through public calls, over pages in memory: images that are pushed, popped and given back, beside the lists
//! of images that there are then.
//!
//! - `acts`: calls on slots as plain data, each in a mini-transaction of its own.
//! - `seen`: what stands in the pages, compared.
//! - The others are tests, named for what they try.
#![tactic(auto)]

#[cfg(test)]
mod acts;
#[cfg(test)]
mod bytes;
#[cfg(test)]
mod chains;
#[cfg(test)]
mod drawn;
#[cfg(test)]
mod random;
#[cfg(test)]
mod seen;
