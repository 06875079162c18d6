//! The texts of rows and replies, and the lines of answers, as they are printed.
#![tactic(auto)]

mod bytes;
mod line;
mod refusal;
mod reply;
mod row;

pub use line::answer_line;
pub use reply::print_reply;
pub use row::print_row;
