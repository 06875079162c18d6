//! Scripts, and what the answers to one promise.
//!
//! A script has a setup and sessions, each a list of texts; what a text means is a parameter, the language
//! (`specs/Transactions`). The answers that printed bytes spell (`Spelling`) fit a script (`Answers`); which of them end
//! a transaction (`Transactions`), and that the transactions, done again one by one on plain tables in the order of their
//! ends, give the same answers (`Serial`), is what the top call promises. Sessions that run one after another give such
//! answers (`Alone`).
#![tactic(auto)]

mod laws;
mod script;

pub use laws::{law_alone_answers, law_alone_is_serial, law_full_decides, law_spelled_once};
pub use script::{Place, Script, Session, Sessions, Texts, Word, Words};
