//! The tokens of a statement's text, and reading them one by one.
//!
//! A text is cut into tokens (`token`), among them the words of the grammar (`words`). A `Cursor` goes over tokens from
//! left to right (`cursor`). In `specs/` stand which bytes are which tokens (`Tokens`), and phrases of tokens, from
//! which a grammar is written (`Phrases`).
#![tactic(auto)]

mod cursor;
mod error;
mod laws;
mod token;
mod words;

pub use cursor::Cursor;
pub use error::SqlError;
pub use laws::{law_tokens_as_written, law_words_are_known};
pub use token::{Symbol, Token, Tokens, tokens_of};
pub use words::{Word, exchanged};
