//! The sessions of a script over the pages of a file: each text is answered and its line printed.
//!
//! - `printing`: an answer's line.
//! - `answering`: a session's texts.
//! - `playing`: the setup, and then the session.
#![tactic(auto)]

mod answering;
mod playing;
mod printing;

pub use playing::play;
