//! Script files: the grammar that says which bytes are a script, and the reader that finds the script or the first bad
//! line.
#![tactic(auto)]

mod error;
mod laws;
mod lines;
mod script;

pub use error::ScriptError;
pub use isp_serial::{Script, Session, Sessions, Texts, Word, Words};
pub use laws::{
    law_lines_spelled, law_one_bad_line, law_one_script, law_script_or_bad_line, law_within_limits,
};
pub use script::read_script;
