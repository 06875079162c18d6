//! The statements: which texts they are, and what each of them says.
//!
//! The tokens of a text are read from left to right (`members`): the values (`value`), conditions (`condition`) and
//! definitions of tables (`definition`) of a statement (`statement`). What is read is the statement as it is written
//! (`parsed`), not yet bound to any table.
#![tactic(auto)]

mod condition;
mod definition;
mod laws;
mod members;
mod parsed;
mod statement;
mod value;

pub use isp_tokens::SqlError;
pub use laws::{law_one_meaning, law_read_as_written};
pub use parsed::{
    Literal, LiteralRows, Literals, Names, Parsed, ParsedAtom, ParsedAtoms, ParsedColumn,
    ParsedColumns, ParsedKind, ParsedSet, ParsedSets,
};
pub use statement::parse;
