//! Well-known text of geometries: read with the exact cause and place of a fault, and printed in one canonical form.
#![tactic(auto)]

mod cause;
mod cursor;
mod kind;
mod laws;
mod number;
mod printer;
mod reader;

pub use cause::{WktCause, WktError};
pub use laws::{
    law_fault_causes, law_fault_place, law_faults_stop, law_fronts_go_on, law_one_meaning,
    law_printed_text_means,
};
pub use printer::print;
pub use reader::read;
