//! Geometries of whole coordinates, and their one spelling in bytes.
//!
//! A `Form` is one of the seven kinds with its points; a `Geometry` is a form that keeps the rules. Each geometry has one
//! spelling in bytes, `to_bytes`, and `from_bytes` reads these spellings and nothing else.
#![tactic(auto)]

mod bounds;
mod cursor;
mod error;
mod form;
mod geometry;
mod laws;
mod read;
mod rules;
mod write;

pub use bounds::box_of;
pub use error::GeomError;
pub use form::{Form, Members, Point, Points, Polygons, Rings};
pub use geometry::Geometry;
pub use laws::{law_box_is_least, law_no_spelling_begins_another};
pub use read::from_bytes;
pub use rules::is_closed;
pub use write::{bytes_len, to_bytes};
