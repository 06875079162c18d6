//! Undo chains: 32 stacks of old images in the pages of a file, one a slot. Their pages are taken as they fill, and given back
//! as they empty; no call takes memory.
//!
//! - `pushing`: one image more.
//! - `popping`: the newest image, read and taken off.
//! - `finishing`: no chain any more.
#![tactic(auto)]

mod finishing;
mod popping;
mod pushing;

pub use finishing::finish;
pub use isp_undo_pages::UndoBuf;
pub use isp_undo_walks::is_begun;
pub use popping::{last, pop};
pub use pushing::push;
