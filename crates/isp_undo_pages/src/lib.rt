//! The pages on which a transaction's old rows survive, as bytes in memory: the directory of the 32 undo slots, and the pages
//! of a slot's chain, which have old images packed one behind another. No store is in sight here.
//!
//! - `buf`: an old image.
//! - `entries`: old images in the bytes of an undo page, the newest read from its end.
//! - `directory`: the first and the last page of each slot's chain, on page 1.
#![tactic(auto)]

mod buf;
mod directory;
mod entries;

pub use buf::{MARKED_KIND, UndoBuf};
pub use directory::{Slot, slot_in, with_slot};
pub use entries::{Spot, cut, entry_size, fresh, newest, read_entry, used_of, with_entry};
