//! Sizes and places within what pages hold: entries of inner pages, slots and old images of undo chains.
ghost use Rattle.isp_format.specs.Fields.{AreFields};

/// How many bytes the slot of a row has at most, and so the row.
pub const MOST_SLOT: usize = 1_000;

/// How many bytes an entry of an inner page has: a key, and the page that has the keys from there on.
pub const NAME_BYTES: usize = 12;

/// Where that page stands in them.
pub const CHILD_PLACE: usize = 8;

/// How many entries an inner page has at most.
pub const MOST_NAMES: u16 = 336;

/// How many slots the directory of undo chains has.
pub const UNDO_SLOTS: u32 = 32;

/// How many bytes a slot has: the first and the last page of its chain.
pub const UNDO_SLOT_BYTES: usize = 8;

/// Where the last page stands in them.
pub const LAST_PLACE: usize = 4;

/// How many bytes an old image has beside its row.
pub const IMAGE_HEAD: usize = 17;

/// Where the key stands in them, behind the table's number.
pub const IMAGE_KEY_PLACE: usize = 4;

/// Where the image's kind stands.
pub const IMAGE_KIND_PLACE: usize = 12;

/// Where the row's length stands.
pub const IMAGE_LENGTH_PLACE: usize = 13;

/// Where the row begins. Behind it stands how many bytes the image has.
pub const IMAGE_ROW_PLACE: usize = 15;

/// The sizes and places are those of the definitions.
pub fn law_fields()
    ensures { AreFields }
{}
