//! What says which columns a table has.

ghost use Rattle.std.specs.Prelude.{◌≡◌, List, ℕ};
ghost use Rattle.isp_plain.specs.declared.value.Schema.{Schema};

use crate::Schema;
use isp_mbr::Name;

/// A table's name and its columns, whatever else is known of it: what a statement's text is read against.
pub trait Defined {
    /// The name and the columns.
    ghost definition: { Self → List ℕ × Schema };

    /// The name.
    fn name(&self) -> &Name
        ensures { result.now ≡ (definition self.now).0 };

    /// The columns, the key first.
    fn schema(&self) -> &Schema
        ensures { result.now ≡ (definition self.now).1 };
}

impl Defined for (Name, Schema) {
    ghost definition = { λ d. d };

    fn name(&self) -> &Name {
        &self.0
    }

    fn schema(&self) -> &Schema {
        &self.1
    }
}
