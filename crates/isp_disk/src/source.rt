//! Where the program reads its script from.
ghost use Rattle.std.specs.Prelude.{◌<◌, ◌≤◌, IfOk, List, ℕ, length};
ghost use Rattle.isp_disk.specs.Outside.{HasCause, Reads};

use crate::Failed;

/// Bytes that come in pieces.
pub trait Source {
    /// That what is given is said of its bytes: a fact of the type, and not of a value.
    ghost tells: { Type 0 };

    /// The bytes that were not given yet. They mean nothing where `tells` doesn't hold.
    ghost left: { Self → List ℕ };

    /// How often a call has failed. Only a failed call raises it.
    ghost faults: { Self → ℕ };

    /// Puts the next bytes at the front of the piece and answers how many: 0 only at the end. What stands behind
    /// them in the piece is left open. A failure leaves them all to be read.
    fn next(&mut self, into: &mut [u8]) -> Result<usize, Failed>
        requires { 0 < length into.old }
        ensures fits { IfOk result (λ count. count ≤ length into.new) }
        ensures read { tells → Reads (left self.old) into.new (left self.new) result }
        ensures cause { HasCause (faults self.old) (faults self.new) result };
}
