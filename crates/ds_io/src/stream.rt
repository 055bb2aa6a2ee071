//! What a source and a sink are.
ghost use Rattle.std.specs.Prelude.{◌≡◌, ℕ, ◌≤◌, ◌<◌, List, Option, IfOk, length};
ghost use Rattle.std.specs.Io.KnownBytes.{ReadConsumes, WriteAppends};
ghost use Rattle.ds_io.specs.Counts.{Counts};
ghost use Rattle.ds_io.specs.Ends.{EndsExactly};

use thiserror::Error;

/// A call of a source or a sink failed. The object that failed has counted it.
#[derive(Clone, Copy, Debug, PartialEq, Eq, Error)]
#[error("the call failed")]
pub struct Failed;

/// Gives bytes, piece by piece.
pub trait Source {
    // The bytes that are still to come, where they are known.
    ghost left: { Self → Option (List ℕ) };

    // How many takes failed so far.
    ghost faults: { Self → ℕ };

    /// Gives the next bytes into the front of the buffer, and answers how many: 0 is the end.
    ///
    /// The buffer must not be empty. Known bytes that are given leave the source, and 0 comes
    /// exactly where none was left. At `Failed` the known bytes stay and the count of failed takes
    /// rises, or stands at its last value; at `Ok` it stays.
    fn take(&mut self, buf: &mut [u8]) -> Result<usize, Failed>
        requires { 0 < length buf.old }
        ensures bound { IfOk result (λ n. n ≤ length buf.new) }
        ensures bytes { ReadConsumes (left self.old) (left self.new) result buf.new }
        ensures end { IfOk result (EndsExactly (left self.old)) }
        ensures counts { Counts result (faults self.old) (faults self.new) };
}

/// Takes bytes, piece by piece.
pub trait Sink {
    // The bytes that were taken, where they are known.
    ghost held: { Self → Option (List ℕ) };

    // How many puts failed so far.
    ghost faults: { Self → ℕ };

    /// Takes bytes from the front of the piece, at least one, and answers how many.
    ///
    /// The piece must not be empty. What was taken joins the known bytes. At `Failed` the known
    /// bytes stay and the count of failed puts rises, or stands at its last value; at `Ok` it stays.
    fn put(&mut self, bytes: &[u8]) -> Result<usize, Failed>
        requires { 0 < length bytes.now }
        ensures some { IfOk result (λ n. 0 < n) }
        ensures bound { IfOk result (λ n. n ≤ length bytes.now) }
        ensures bytes { WriteAppends (held self.old) (held self.new) result bytes.now }
        ensures counts { Counts result (faults self.old) (faults self.new) };
}
