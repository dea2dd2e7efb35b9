//! What bytes are written to.
ghost use Rattle.std.specs.Prelude.{◌≡◌, ◌≤◌, false, length, IfOk};
ghost use Rattle.std.specs.Result.{is_ok};
ghost use Rattle.std.specs.Io.KnownBytes.{Keeps, WriteAppends};
ghost use Rattle.mvt_io.specs.Counts.{counted};
ghost use Rattle.mvt_io.specs.States.{Outflow, after_call, after_writing};

use std::io::ErrorKind;

/// A writer that counts its writes, its flushes and its failed calls: those that answered an error,
/// and writes that took nothing of a piece that isn't empty. A count stops at 2^64 - 1. It knows
/// whether its last call was a flush that went well.
pub trait Sink {
    // What is known of it.
    ghost state: { Self → Outflow };

    /// Takes a front of the piece, and answers how many bytes that is; nothing at an error.
    fn write(&mut self, piece: &[u8]) -> Result<usize, ErrorKind>
        ensures within { IfOk result (λ n. n ≤ length piece.now) }
        ensures bytes { WriteAppends (state self.old).taken (state self.new).taken result
            piece.now }
        ensures writes { (state self.new).writes ≡ counted (state self.old).writes }
        ensures flushes { (state self.new).flushes ≡ (state self.old).flushes }
        ensures flushed { (state self.new).flushed ≡ false }
        ensures faults { (state self.new).faults
            ≡ after_writing result piece.now (state self.old).faults };

    /// Passes on what was taken, if the writer keeps it back.
    fn flush(&mut self) -> Result<(), ErrorKind>
        ensures bytes { Keeps (state self.old).taken (state self.new).taken }
        ensures writes { (state self.new).writes ≡ (state self.old).writes }
        ensures flushes { (state self.new).flushes ≡ counted (state self.old).flushes }
        ensures flushed { (state self.new).flushed ≡ is_ok result }
        ensures faults { (state self.new).faults ≡ after_call result (state self.old).faults };
}
