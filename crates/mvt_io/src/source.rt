//! What bytes are read from.
ghost use Rattle.std.specs.Prelude.{◌≡◌, ◌≤◌, max, length, IfOk, Ok};
ghost use Rattle.std.specs.Io.KnownBytes.{ReadConsumes};
ghost use Rattle.mvt_io.specs.Counts.{counted, given_by};
ghost use Rattle.mvt_io.specs.States.{Inflow, after_call, after_reading};

use std::io::ErrorKind;

/// A reader that counts its reads, those that gave nothing and those that answered an error. A
/// count stops at 2^64 - 1.
pub trait Source {
    // What is known of it.
    ghost state: { Self → Inflow };

    /// Fills a front of the buffer with the next bytes, and answers how many; 0 for a buffer that
    /// isn't empty only at the end.
    fn read(&mut self, buffer: &mut [u8]) -> Result<usize, ErrorKind>
        ensures within { IfOk result (λ n. n ≤ length buffer.new) }
        ensures bytes { ReadConsumes (state self.old).left (state self.new).left result
            buffer.new }
        ensures reads { (state self.new).reads ≡ counted (state self.old).reads }
        ensures empty { (state self.new).empty ≡ after_reading result (state self.old).empty }
        ensures given { (state self.new).given ≡ given_by result }
        ensures asked { (state self.new).asked ≡ max (state self.old).asked (length buffer.old) }
        ensures faults { (state self.new).faults ≡ after_call result (state self.old).faults };
}

/// How many reads gave nothing, after one that gave this many bytes.
pub(crate) fn count_empty(empty: u64, given: usize) -> u64
    ensures { result ≡ after_reading (Ok given) empty }
{
    if given == 0 {
        empty.saturating_add(1)
    } else {
        empty
    }
}
