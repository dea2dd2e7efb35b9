//! What stands at the front of a stream.
ghost use Rattle.mvt_wire.specs.Span.{IsSpan};

use crate::fault::{WireCause, WireFault};
use crate::field::next_field;

/// What the bytes at the front are.
#[derive(Clone, Copy, Debug, PartialEq, Eq)]
pub enum Span {
    /// A field of this many bytes.
    Whole(usize),
    /// The front of a field, or nothing.
    Unfinished,
    /// No field, whatever follows.
    Bad(WireFault),
}

/// What the bytes at the front are, by their tag and length alone.
#[inline]
pub fn field_span(bytes: &[u8]) -> Span
    ensures { IsSpan bytes.now result }
{
    match next_field(bytes, 0) {
        Ok(Some((_, size))) => Span::Whole(size),
        Ok(None) => Span::Unfinished,
        Err(fault) => match fault.cause {
            WireCause::Truncated => Span::Unfinished,
            _ => Span::Bad(fault),
        },
    }
}
