//! Bytes of an input, by their places.
ghost use Rattle.std.specs.Prelude.{◌≡◌};
ghost use Rattle.mvt_places.specs.Messages as spec;
ghost use Rattle.mvt_places.specs.Spans.{with_span, start_of};

/// The bytes from one place of an input up to another, which isn't counted.
#[derive(Clone, Copy, Debug, PartialEq, Eq)]
pub(crate) struct Span {
    pub start: u64,
    pub end: u64,
}

impl Span {
    /// No bytes, at a place.
    pub fn empty_at(at: u64) -> Self
        ensures { result ≡ spec.empty_at at }
    {
        Span { start: at, end: at }
    }
}

/// What was seen of spans that come one after another.
#[derive(Clone, Copy, Debug)]
pub(crate) struct Seen {
    /// How many spans come before the wanted one, until it is seen.
    pub left: Option<u64>,
    pub wanted: Option<Span>,
    pub last: Option<Span>,
}

impl Seen {
    /// Nothing is seen, and the span of this index is wanted.
    pub fn before(index: u64) -> Self
        ensures { result ≡ start_of index }
    {
        Seen {
            left: Some(index),
            wanted: None,
            last: None,
        }
    }

    /// The same, with one more span.
    pub fn with(self, span: Span) -> Self
        ensures { result ≡ with_span self span }
    {
        let (left, wanted) = match self.left {
            Some(0) => (None, Some(span)),
            Some(left) => (Some(left - 1), self.wanted),
            None => (None, self.wanted),
        };
        Seen {
            left,
            wanted,
            last: Some(span),
        }
    }
}
