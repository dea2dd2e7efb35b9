//! Why bytes aren't the spelling that is expected.
use std::error::Error;
use std::fmt;

/// The kinds of broken spelling.
#[derive(Clone, Copy, Debug, PartialEq, Eq)]
pub enum WireCause {
    /// The bytes end inside a number or a field.
    Truncated,
    /// A varint of more than ten bytes, or of a number of 2^64 or more.
    VarintRange,
    /// A tag of 2^32 or more, or of field number 0.
    FieldNumber,
    /// A wire type other than 0, 1, 2 and 5.
    WireType,
}

/// A broken spelling, and the offset where it begins.
///
/// The cause stands first: a `Result` then keeps a number's length in one register.
#[derive(Clone, Copy, Debug, PartialEq, Eq)]
pub struct WireFault {
    pub cause: WireCause,
    pub at: usize,
}

impl fmt::Display for WireCause {
    ghost use Rattle.std.specs.Prelude.{Some};
    ghost use Rattle.mvt_wire.specs.Texts.{cause_name};

    ghost output = { λ cause. Some (cause_name cause) };

    fn fmt<W: fmt::Write>(&self, f: &mut fmt::Formatter<W>) -> fmt::Result {
        f.write_str(match self {
            WireCause::Truncated => "Truncated",
            WireCause::VarintRange => "VarintRange",
            WireCause::FieldNumber => "FieldNumber",
            WireCause::WireType => "WireType",
        })
    }
}

impl fmt::Display for WireFault {
    ghost use Rattle.std.specs.Prelude.{Some};
    ghost use Rattle.mvt_wire.specs.Texts.{fault_text};

    ghost output = { λ fault. Some (fault_text fault) };

    fn fmt<W: fmt::Write>(&self, f: &mut fmt::Formatter<W>) -> fmt::Result {
        write!(f, "{} at {}", self.cause, self.at)
    }
}

impl Error for WireFault {}
