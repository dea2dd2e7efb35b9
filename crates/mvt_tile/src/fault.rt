//! Why bytes aren't a tile.
ghost use Rattle.std.specs.Prelude.{◌≡◌};
ghost use Rattle.mvt_tile.specs.Faults.{outer_fault};

use mvt_message::Cause;
use std::alloc::AllocError;
use std::io::ErrorKind;
use thiserror::Error;

/// The first broken rule of a tile: where it is broken, and which it is.
#[derive(Clone, Copy, Debug, PartialEq, Eq)]
pub struct Fault {
    /// The index of the layer, counted over layers of every version; `None` for a fault of a
    /// top-level field's own spelling or wire type, and for an input that is too large.
    pub layer: Option<u32>,
    /// The index of the feature in its layer, for faults inside its payload.
    pub feature: Option<u32>,
    /// The offset of a tag in the input, or an index into a feature's tags or integers.
    pub at: u64,
    pub cause: Cause,
}

impl Fault {
    /// A fault that stands in no layer.
    pub fn outer(at: u64, cause: Cause) -> Self
        ensures { result ≡ outer_fault at cause }
    {
        Fault {
            layer: None,
            feature: None,
            at,
            cause,
        }
    }
}

/// Why a tile can't be read.
#[derive(Clone, Copy, Debug, Drop, Error, PartialEq, Eq)]
pub enum DecodeError {
    #[error("out of memory")]
    Memory,
    #[error("the tile is refused")]
    Fault(Fault),
    #[error("a read failed")]
    Read(ErrorKind),
}

impl From<AllocError> for DecodeError {
    ghost use Rattle.std.specs.Prelude.{◌≡◌};
    ghost use Rattle.mvt_tile.specs.declared.fault.DecodeError.TheVariants.{Memory};

    ghost from_gives = { λ _ error. error ≡ Memory };

    fn from(_: AllocError) -> Self {
        DecodeError::Memory
    }
}
