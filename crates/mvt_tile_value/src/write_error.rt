//! Why a tile can't be written.
use mvt_message::PutError;
use std::alloc::AllocError;
use std::io::ErrorKind;
use thiserror::Error;

/// Why a tile can't be written.
#[derive(Clone, Copy, Debug, Drop, Error, PartialEq, Eq)]
pub enum WriteError {
    #[error("out of memory")]
    Memory,
    /// The canonical bytes are more than the limit.
    #[error("the tile is too large")]
    TooLarge,
    /// A write that failed, or that took nothing (`WriteZero`).
    #[error("a write failed")]
    Write(ErrorKind),
}

impl From<AllocError> for WriteError {
    ghost use Rattle.std.specs.Prelude.{◌≡◌};
    ghost use Rattle.mvt_tile_value.specs.declared.write_error.WriteError.TheVariants.{Memory};

    ghost from_gives = { λ _ error. error ≡ Memory };

    fn from(_: AllocError) -> Self {
        WriteError::Memory
    }
}

impl From<PutError> for WriteError {
    ghost use Rattle.std.specs.Prelude.{◌≡◌};
    ghost use Rattle.mvt_tile_value.specs.Writing.{write_error};

    ghost from_gives = { λ put error. error ≡ write_error put };

    fn from(error: PutError) -> Self {
        match error {
            PutError::Memory => WriteError::Memory,
            PutError::TooLarge => WriteError::TooLarge,
        }
    }
}
