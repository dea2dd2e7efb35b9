//! Why layers can't be extracted.
use std::alloc::{AllocError, AllocFailed};
use thiserror::Error;

/// Why layers can't be extracted.
#[derive(Clone, Copy, Debug, Drop, Error, PartialEq, Eq)]
pub enum ExtractError {
    #[error("out of memory")]
    Memory,
    /// The position of the first name that no layer of version 2 has.
    #[error("a layer isn't there")]
    MissingLayer(usize),
}

impl From<AllocError> for ExtractError {
    ghost use Rattle.std.specs.Prelude.{◌≡◌};
    ghost use Rattle.mvt_tile.specs.declared.extract_error.ExtractError.TheVariants.{Memory};

    ghost from_gives = { λ _ error. error ≡ Memory };

    fn from(_: AllocError) -> Self {
        ExtractError::Memory
    }
}

impl<T: Drop> From<AllocFailed<T>> for ExtractError {
    ghost use Rattle.std.specs.Prelude.{◌≡◌};
    ghost use Rattle.mvt_tile.specs.declared.extract_error.ExtractError.TheVariants.{Memory};

    ghost from_gives = { λ _ error. error ≡ Memory };

    fn from(_: AllocFailed<T>) -> Self {
        ExtractError::Memory
    }
}
