//! Why nothing is made of rows.
ghost use Rattle.std.specs.Prelude.{◌≡◌};
ghost use Rattle.mvt_rows.specs.Written.{at_feature, at_layer, if_any};

use crate::rows_cause::{RowsCause, RowsFault};
use mvt_attrs::TagError;
use std::alloc::{AllocError, AllocFailed};
use thiserror::Error;

/// Why nothing is made of rows.
#[derive(Clone, Copy, Debug, Drop, Error, PartialEq, Eq)]
pub enum RowsError {
    #[error("out of memory")]
    Memory,
    /// The canonical bytes are more than the limit.
    #[error("the tile is too large")]
    TooLarge,
    /// The rows are no tile, or none that is valid: where, and why.
    #[error("the rows are no tile")]
    NoTile(RowsFault),
}

impl From<AllocError> for RowsError {
    ghost use Rattle.std.specs.Prelude.{◌≡◌};
    ghost use Rattle.mvt_rows.specs.declared.rows_error.RowsError.TheVariants.{Memory};

    ghost from_gives = { λ _ error. error ≡ Memory };

    fn from(_: AllocError) -> Self {
        RowsError::Memory
    }
}

/// Why the row of a layer isn't written: what is wrong, at a feature of this index or at none.
#[derive(Clone, Copy, Debug, PartialEq, Eq)]
pub(crate) enum RowError {
    Memory,
    Wrong(Option<usize>, RowsCause),
}

impl RowError {
    /// The same, at a feature.
    pub(crate) fn at_feature(self, index: usize) -> Self
        ensures { result ≡ at_feature index self }
    {
        match self {
            RowError::Memory => RowError::Memory,
            RowError::Wrong(_, cause) => RowError::Wrong(Some(index), cause),
        }
    }

    /// The same, at a layer.
    pub(crate) fn at_layer(self, layer: usize) -> RowsError
        ensures { result ≡ at_layer layer self }
    {
        match self {
            RowError::Memory => RowsError::Memory,
            RowError::Wrong(feature, cause) => RowsError::NoTile(RowsFault {
                layer,
                feature,
                cause,
            }),
        }
    }
}

impl From<AllocError> for RowError {
    ghost use Rattle.std.specs.Prelude.{◌≡◌};
    ghost use Rattle.mvt_rows.specs.declared.rows_error.RowError.TheVariants.{Memory};

    ghost from_gives = { λ _ error. error ≡ Memory };

    fn from(_: AllocError) -> Self {
        RowError::Memory
    }
}

impl From<TagError> for RowError {
    ghost use Rattle.std.specs.Prelude.{◌≡◌};
    ghost use Rattle.mvt_rows.specs.Written.{of_tags};

    ghost from_gives = { λ error row_error. row_error ≡ of_tags error };

    fn from(error: TagError) -> Self {
        match error {
            TagError::Memory => RowError::Memory,
            TagError::Fault { cause, .. } => RowError::Wrong(None, RowsCause::of_tag(cause)),
        }
    }
}

/// Why nothing is made of a part of rows.
#[derive(Clone, Copy, Debug, Drop, PartialEq, Eq)]
pub(crate) enum RowPartError {
    Memory,
    /// There is no such part.
    NoPart,
}

impl From<AllocError> for RowPartError {
    ghost use Rattle.std.specs.Prelude.{◌≡◌};
    ghost use Rattle.mvt_rows.specs.declared.rows_error.RowPartError.TheVariants.{Memory};

    ghost from_gives = { λ _ error. error ≡ Memory };

    fn from(_: AllocError) -> Self {
        RowPartError::Memory
    }
}

impl<T: Drop> From<AllocFailed<T>> for RowPartError {
    ghost use Rattle.std.specs.Prelude.{◌≡◌};
    ghost use Rattle.mvt_rows.specs.declared.rows_error.RowPartError.TheVariants.{Memory};

    ghost from_gives = { λ _ error. error ≡ Memory };

    fn from(_: AllocFailed<T>) -> Self {
        RowPartError::Memory
    }
}

/// What was made, or nothing if there is no such part.
pub(crate) fn if_any<T: Drop>(made: Result<T, RowPartError>) -> Result<Option<T>, RowError>
    ensures { result ≡ if_any made }
{
    match made {
        Ok(made) => Ok(Some(made)),
        Err(RowPartError::NoPart) => Ok(None),
        Err(RowPartError::Memory) => Err(RowError::Memory),
    }
}
