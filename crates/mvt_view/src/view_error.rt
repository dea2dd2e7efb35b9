//! Why a text can't be made.
use std::alloc::AllocError;
use std::error::Error;
use std::fmt;

/// Why a text can't be made.
#[derive(Clone, Copy, Debug, PartialEq, Eq)]
pub enum ViewError {
    /// A growth was refused memory.
    Memory,
}

impl From<AllocError> for ViewError {
    ghost use Rattle.std.specs.Prelude.{◌≡◌};
    ghost use Rattle.mvt_view.specs.declared.view_error.ViewError.TheVariants.{Memory};

    ghost from_gives = { λ _ error. error ≡ Memory };

    fn from(_: AllocError) -> Self {
        ViewError::Memory
    }
}

// For a caller who has serde_json write what `json_of` made: it has no floats and no keys but
// texts, so that fails for want of memory alone.
impl From<serde_json::Error> for ViewError {
    ghost use Rattle.std.specs.Prelude.{◌≡◌};
    ghost use Rattle.mvt_view.specs.declared.view_error.ViewError.TheVariants.{Memory};

    ghost from_gives = { λ _ error. error ≡ Memory };

    fn from(_: serde_json::Error) -> Self {
        ViewError::Memory
    }
}

impl fmt::Display for ViewError {
    ghost use Rattle.std.specs.Prelude.{Some, codes};

    ghost output = { λ _. Some (codes "out of memory") };

    fn fmt<W: fmt::Write>(&self, f: &mut fmt::Formatter<W>) -> fmt::Result {
        match self {
            ViewError::Memory => f.write_str("out of memory"),
        }
    }
}

impl Error for ViewError {}
