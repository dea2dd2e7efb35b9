//! Why a message can't be read.
use crate::cause::Cause;
use mvt_attrs::TagError;
use mvt_geometry::GeometryError;
use std::alloc::{AllocError, AllocFailed};
use std::fmt;

/// Why a message can't be read.
#[derive(Clone, Copy, Debug, PartialEq, Eq)]
pub enum MessageError {
    /// A growth was refused memory.
    Memory,
    Fault {
        /// The index of the feature whose payload is at fault, in its layer.
        feature: Option<u32>,
        /// The absolute offset of a tag, or an index into a feature's tags or integers.
        at: u64,
        cause: Cause,
    },
}

impl From<AllocError> for MessageError {
    ghost use Rattle.std.specs.Prelude.{◌≡◌};
    ghost use Rattle.mvt_feature.specs.declared.message_error.MessageError.TheVariants.{Memory};

    ghost from_gives = { λ _ error. error ≡ Memory };

    fn from(_: AllocError) -> Self {
        MessageError::Memory
    }
}

impl<T: Drop> From<AllocFailed<T>> for MessageError {
    ghost use Rattle.std.specs.Prelude.{◌≡◌};
    ghost use Rattle.mvt_feature.specs.declared.message_error.MessageError.TheVariants.{Memory};

    ghost from_gives = { λ _ error. error ≡ Memory };

    fn from(_: AllocFailed<T>) -> Self {
        MessageError::Memory
    }
}

impl From<TagError> for MessageError {
    ghost use Rattle.std.specs.Prelude.{◌≡◌};
    ghost use Rattle.mvt_feature.specs.Faults.{of_tag_error};

    ghost from_gives = { λ tag_error error. error ≡ of_tag_error tag_error };

    fn from(error: TagError) -> Self {
        match error {
            TagError::Memory => MessageError::Memory,
            TagError::Fault { index, cause } => MessageError::Fault {
                feature: None,
                at: index as u64,
                cause: Cause::from(cause),
            },
        }
    }
}

impl From<GeometryError> for MessageError {
    ghost use Rattle.std.specs.Prelude.{◌≡◌};
    ghost use Rattle.mvt_feature.specs.Faults.{of_geometry_error};

    ghost from_gives = { λ geometry_error error. error ≡ of_geometry_error geometry_error };

    fn from(error: GeometryError) -> Self {
        match error {
            GeometryError::Memory => MessageError::Memory,
            GeometryError::Fault { index, cause } => MessageError::Fault {
                feature: None,
                at: index as u64,
                cause: Cause::from(cause),
            },
        }
    }
}

impl fmt::Display for MessageError {
    ghost use Rattle.std.specs.Prelude.{Some};
    ghost use Rattle.mvt_feature.specs.Texts.{message_error_text};

    ghost output = { λ error. Some (message_error_text error) };

    fn fmt<W: fmt::Write>(&self, f: &mut fmt::Formatter<W>) -> fmt::Result {
        match self {
            MessageError::Memory => f.write_str("out of memory"),
            MessageError::Fault { at, cause, .. } => write!(f, "{cause} at {at}"),
        }
    }
}

impl std::error::Error for MessageError {}
