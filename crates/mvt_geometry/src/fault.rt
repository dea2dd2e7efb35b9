//! Why integers don't draw a geometry.
use std::alloc::AllocError;
use std::error::Error;
use std::fmt;

/// The rule that integers break first.
#[derive(Clone, Copy, Debug, PartialEq, Eq)]
pub enum GeometryCause {
    /// A command isn't the one due, or none is due; at the command.
    Command,
    /// A command has a count that isn't allowed; at the command.
    Count,
    /// Fewer integers are left than the command has parameters; at the command.
    Parameters,
    /// A pair of a LineTo is (0,0); at its dX.
    ZeroSegment,
    /// A position is out of range; at the dX or dY that left it.
    CoordinateRange,
    /// The first ring has negative area; at its ClosePath.
    FirstRing,
    /// The list is empty, or ends where a LineTo or a ClosePath is due; at its length.
    EndsEarly,
    /// A parameter is 4,294,967,295; at it.
    ParameterRange,
}

/// Why integers weren't read.
#[derive(Clone, Copy, Debug, PartialEq, Eq)]
pub enum GeometryError {
    /// A growth was refused memory; the integers draw a geometry.
    Memory,
    /// The first broken rule, and the index of an integer, counted from 0.
    Fault { index: usize, cause: GeometryCause },
}

/// The first broken rule, before anything grows.
#[derive(Clone, Copy, Debug)]
pub(crate) struct Fault {
    pub(crate) index: usize,
    pub(crate) cause: GeometryCause,
}

impl From<Fault> for GeometryError {
    ghost use Rattle.std.specs.Prelude.{◌≡◌};
    ghost use Rattle.mvt_geometry.specs.declared.fault.GeometryError.TheVariants.{Fault as fault_reported};

    ghost from_gives = { λ f e. e ≡ fault_reported f.index f.cause };

    fn from(fault: Fault) -> Self {
        GeometryError::Fault {
            index: fault.index,
            cause: fault.cause,
        }
    }
}

impl From<AllocError> for GeometryError {
    ghost use Rattle.std.specs.Prelude.{◌≡◌};
    ghost use Rattle.mvt_geometry.specs.declared.fault.GeometryError.TheVariants.{Memory};

    ghost from_gives = { λ f e. e ≡ Memory };

    fn from(_: AllocError) -> Self {
        GeometryError::Memory
    }
}

impl fmt::Display for GeometryCause {
    ghost use Rattle.std.specs.Prelude.{Some};
    ghost use Rattle.mvt_geometry.specs.Texts.{cause_name};

    ghost output = { λ cause. Some (cause_name cause) };

    fn fmt<W: fmt::Write>(&self, f: &mut fmt::Formatter<W>) -> fmt::Result {
        f.write_str(match self {
            GeometryCause::Command => "Command",
            GeometryCause::Count => "Count",
            GeometryCause::Parameters => "Parameters",
            GeometryCause::ZeroSegment => "ZeroSegment",
            GeometryCause::CoordinateRange => "CoordinateRange",
            GeometryCause::FirstRing => "FirstRing",
            GeometryCause::EndsEarly => "EndsEarly",
            GeometryCause::ParameterRange => "ParameterRange",
        })
    }
}

impl fmt::Display for GeometryError {
    ghost use Rattle.std.specs.Prelude.{Some};
    ghost use Rattle.mvt_geometry.specs.Texts.{geometry_error_text};

    ghost output = { λ error. Some (geometry_error_text error) };

    fn fmt<W: fmt::Write>(&self, f: &mut fmt::Formatter<W>) -> fmt::Result {
        match self {
            GeometryError::Memory => f.write_str("out of memory"),
            GeometryError::Fault { index, cause } => write!(f, "{cause} at {index}"),
        }
    }
}

impl Error for GeometryError {}
