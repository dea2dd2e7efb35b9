//! The rules that a tile can break.
ghost use Rattle.std.specs.Prelude.{◌≡◌};
ghost use Rattle.mvt_feature.specs.Causes.{cause_number, cause_name};

use mvt_attrs::TagCause;
use mvt_geometry::GeometryCause;
use mvt_wire::WireCause;
use std::fmt;

/// Which rule is broken.
///
/// Each has a number that is never given to another.
#[derive(Clone, Copy, Debug, PartialEq, Eq, Hash)]
pub enum Cause {
    /// A varint, a fixed number or a payload runs past the end.
    Truncated,
    /// A varint of 2^64 or more.
    VarintRange,
    /// A tag of 2^32 or more, or of field number 0.
    FieldNumber,
    /// A wire type other than 0, 1, 2 and 5.
    WireType,
    /// A known field of another wire type than its own.
    WrongType,
    /// A uint32 of 2^32 or more.
    NumberRange,
    /// A string that isn't UTF-8.
    NotUtf8,
    /// A layer without a version.
    NoVersion,
    /// A layer without a name.
    NoName,
    /// A value of no kind, or of several.
    ValueKind,
    /// A geometry type above 3.
    GeomType,
    /// An odd number of tags.
    OddTags,
    /// A key index that isn't below the number of keys.
    KeyIndex,
    /// A value index that isn't below the number of values.
    ValueIndex,
    /// A key that stood earlier in the feature.
    RepeatedKey,
    /// A command other than the one that is due.
    Command,
    /// A count that the command may not have.
    Count,
    /// Fewer parameters left than the count says.
    Parameters,
    /// A LineTo that goes nowhere.
    ZeroSegment,
    /// A position out of range.
    CoordinateRange,
    /// A first ring of negative area.
    FirstRing,
    /// Integers that end where more are due.
    EndsEarly,
    /// The name of an earlier layer.
    RepeatedName,
    /// An input that is too long.
    TooLarge,
    /// A parameter that would be -2^31.
    ParameterRange,
}

impl Cause {
    /// Its number.
    pub fn number(&self) -> u32
        ensures { result ≡ cause_number self.now }
    {
        match self {
            Cause::Truncated => 1,
            Cause::VarintRange => 2,
            Cause::FieldNumber => 3,
            Cause::WireType => 4,
            Cause::WrongType => 5,
            Cause::NumberRange => 6,
            Cause::NotUtf8 => 7,
            Cause::NoVersion => 8,
            Cause::NoName => 10,
            Cause::ValueKind => 11,
            Cause::GeomType => 12,
            Cause::OddTags => 13,
            Cause::KeyIndex => 14,
            Cause::ValueIndex => 15,
            Cause::RepeatedKey => 16,
            Cause::Command => 17,
            Cause::Count => 18,
            Cause::Parameters => 19,
            Cause::ZeroSegment => 20,
            Cause::CoordinateRange => 21,
            Cause::FirstRing => 22,
            Cause::EndsEarly => 23,
            Cause::RepeatedName => 24,
            Cause::TooLarge => 25,
            Cause::ParameterRange => 26,
        }
    }

    /// Its name.
    pub fn name(&self) -> &'static str
        ensures { result.now ≡ cause_name self.now }
    {
        match self {
            Cause::Truncated => "Truncated",
            Cause::VarintRange => "VarintRange",
            Cause::FieldNumber => "FieldNumber",
            Cause::WireType => "WireType",
            Cause::WrongType => "WrongType",
            Cause::NumberRange => "NumberRange",
            Cause::NotUtf8 => "NotUtf8",
            Cause::NoVersion => "NoVersion",
            Cause::NoName => "NoName",
            Cause::ValueKind => "ValueKind",
            Cause::GeomType => "GeomType",
            Cause::OddTags => "OddTags",
            Cause::KeyIndex => "KeyIndex",
            Cause::ValueIndex => "ValueIndex",
            Cause::RepeatedKey => "RepeatedKey",
            Cause::Command => "Command",
            Cause::Count => "Count",
            Cause::Parameters => "Parameters",
            Cause::ZeroSegment => "ZeroSegment",
            Cause::CoordinateRange => "CoordinateRange",
            Cause::FirstRing => "FirstRing",
            Cause::EndsEarly => "EndsEarly",
            Cause::RepeatedName => "RepeatedName",
            Cause::TooLarge => "TooLarge",
            Cause::ParameterRange => "ParameterRange",
        }
    }
}

impl fmt::Display for Cause {
    ghost use Rattle.std.specs.Prelude.{Some};
    ghost use Rattle.mvt_feature.specs.Causes.{cause_name};

    ghost output = { λ cause. Some (cause_name cause) };

    fn fmt<W: fmt::Write>(&self, f: &mut fmt::Formatter<W>) -> fmt::Result {
        f.write_str(self.name())
    }
}

impl From<WireCause> for Cause {
    ghost use Rattle.std.specs.Prelude.{◌≡◌};
    ghost use Rattle.mvt_feature.specs.Causes.{of_wire};

    ghost from_gives = { λ wire cause. cause ≡ of_wire wire };

    fn from(cause: WireCause) -> Self {
        match cause {
            WireCause::Truncated => Cause::Truncated,
            WireCause::VarintRange => Cause::VarintRange,
            WireCause::FieldNumber => Cause::FieldNumber,
            WireCause::WireType => Cause::WireType,
        }
    }
}

impl From<TagCause> for Cause {
    ghost use Rattle.std.specs.Prelude.{◌≡◌};
    ghost use Rattle.mvt_feature.specs.Causes.{of_tag};

    ghost from_gives = { λ tag cause. cause ≡ of_tag tag };

    fn from(cause: TagCause) -> Self {
        match cause {
            TagCause::OddTags => Cause::OddTags,
            TagCause::KeyIndex => Cause::KeyIndex,
            TagCause::ValueIndex => Cause::ValueIndex,
            TagCause::RepeatedKey => Cause::RepeatedKey,
        }
    }
}

impl From<GeometryCause> for Cause {
    ghost use Rattle.std.specs.Prelude.{◌≡◌};
    ghost use Rattle.mvt_feature.specs.Causes.{of_geometry};

    ghost from_gives = { λ geometry cause. cause ≡ of_geometry geometry };

    fn from(cause: GeometryCause) -> Self {
        match cause {
            GeometryCause::Command => Cause::Command,
            GeometryCause::Count => Cause::Count,
            GeometryCause::Parameters => Cause::Parameters,
            GeometryCause::ZeroSegment => Cause::ZeroSegment,
            GeometryCause::CoordinateRange => Cause::CoordinateRange,
            GeometryCause::FirstRing => Cause::FirstRing,
            GeometryCause::EndsEarly => Cause::EndsEarly,
            GeometryCause::ParameterRange => Cause::ParameterRange,
        }
    }
}
