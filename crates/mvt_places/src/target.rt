//! What stands at the place of a fault.
ghost use Rattle.std.specs.Prelude.{◌≡◌};
ghost use Rattle.mvt_places.specs.Places.{target_of as target_for};

use mvt_tile::Cause;

/// What a fault's `at` means, by its cause.
#[derive(Clone, Copy, Debug, PartialEq, Eq)]
pub(crate) enum Target {
    /// The offset of a field.
    Field,
    /// The offset of the layer whose name is meant.
    Name,
    /// The offset of all that follows.
    Rest,
    /// The index of a tag.
    Tag,
    /// The number of tags.
    Tags,
    /// The index of an integer of the geometry.
    Integer,
    /// The number of integers of the geometry.
    Integers,
}

/// Which of the numbers of tags or geometry is meant.
#[derive(Clone, Copy, Debug)]
pub(crate) enum Pick {
    Nth(u64),
    Last,
    /// What is after the last.
    Behind,
}

/// What the place of a cause means.
pub(crate) fn target_of(cause: Cause) -> Target
    ensures { result ≡ target_for cause }
{
    match cause {
        Cause::OddTags => Target::Tags,
        Cause::KeyIndex | Cause::ValueIndex | Cause::RepeatedKey => Target::Tag,
        Cause::Command
        | Cause::Count
        | Cause::Parameters
        | Cause::ZeroSegment
        | Cause::CoordinateRange
        | Cause::FirstRing
        | Cause::ParameterRange => Target::Integer,
        Cause::EndsEarly => Target::Integers,
        Cause::RepeatedName => Target::Name,
        Cause::TooLarge => Target::Rest,
        Cause::Truncated
        | Cause::VarintRange
        | Cause::FieldNumber
        | Cause::WireType
        | Cause::WrongType
        | Cause::NumberRange
        | Cause::NotUtf8
        | Cause::NoVersion
        | Cause::NoName
        | Cause::ValueKind
        | Cause::GeomType => Target::Field,
    }
}
