//! What is wrong with rows that are no valid tile.
ghost use Rattle.std.specs.Prelude.{◌≡◌};
ghost use Rattle.mvt_rows.specs.RowsFaults.{of_tag_cause, rows_cause_number};

use crate::undrawn::Undrawn;
use mvt_attrs::TagCause;

/// What is wrong with rows.
///
/// Rows are checked layer by layer. In a layer of version 2 that is first its name, and whether an
/// earlier layer has it; then its keys, its values and the span of its features; then its features.
#[derive(Clone, Copy, Debug, PartialEq, Eq)]
pub enum RowsCause {
    /// The span of a layer's name reaches beyond the texts.
    NameSpan,
    /// A layer's name isn't UTF-8.
    NameText,
    /// The span of a layer's keys reaches beyond the keys.
    KeysSpan,
    /// The span of a key reaches beyond the texts, or the key isn't UTF-8.
    Key,
    /// The span of a layer's values reaches beyond the values.
    ValuesSpan,
    /// A value has a kind that isn't 1 to 7, a number out of its range, or a text that reaches
    /// beyond the texts or isn't UTF-8.
    Value,
    /// The span of a layer's features reaches beyond the features.
    FeaturesSpan,
    /// The bytes of a layer of another version reach beyond the texts.
    BytesSpan,
    /// `has_id` is neither 0 nor 1.
    HasId,
    /// The span of a feature's tags reaches beyond the tags.
    TagsSpan,
    /// A feature has an odd number of tags.
    OddTags,
    /// No key of the layer has a tag's index.
    KeyIndex,
    /// No value of the layer has a tag's index.
    ValueIndex,
    /// A feature has two values for one key.
    RepeatedKey,
    /// The kind of a feature isn't 0 to 3.
    Kind,
    /// The parts, points or integers of a feature reach beyond their list, `exterior` is neither 0
    /// nor 1, a polygon begins with an interior ring, or points aren't one part.
    Geometry,
    /// No commands draw a feature's geometry: a line is too short or goes nowhere, a ring has no
    /// area or runs the wrong way round, or a position or a number is out of its range (4.3). It
    /// has the rule, the part and the point.
    Drawing(Undrawn),
    /// The bytes of a layer of another version aren't fields with that version.
    Bytes,
    /// An earlier layer has the name of a layer.
    RepeatedName,
}

impl RowsCause {
    /// The number of a cause in `mvt.h`.
    pub fn number(self) -> u32
        ensures { result ≡ rows_cause_number self }
    {
        match self {
            RowsCause::NameSpan => 1,
            RowsCause::NameText => 2,
            RowsCause::KeysSpan => 3,
            RowsCause::Key => 4,
            RowsCause::ValuesSpan => 5,
            RowsCause::Value => 6,
            RowsCause::FeaturesSpan => 7,
            RowsCause::BytesSpan => 8,
            RowsCause::HasId => 9,
            RowsCause::TagsSpan => 10,
            RowsCause::OddTags => 11,
            RowsCause::KeyIndex => 12,
            RowsCause::ValueIndex => 13,
            RowsCause::RepeatedKey => 14,
            RowsCause::Kind => 15,
            RowsCause::Geometry => 16,
            RowsCause::Drawing(_) => 17,
            RowsCause::Bytes => 18,
            RowsCause::RepeatedName => 19,
        }
    }

    /// The cause of tags that name no attributes.
    pub(crate) fn of_tag(cause: TagCause) -> Self
        ensures { result ≡ of_tag_cause cause }
    {
        match cause {
            TagCause::OddTags => RowsCause::OddTags,
            TagCause::KeyIndex => RowsCause::KeyIndex,
            TagCause::ValueIndex => RowsCause::ValueIndex,
            TagCause::RepeatedKey => RowsCause::RepeatedKey,
        }
    }
}

/// Where rows are no valid tile, and what is wrong there.
#[derive(Clone, Copy, Debug, PartialEq, Eq)]
pub struct RowsFault {
    /// The index of the layer.
    pub layer: usize,
    /// The index of the feature in its layer, if the fault is in a feature.
    pub feature: Option<usize>,
    pub cause: RowsCause,
}
