//! Lists that are used again from feature to feature.
ghost use Rattle.std.specs.Prelude.{◌≡◌, [], IfOk};
ghost use Rattle.mvt_feature.specs.Drawn.{tags_of, integers_of};

use mvt_wire::PackedNumbers;
use std::alloc::{AllocError, Global};

/// Lists for the tags and the integers of a feature while it is read or written.
///
/// ```ignore
/// let mut scratch = Scratch::new(alloc);
/// for payload in payloads {
///     let feature =
///         read_feature_in(alloc, payload, payload_at, &mut keys, values, &mut scratch)?;
///     features.push(feature)?;
/// }
/// ```
///
/// What it holds between two calls means nothing; after an error it can be used again.
#[derive(Debug, Drop)]
pub struct Scratch {
    pub(crate) tags: Vec<u32>,
    /// The tags of the feature that was written last.
    pub(crate) written_tags: Vec<u32>,
    pub(crate) integers: Vec<u32>,
    /// The integers of the feature that is written.
    pub(crate) written_integers: PackedNumbers,
}

/// How many tags and integers a scratch for writing has room for at first.
const FIRST_ROOM: usize = 32;

impl Scratch {
    /// A scratch that has taken no memory yet.
    pub fn new(alloc: Global) -> Self
        ensures tags { tags_of result ≡ [] }
        ensures integers { integers_of result ≡ [] }
    {
        Scratch {
            tags: Vec::new(alloc),
            written_tags: Vec::new(alloc),
            integers: Vec::new(alloc),
            written_integers: PackedNumbers::new(alloc),
        }
    }

    /// The tags of the feature that was read last, or told by
    /// [`draw_usual_feature`](crate::draw_usual_feature).
    pub fn tags(&self) -> &[u32]
        ensures { result.now ≡ tags_of self.now }
    {
        &self.tags
    }

    /// The integers of the last feature whose fields were read into lists. One that is judged
    /// straight from its bytes leaves those of a feature before it.
    pub fn integers(&self) -> &[u32]
        ensures { result.now ≡ integers_of self.now }
    {
        &self.integers
    }

    /// A scratch for writing, whose lists needn't grow for a small feature.
    ///
    /// # Errors
    ///
    /// When memory runs out.
    pub fn with_room(alloc: Global) -> Result<Self, AllocError>
        ensures tags { IfOk result (λ scratch. tags_of scratch ≡ []) }
        ensures integers { IfOk result (λ scratch. integers_of scratch ≡ []) }
    {
        let mut scratch = Scratch::new(alloc);
        scratch.tags.reserve(FIRST_ROOM)?;
        scratch.written_tags.reserve(FIRST_ROOM)?;
        scratch.written_integers.reserve(FIRST_ROOM)?;
        Ok(scratch)
    }
}
