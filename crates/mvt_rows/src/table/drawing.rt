//! The parts of a feature, told while its geometry is judged.
ghost use Rattle.std.specs.Prelude.{◌≡◌, ◌+◌, ◌^◌, ◌<◌, ◌≤◌, List, length, take, None, IfOk, IfErr, OnOk, OnErr};
ghost use Rattle.mvt_base.specs.Reports.{Reports};
ghost use Rattle.mvt_attrs.specs.Values.{Value};
ghost use Rattle.mvt_geometry.specs.Visiting.{HasDrawn};
ghost use Rattle.mvt_feature.specs.Drawn.{IsDrawnOf, tags_of};
ghost use Rattle.mvt_feature.specs.FeatureRules.{feature_fault};
ghost use Rattle.mvt_feature.specs.Faults.{fault_of};
ghost use Rattle.mvt_rows.specs.Tables.{with_parts, with_integers};

use super::Table;
use mvt_attrs::LayerKeys;
use mvt_feature::{FeatureFields, MessageError, Scratch, draw_feature, draw_usual_feature};
use std::alloc::Global;

/// How many parts and how many points there are, and how many there is room for.
#[derive(Clone, Copy)]
pub(super) struct Mark {
    parts: usize,
    points: usize,
    parts_room: usize,
    points_room: usize,
}

impl Table {
    /// Adds the parts of a feature's geometry, and answers what else its fields say; its tags are
    /// left in the scratch. Behind an error there are no more parts and points than before, and the
    /// memory that they took is given back.
    ///
    /// # Errors
    ///
    /// As [`draw_feature`].
    pub(super) fn add_drawing(
        &mut self,
        alloc: Global,
        payload: &[u8],
        payload_at: u64,
        keys: &mut LayerKeys<'_>,
        values: usize,
        scratch: &mut Scratch,
    ) -> Result<FeatureFields, MessageError>
        requires { payload_at + length payload.now < 2 ^ 64 }
        ensures feature { IfOk result (λ known. (held : List Value) → length held ≡ values
            → IsDrawnOf payload.now keys.old held (tags_of scratch.new)
            (HasDrawn (λ start parts begun table. table ≡ with_parts start parts begun)
            (λ start integers table. table ≡ with_integers start integers) self.old self.new)
            known) }
        ensures ok { OnOk result ((held : List Value) → length held ≡ values
            → feature_fault payload.now payload_at keys.old held ≡ None) }
        ensures err { IfErr result (λ error. (held : List Value) → length held ≡ values
            → Reports (fault_of error) (feature_fault payload.now payload_at keys.old held)) }
        ensures parts { OnErr result (length self.new.parts ≤ length self.old.parts) }
        ensures points { OnErr result (length self.new.points ≤ length self.old.points) }
        ensures same { keys.new ≡ keys.old }
    {
        let before = self.mark();
        match draw_usual_feature(alloc, self, payload, payload_at, keys, values, scratch) {
            Ok(Some(known)) => return Ok(known),
            Ok(None) => self.forget_behind(before),
            Err(refused) => {
                self.forget_behind(before);
                return Err(refused.into());
            }
        }
        match draw_feature(alloc, self, payload, payload_at, keys, values, scratch) {
            Ok(known) => Ok(known),
            Err(error) => {
                self.forget_behind(before);
                Err(error)
            }
        }
    }

    /// What there is before a feature.
    pub(super) fn mark(&self) -> Mark
        ensures parts { result.parts ≡ length self.now.parts }
        ensures points { result.points ≡ length self.now.points }
    {
        Mark {
            parts: self.parts.len(),
            points: self.points.len(),
            parts_room: self.parts.capacity(),
            points_room: self.points.capacity(),
        }
    }

    /// Drops the parts and the points that were added since, and gives back the memory that they
    /// took.
    pub(super) fn forget_behind(&mut self, before: Mark)
        ensures { self.new ≡ record self.old {
          parts = take before.parts self.old.parts;
          points = take before.points self.old.points;
        } }
    {
        self.keep_parts(before.parts, before.points);
        self.keep_room(before.parts_room, before.points_room);
    }

    /// Drops what stands after so many parts and this many points.
    fn keep_parts(&mut self, parts: usize, points: usize)
        ensures { self.new ≡ record self.old {
          parts = take parts self.old.parts;
          points = take points self.old.points;
        } }
    {
        self.parts.truncate(parts);
        self.points.truncate(points);
    }

    /// Gives back the memory of parts and points that goes beyond this room and isn't in use.
    fn keep_room(&mut self, parts: usize, points: usize)
        ensures { self.new ≡ self.old }
    {
        self.parts.shrink_to(parts);
        self.points.shrink_to(points);
    }
}
