//! The notes of the rings of a feature, as they are drawn.
ghost use Rattle.std.specs.Prelude.{◌≡◌, ◌+◌, ◌^◌, ◌<◌, ℕ, List, length, None, IfOk, IfErr, OnOk};
ghost use Rattle.mvt_base.specs.Reports.{Reports};
ghost use Rattle.mvt_attrs.specs.Values.{Value};
ghost use Rattle.mvt_geometry.specs.declared.shape.Point.{Point as APoint};
ghost use Rattle.mvt_geometry.specs.Area.{area2};
ghost use Rattle.mvt_geometry.specs.Rings.{is_closed};
ghost use Rattle.mvt_feature.specs.Drawn.{IsDrawnOf, tags_of};
ghost use Rattle.mvt_feature.specs.Faults.{fault_of};
ghost use Rattle.mvt_feature.specs.FeatureRules.{feature_fault};
ghost use Rattle.mvt_tile_value.specs.Rings.{HasBegun, HasNotedAll, HasNotedRing};

use crate::note::Note;
use crate::noting::note_known_ring;
use mvt_attrs::LayerKeys;
use mvt_feature::{FeatureFields, MessageError, Scratch, draw_feature, draw_usual_feature};
use mvt_geometry::{GeometryVisitor, Point, Ring};
use std::alloc::{AllocError, Global};

/// Notes the rings of a feature.
#[derive(Drop)]
pub(crate) struct RingNotes {
    layer: usize,
    feature: usize,
    /// How many rings the feature has so far.
    count: usize,
    pub(crate) notes: Vec<Note>,
}

impl RingNotes {
    /// For a layer's first feature. Takes no memory.
    pub(crate) fn new(alloc: Global, layer: usize) -> Self
        ensures { HasBegun layer 0 result }
    {
        RingNotes {
            layer,
            feature: 0,
            count: 0,
            notes: Vec::new(alloc),
        }
    }

    /// Begins another feature of the layer.
    pub(crate) fn begin(&mut self, feature: usize)
        ensures { HasBegun self.old.layer feature self.new }
    {
        self.feature = feature;
        self.count = 0;
        self.notes.clear();
    }

    /// Notes the rings of the next feature, and answers what else its fields say.
    ///
    /// # Errors
    ///
    /// As [`draw_feature`].
    pub(crate) fn add_feature(
        &mut self,
        alloc: Global,
        payload: &[u8],
        payload_at: u64,
        keys: &mut LayerKeys<'_>,
        values: usize,
        scratch: &mut Scratch,
    ) -> Result<FeatureFields, MessageError>
        requires { payload_at + length payload.now < 2 ^ 64 }
        ensures feature { (layer feature : ℕ) → HasBegun layer feature self.old
            → IfOk result (λ known. (held : List Value) → length held ≡ values
            → IsDrawnOf payload.now keys.old held (tags_of scratch.new)
            (λ g. HasNotedAll layer feature g self.new) known) }
        ensures ok { OnOk result ((held : List Value) → length held ≡ values
            → feature_fault payload.now payload_at keys.old held ≡ None) }
        ensures err { IfErr result (λ error. (held : List Value) → length held ≡ values
            → Reports (fault_of error) (feature_fault payload.now payload_at keys.old held)) }
        ensures same { keys.new ≡ keys.old }
    {
        let feature = self.feature;
        match draw_usual_feature(alloc, self, payload, payload_at, keys, values, scratch)? {
            Some(known) => Ok(known),
            None => {
                self.begin(feature);
                let known = draw_feature(alloc, self, payload, payload_at, keys, values, scratch)?;
                Ok(known)
            }
        }
    }

    /// Notes the next ring. More than can be counted don't fit into any memory.
    fn add(&mut self, ring: Ring) -> Result<(), AllocError>
        ensures { (points : List APoint) → ring.twice_area ≡ area2 points
            → ring.is_closed ≡ is_closed points
            → OnOk result (HasNotedRing points self.old self.new) }
    {
        note_known_ring(
            &mut self.notes,
            self.layer,
            self.feature,
            self.count,
            ring.twice_area,
            ring.is_closed,
        )?;
        self.count = self.count.checked_add(1).ok_or(AllocError)?;
        Ok(())
    }
}

impl GeometryVisitor for RingNotes {
    ghost use Rattle.std.specs.Prelude.{◌≡◌};
    ghost use Rattle.mvt_tile_value.specs.Rings.{HaveNoted};
    ghost use Rattle.std.proofs.Common.{refl, sym, add-zero, append-nil};

    ghost has_parts = { λ start parts begun now. HaveNoted start parts now };

    ghost has_integers = { λ start integers now. now ≡ start };

    ghost begins = { λ start. record {
      layer_is = refl;
      feature_is = refl;
      count_is = sym (add-zero start.count);
      notes_are = sym (append-nil start.notes.items);
    } };

    #[inline(always)]
    fn visit_point(&mut self, _: Point) -> Result<(), AllocError> {
        Ok(())
    }

    fn end_part(&mut self, _: usize, ring: Option<Ring>) -> Result<(), AllocError> {
        match ring {
            Some(ring) => self.add(ring),
            None => Ok(()),
        }
    }

    fn visit_integers(&mut self, _: &[u32]) -> Result<(), AllocError> {
        Ok(())
    }
}
