//! What is found of a feature's geometry, while it is told.
ghost use Rattle.std.specs.Prelude.{◌≡◌, ◌+◌, ◌^◌, ◌<◌, ℕ, List, length, None, IfOk, IfErr, OnOk};
ghost use Rattle.mvt_base.specs.Reports.{Reports};
ghost use Rattle.mvt_attrs.specs.Values.{Value};
ghost use Rattle.mvt_feature.specs.Drawn.{IsDrawnOf, tags_of};
ghost use Rattle.mvt_feature.specs.Faults.{fault_of};
ghost use Rattle.mvt_feature.specs.FeatureRules.{feature_fault};
ghost use Rattle.mvt_tile_value.specs.Linting.{HasFound, HasNothing};

use crate::finding::Finding;
use crate::linting::{is_far_point, unknown_finding};
use mvt_attrs::LayerKeys;
use mvt_feature::{FeatureFields, MessageError, Scratch, draw_feature, draw_usual_feature};
use mvt_geometry::{GeometryVisitor, Point, Ring};
use std::alloc::{AllocError, Global};

/// What is found of a feature's geometry: that its type is unknown, or its first position that
/// leaves 16 bits.
#[derive(Drop)]
pub(crate) struct GeometryFinding {
    layer: usize,
    extent: u32,
    feature: usize,
    pub(crate) found: Option<Finding>,
}

impl GeometryFinding {
    /// Of a feature of a layer of this extent.
    pub(crate) fn new(layer: usize, extent: u32, feature: usize) -> Self
        ensures { HasNothing layer extent feature result }
    {
        GeometryFinding {
            layer,
            extent,
            feature,
            found: None,
        }
    }

    /// Begins another feature of the layer.
    pub(crate) fn begin(&mut self, feature: usize)
        ensures { HasNothing self.old.layer self.old.extent feature self.new }
    {
        self.feature = feature;
        self.found = None;
    }

    /// Finds what there is of the geometry of the next feature, and answers what else its fields
    /// say. The tags are left in the scratch.
    ///
    /// # Errors
    ///
    /// As [`draw_feature`].
    pub(crate) fn add_feature(
        &mut self,
        alloc: Global,
        payload: &[u8],
        payload_at: u64,
        keys: &mut LayerKeys<'_>,
        values: usize,
        scratch: &mut Scratch,
    ) -> Result<FeatureFields, MessageError>
        requires { payload_at + length payload.now < 2 ^ 64 }
        ensures feature { (layer extent feature : ℕ) → HasNothing layer extent feature self.old
            → IfOk result (λ known. (held : List Value) → length held ≡ values
            → IsDrawnOf payload.now keys.old held (tags_of scratch.new)
            (λ g. HasFound layer extent feature g self.new) known) }
        ensures ok { OnOk result ((held : List Value) → length held ≡ values
            → feature_fault payload.now payload_at keys.old held ≡ None) }
        ensures err { IfErr result (λ error. (held : List Value) → length held ≡ values
            → Reports (fault_of error) (feature_fault payload.now payload_at keys.old held)) }
        ensures same { keys.new ≡ keys.old }
    {
        let feature = self.feature;
        match draw_usual_feature(alloc, self, payload, payload_at, keys, values, scratch)? {
            Some(known) => Ok(known),
            None => {
                self.begin(feature);
                let known = draw_feature(alloc, self, payload, payload_at, keys, values, scratch)?;
                Ok(known)
            }
        }
    }
}

impl GeometryVisitor for GeometryFinding {
    ghost use Rattle.std.specs.Prelude.{◌≡◌};
    ghost use Rattle.std.proofs.Common.{refl, sym};
    ghost use Rattle.mvt_base.proofs.RuleLemmas.{option_or-right};
    ghost use Rattle.mvt_tile_value.specs.Linting.{HasLooked, HasSeen};

    ghost has_parts = { λ start parts begun now. HasLooked start parts begun now };

    ghost has_integers = { λ start integers now. HasSeen start integers now };

    ghost begins = { λ start. record {
      layer_is = refl;
      extent_is = refl;
      feature_is = refl;
      found_is = sym (option_or-right start.found);
    } };

    #[inline(always)]
    fn visit_point(&mut self, point: Point) -> Result<(), AllocError> {
        if self.found.is_none() && is_far_point(self.extent, point) {
            self.found = Some(Finding::FarPoint(self.layer, self.feature, point.x, point.y));
        }
        Ok(())
    }

    #[inline(always)]
    fn end_part(&mut self, _: usize, _: Option<Ring>) -> Result<(), AllocError> {
        Ok(())
    }

    fn visit_integers(&mut self, integers: &[u32]) -> Result<(), AllocError> {
        self.found = Some(unknown_finding(self.layer, self.feature, integers));
        Ok(())
    }
}
