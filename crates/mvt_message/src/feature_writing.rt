//! A feature made canonical from its payload, and passed to a visitor (Mapbox Vector Tile
//! Specification 2.1, 4.2).
ghost use Rattle.std.specs.Prelude.{◌≡◌, ℕ, ◌+◌, ◌^◌, ◌<◌, [], ◌∷◌, ◌++◌, List, length, None, IfOk, IfErr, OnOk};
ghost use Rattle.mvt_base.specs.Reports.{Reports};
ghost use Rattle.mvt_attrs.specs.Values.{Value};
ghost use Rattle.mvt_attrs.specs.Using.{HasUses};
ghost use Rattle.mvt_geometry.specs.declared.shape.Geometry.{Geometry};
ghost use Rattle.mvt_geometry.specs.Drawing.{Draws};
ghost use Rattle.mvt_geometry.specs.Shape.{kind_of};
ghost use Rattle.mvt_geometry.specs.Visiting.{HasDrawn};
ghost use Rattle.mvt_feature.specs.declared.feature.Feature.{Feature};
ghost use Rattle.mvt_feature.specs.Faults.{fault_of};
ghost use Rattle.mvt_feature.specs.FeatureRules.{feature_fault};
ghost use Rattle.mvt_feature.specs.Features.{IsFeatureOf};
ghost use Rattle.mvt_feature.specs.Rewriting.{IsRewritten};
ghost use Rattle.mvt_message.specs.declared.item.Item.{Item};
ghost use Rattle.mvt_message.specs.Rewriting.{HasWritten};

use crate::feature_visitor::FeatureVisitor;
use crate::layer_writer::LayerWriter;
use crate::numbers::layer;
use mvt_attrs::{LayerEntries, LayerKeys};
use mvt_feature::{FeatureFields, MessageError, Scratch, rewrite_feature, rewrite_usual_feature};
use mvt_geometry::{GeometryVisitor, Kind, draw_geometry};
use mvt_wire::{Payload, put_field};
use std::alloc::{AllocError, Global};

impl LayerWriter<'_> {
    /// Adds the feature of a payload, in a layer with these keys, and passes it to a visitor.
    ///
    /// # Errors
    ///
    /// As [`read_feature`](crate::read_feature).
    pub(crate) fn write_feature<V: FeatureVisitor>(
        &mut self,
        alloc: Global,
        visitor: &mut V,
        payload: &[u8],
        payload_at: u64,
        keys: &mut LayerKeys<'_>,
        scratch: &mut Scratch,
    ) -> Result<(), MessageError>
        requires { payload_at + length payload.now < 2 ^ 64 }
        ensures ok { (held : List Value) → HasUses self.old.uses keys.old held
            → OnOk result (feature_fault payload.now payload_at keys.old held ≡ None) }
        ensures feature { (items : List Item) (held : List Value) (features : List Feature)
            → V.has_features items visitor.old features
            → HasWritten keys.old held self.old features
            → OnOk result ((f : Feature) × IsFeatureOf payload.now keys.old held f
            × HasWritten keys.old held self.new (features ++ f ∷ [])
            × V.has_features items visitor.new (features ++ f ∷ [])) }
        ensures err { (held : List Value) → HasUses self.old.uses keys.old held
            → IfErr result (λ error. Reports (fault_of error)
            (feature_fault payload.now payload_at keys.old held)) }
        ensures same { keys.new ≡ keys.old }
    {
        let LayerWriter {
            uses,
            payload: canonical,
            features,
        } = self;
        canonical.clear();
        let known = rewrite_told(
            alloc, visitor, payload, payload_at, keys, uses, scratch, canonical,
        )?;
        put_field(features, layer::FEATURES, &Payload::Len(canonical))?;
        visitor.end_feature(alloc, &known)?;
        Ok(())
    }
}

/// Appends the canonical payload of the feature of a payload, and passes its geometry to a visitor.
fn rewrite_told<V: FeatureVisitor>(
    alloc: Global,
    visitor: &mut V,
    payload: &[u8],
    payload_at: u64,
    keys: &mut LayerKeys<'_>,
    uses: &mut LayerEntries<'_>,
    scratch: &mut Scratch,
    out: &mut Vec<u8>,
) -> Result<FeatureFields, MessageError>
    requires { payload_at + length payload.now < 2 ^ 64 }
    ensures ok { (held : List Value) → HasUses uses.old keys.old held
        → OnOk result (feature_fault payload.now payload_at keys.old held ≡ None) }
    ensures feature { (items : List Item) (held : List Value) (features : List Feature)
        → V.has_features items visitor.old features → HasUses uses.old keys.old held
        → IfOk result (λ known. (f : Feature) × IsFeatureOf payload.now keys.old held f
        × IsRewritten f uses.old uses.new out.old.items out.new.items × (f.id ≡ known.id)
        × (known.kind ≡ kind_of f.geometry) × ((start : V) × V.has_features items start features
        × HasDrawn V.has_parts V.has_integers start visitor.new f.geometry)) }
    ensures uses { (held : List Value) → HasUses uses.old keys.old held
        → OnOk result (HasUses uses.new keys.old held) }
    ensures err { (held : List Value) → HasUses uses.old keys.old held
        → IfErr result (λ error. Reports (fault_of error)
        (feature_fault payload.now payload_at keys.old held)) }
    ensures same { keys.new ≡ keys.old }
{
    match rewrite_usual_feature(alloc, visitor, payload, keys, uses, out)? {
        Some(known) => Ok(known),
        None => {
            visitor.begin_feature();
            let known = rewrite_feature(alloc, payload, payload_at, keys, uses, scratch, out)?;
            tell_judged(visitor, known.kind, scratch.integers())?;
            Ok(known)
        }
    }
}

/// Passes the geometry that these integers draw, which were judged, to a visitor.
fn tell_judged<V: GeometryVisitor>(
    visitor: &mut V,
    kind: Kind,
    integers: &[u32],
) -> Result<(), AllocError>
    ensures { (g : Geometry) → Draws kind integers.now g
        → OnOk result (HasDrawn V.has_parts V.has_integers visitor.old visitor.new g) }
{
    match draw_geometry(visitor, kind, integers) {
        Ok(()) => Ok(()),
        // The integers were judged, so memory ran out.
        Err(_) => Err(AllocError),
    }
}
