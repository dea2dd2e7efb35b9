//! What is found of a layer while it is judged, one feature after the other.
ghost use Rattle.std.specs.Prelude.{◌≡◌, ◌∷◌, ◌++◌, ℕ, List, [], length, IfOk, OnOk};
ghost use Rattle.mvt_feature.specs.declared.feature.Feature.{Feature as AFeature};
ghost use Rattle.mvt_tile_value.specs.Findings.{AreNoted, AreNotedSoFar};
ghost use Rattle.mvt_tile_value.specs.Notes.{layer_notes};
ghost use Rattle.mvt_tile_value.specs.Rings.{HasNotedAll};

use crate::first_ids::FirstIds;
use crate::note::Note;
use crate::noting::{note_id, note_if};
use crate::ring_noting::RingNotes;
use mvt_attrs::LayerKeys;
use mvt_feature::{Feature, Scratch, judge_value};
use mvt_geometry::{GeometryVisitor, Point, Ring, tell_geometry};
use mvt_message::{FeatureFields, FeatureVisitor, LayerVisitor, MessageError};
use std::alloc::{AllocError, Global};

/// The notes of the features of a layer.
#[derive(Drop)]
pub(crate) struct LayerNotes {
    /// The index of the layer.
    layer: usize,
    /// How many features there are.
    pub(crate) count: usize,
    /// The first feature of each id.
    ids: FirstIds,
    /// The notes of the rings of the next feature.
    rings: RingNotes,
    pub(crate) notes: Vec<Note>,
}

impl LayerNotes {
    /// For no features yet. Takes no memory.
    pub(crate) fn new(alloc: Global, layer: usize) -> Self
        ensures { AreNotedSoFar layer result [] }
    {
        LayerNotes {
            layer,
            count: 0,
            ids: FirstIds::new(alloc),
            rings: RingNotes::new(alloc, layer),
            notes: Vec::new(alloc),
        }
    }

    /// Adds the next feature, which may have an id and whose rings were noted.
    fn add(&mut self, id: Option<u64>) -> Result<(), AllocError>
        ensures { (layer : ℕ) (features : List AFeature) (f : AFeature)
            → AreNoted layer self.old features
            → HasNotedAll layer (length features) f.geometry self.old.rings → f.id ≡ id
            → OnOk result (AreNotedSoFar layer self.new (features ++ f ∷ [])) }
    {
        note_id(&mut self.notes, &mut self.ids, self.layer, self.count, id)?;
        self.notes.extend_from_slice(&self.rings.notes)?;
        self.count = self.count.checked_add(1).ok_or(AllocError)?;
        self.rings.begin(self.count);
        Ok(())
    }

    /// Adds the next feature, which is a value.
    fn add_value(&mut self, feature: &Feature) -> Result<(), AllocError>
        ensures { (layer : ℕ) (features : List AFeature) → AreNotedSoFar layer self.old features
            → OnOk result (AreNotedSoFar layer self.new (features ++ feature.now ∷ [])) }
    {
        tell_geometry(&mut self.rings, &feature.geometry)?;
        self.add(feature.id)
    }

    /// Appends the notes of the layer, which has this index, and of its features.
    pub(crate) fn append_to(&self, layer: usize, notes: &mut Vec<Note>) -> Result<(), AllocError>
        ensures { (features : List AFeature) → AreNotedSoFar layer self.now features
            → OnOk result (notes.new.items ≡ notes.old.items ++ layer_notes layer features) }
    {
        note_if(notes, self.count == 0, Note::NoFeatures(layer))?;
        notes.extend_from_slice(&self.notes)?;
        Ok(())
    }
}

/// The notes of a layer's features, which are values.
pub(crate) fn noted_features(
    alloc: Global,
    layer: usize,
    features: &[Feature],
) -> Result<LayerNotes, AllocError>
    ensures { IfOk result (λ noted. AreNotedSoFar layer noted features.now) }
{
    let mut noted = LayerNotes::new(alloc, layer);
    for feature in features {
        noted.add_value(feature)?;
    }
    Ok(noted)
}

/// Of a layer that is judged alone.
impl<'a> LayerVisitor<'a> for LayerNotes {
    ghost use Rattle.std.specs.Prelude.{List, [], length};
    ghost use Rattle.mvt_message.specs.declared.item.Item.{Item};
    ghost use Rattle.mvt_tile_value.specs.Findings.{AreNotedSoFar};

    ghost Given = { List Item };

    ghost has_given = { λ items noted. AreNotedSoFar (length items) noted [] };

    ghost has_values = { λ items noted _. AreNotedSoFar (length items) noted [] };

    ghost has_features = { λ items _ _ noted _ features.
        AreNotedSoFar (length items) noted features };

    fn visit_value(
        &mut self,
        _: Global,
        payload: &'a [u8],
        payload_at: u64,
        tag_at: u64,
    ) -> Result<(), MessageError> {
        judge_value(payload, payload_at, tag_at)
    }

    fn visit_keys(&mut self, _: Global, _: &[&'a str], _: usize) -> Result<(), AllocError> {
        Ok(())
    }

    fn visit_feature(
        &mut self,
        alloc: Global,
        payload: &[u8],
        payload_at: u64,
        keys: &mut LayerKeys<'_>,
        values: usize,
        scratch: &mut Scratch,
    ) -> Result<(), MessageError> {
        let rings = &mut self.rings;
        let known = rings.add_feature(alloc, payload, payload_at, keys, values, scratch)?;
        Ok(self.add(known.id)?)
    }
}

/// The rings of the next feature are noted as they come.
impl GeometryVisitor for LayerNotes {
    ghost use Rattle.std.specs.Prelude.{◌≡◌};
    ghost use Rattle.std.proofs.Common.{refl, sym, add-zero, append-nil};
    ghost use Rattle.mvt_tile_value.specs.Findings.{HaveNotedLayerParts};

    ghost has_parts = { HaveNotedLayerParts };

    ghost has_integers = { λ start integers now. now ≡ start };

    ghost begins = { λ start. (
      record {
        layer_is = refl;
        count_is = refl;
        ids_are = refl;
        notes_are = refl;
      },
      record {
        layer_is = refl;
        feature_is = refl;
        count_is = sym (add-zero start.rings.count);
        notes_are = sym (append-nil start.rings.notes.items);
      },
    ) };

    #[inline(always)]
    fn visit_point(&mut self, point: Point) -> Result<(), AllocError> {
        self.rings.visit_point(point)
    }

    #[inline(always)]
    fn end_part(&mut self, points: usize, ring: Option<Ring>) -> Result<(), AllocError> {
        self.rings.end_part(points, ring)
    }

    fn visit_integers(&mut self, _: &[u32]) -> Result<(), AllocError> {
        Ok(())
    }
}

/// Of a layer that is canonical, or is made so.
impl FeatureVisitor for LayerNotes {
    ghost use Rattle.std.specs.Prelude.{length};
    ghost use Rattle.mvt_tile_value.specs.Findings.{AreNotedSoFar};

    ghost has_features = { λ items noted features. AreNotedSoFar (length items) noted features };

    fn begin_feature(&mut self) {
        let feature = self.count;
        self.rings.begin(feature);
    }

    fn end_feature(&mut self, _: Global, known: &FeatureFields) -> Result<(), AllocError> {
        self.add(known.id)
    }
}
