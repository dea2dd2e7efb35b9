//! Features made canonical from their payloads, with tags by index (Mapbox Vector Tile
//! Specification 2.1, 4.2).
ghost use Rattle.std.specs.Prelude.{◌≡◌, ◌⊎◌, ℕ, ◌+◌, ◌^◌, ◌<◌, [], ◌∷◌, ◌++◌, List, length, None, IfOk, IfErr, IfNone, IfSome, IsErrOf, IsTrue, OnErr, OnOk};
ghost use Rattle.mvt_base.specs.Related.{Extends};
ghost use Rattle.mvt_base.specs.Reports.{Reports};
ghost use Rattle.mvt_attrs.specs.Values.{Value};
ghost use Rattle.mvt_attrs.specs.declared.value.Attribute.{Attribute};
ghost use Rattle.mvt_attrs.specs.TagPlaces.{tags_in};
ghost use Rattle.mvt_attrs.specs.Tags.{Names, Resolved};
ghost use Rattle.mvt_attrs.specs.Using.{AreSameUses, HasUses, IsUsedBy, used_of};
ghost use Rattle.mvt_wire.specs.Field.{bytes};
ghost use Rattle.mvt_wire.specs.Spelling.{short_numbers, spelled};
ghost use Rattle.mvt_feature.specs.declared.numbers.feature.TheConstants.{GEOMETRY};
ghost use Rattle.mvt_feature.specs.declared.feature.Feature.{Feature};
ghost use Rattle.mvt_geometry.specs.declared.shape.Point.{Point as APoint};
ghost use Rattle.mvt_geometry.specs.Drawing.{Draws};
ghost use Rattle.mvt_geometry.specs.Shape.{kind_of};
ghost use Rattle.mvt_geometry.specs.Visiting.{HasDrawn, Part};
ghost use Rattle.mvt_feature.specs.Canonical.{plain, id_fields, tags_fields, type_fields, drawing_fields};
ghost use Rattle.mvt_feature.specs.Drawn.{integers_of};
ghost use Rattle.mvt_feature.specs.Faults.{fault_of};
ghost use Rattle.mvt_feature.specs.Features.{IsFeatureOf};
ghost use Rattle.mvt_feature.specs.FeatureRules.{feature_fault};
ghost use Rattle.mvt_feature.specs.Inner.{AreOf};
ghost use Rattle.mvt_feature.specs.Listing.{ListsNumbers};
ghost use Rattle.mvt_feature.specs.Rewriting.{IsRewritten};

use crate::canonical_feature::Parts;
use crate::feature_fields::FeatureFields;
use crate::message_error::MessageError;
use crate::numbers::feature;
use crate::parts::parts_in_any_order;
use crate::reading::judge_into_scratch;
use crate::scratch::Scratch;
use crate::writing::{append_front, append_packed, append_parts};
use mvt_attrs::{LayerEntries, LayerKeys};
use mvt_geometry::{GeometryVisitor, Kind, draw_packed};
use mvt_wire::{are_short, put_packed};
use std::alloc::{AllocError, Global};

/// Judges the payload of a feature whose fields stand once each, and whose tags and integers are
/// packed, and appends the canonical one, in a layer with these keys and the values of these uses.
/// A tag becomes the index of its key or value among those that are used, and the integers are
/// copied. The geometry is passed to a visitor on the way.
///
/// `None` if its fields are others, if an integer has a shorter spelling, if the type is unknown,
/// or if a rule seems to be broken: then the visitor may have received some parts, the same entries
/// are used as before, and [`rewrite_feature`] does it or says what is wrong.
///
/// # Errors
///
/// When memory runs out; the list is then unchanged or longer.
pub fn rewrite_usual_feature<V: GeometryVisitor>(
    alloc: Global,
    visitor: &mut V,
    payload: &[u8],
    keys: &mut LayerKeys<'_>,
    uses: &mut LayerEntries<'_>,
    out: &mut Vec<u8>,
) -> Result<Option<FeatureFields>, AllocError>
    ensures feature { (held : List Value) → HasUses uses.old keys.old held
        → IfOk result (λ found. IfSome found (λ fields. (f : Feature)
        × IsFeatureOf payload.now keys.old held f
        × IsRewritten f uses.old uses.new out.old.items out.new.items × (f.id ≡ fields.id)
        × (fields.kind ≡ kind_of f.geometry)
        × HasDrawn V.has_parts V.has_integers visitor.old visitor.new f.geometry)) }
    ensures uses { (held : List Value) → HasUses uses.old keys.old held
        → OnOk result (HasUses uses.new keys.old held) }
    ensures unused { (held : List Value) → HasUses uses.old keys.old held
        → IfOk result (λ found. IfNone found (AreSameUses uses.old uses.new)) }
    ensures unwritten { IfOk result (λ found. IfNone found (out.new ≡ out.old)) }
    ensures told { IfOk result (λ found. IfNone found ((parts : List Part)
        × (begun : List APoint) × V.has_parts visitor.old parts begun visitor.new)) }
    ensures memory { OnErr result ((payload_at : ℕ) → ListsNumbers payload.now payload_at) }
    ensures left { OnErr result (Extends out.old.items out.new.items) }
    ensures same { keys.new ≡ keys.old }
{
    let Some(parts) = parts_in_any_order(payload) else {
        return Ok(None);
    };
    if !draw_packed(visitor, parts.kind, parts.integers)? {
        return Ok(None);
    }
    if !are_short(parts.integers) {
        return Ok(None);
    }
    let Some(is_same) = uses.use_packed(alloc, keys, parts.tags)? else {
        return Ok(None);
    };
    append_usual(out, &parts, &uses.tags, is_same)?;
    Ok(Some(FeatureFields {
        id: parts.id,
        kind: parts.kind,
    }))
}

/// Appends the canonical payload of a feature of these parts, but with these tags. Where `is_same`
/// says so, they are copied.
fn append_usual(
    out: &mut Vec<u8>,
    parts: &Parts<'_>,
    tags: &[u32],
    is_same: bool,
) -> Result<(), AllocError>
    ensures ok { (IsTrue is_same → parts.now.tags.now ≡ short_numbers tags.now)
        → OnOk result (out.new.items ≡ out.old.items
        ++ spelled (id_fields parts.now.id ++ (tags_fields tags.now
        ++ (type_fields parts.now.kind ++ plain GEOMETRY (bytes parts.now.integers.now) ∷ [])))) }
    ensures left { OnErr result (Extends out.old.items out.new.items) }
{
    if is_same {
        append_parts(out, parts)
    } else {
        append_packed(out, parts.id, tags, parts.kind, parts.integers)
    }
}

/// Writes the tags that those of the scratch become, and marks what they name as used.
fn use_tags(uses: &mut LayerEntries<'_>, scratch: &mut Scratch) -> Result<(), AllocError>
    ensures uses { (keys : List (List ℕ)) (held : List Value) (attributes : List Attribute)
        → HasUses uses.old keys held → Names keys held scratch.old.tags.items attributes
        → OnOk result (HasUses uses.new keys held) }
    ensures used { (keys : List (List ℕ)) (held : List Value) (attributes : List Attribute)
        → HasUses uses.old keys held → Names keys held scratch.old.tags.items attributes
        → OnOk result (IsUsedBy attributes uses.old uses.new) }
    ensures tags { (keys : List (List ℕ)) (held : List Value) (attributes : List Attribute)
        → HasUses uses.old keys held → Names keys held scratch.old.tags.items attributes
        → OnOk result (scratch.new.written_tags.items
        ≡ tags_in (used_of uses.new.keys) (used_of uses.new.values) attributes) }
    ensures integers { scratch.new.integers.items ≡ scratch.old.integers.items }
{
    scratch.written_tags.clear();
    scratch.written_tags.reserve(scratch.tags.len())?;
    uses.append_used(&scratch.tags, &mut scratch.written_tags)
}

/// Judges the payload of a feature, and appends the canonical one, in a layer with these keys and
/// the values of these uses. A tag becomes the index of its key or value among those that are used,
/// and the integers stay, in the scratch too.
///
/// # Errors
///
/// As `read_feature`, and the list is then unchanged or longer.
pub fn rewrite_feature(
    alloc: Global,
    payload: &[u8],
    payload_at: u64,
    keys: &mut LayerKeys<'_>,
    uses: &mut LayerEntries<'_>,
    scratch: &mut Scratch,
    out: &mut Vec<u8>,
) -> Result<FeatureFields, MessageError>
    requires { payload_at + length payload.now < 2 ^ 64 }
    ensures ok { (held : List Value) → HasUses uses.old keys.old held
        → OnOk result (feature_fault payload.now payload_at keys.old held ≡ None) }
    ensures feature { (held : List Value) → HasUses uses.old keys.old held
        → IfOk result (λ fields. (f : Feature) × IsFeatureOf payload.now keys.old held f
        × IsRewritten f uses.old uses.new out.old.items out.new.items × (f.id ≡ fields.id)
        × Draws fields.kind (integers_of scratch.new) f.geometry) }
    ensures uses { (held : List Value) → HasUses uses.old keys.old held
        → OnOk result (HasUses uses.new keys.old held) }
    ensures err { (held : List Value) → HasUses uses.old keys.old held
        → IfErr result (λ error. Reports (fault_of error)
        (feature_fault payload.now payload_at keys.old held)) }
    ensures memory { IsErrOf result MessageError.Memory → ListsNumbers payload.now payload_at
        ⊎ ((held : List Value) → HasUses uses.old keys.old held
        → feature_fault payload.now payload_at keys.old held ≡ None) }
    ensures left { OnErr result (Extends out.old.items out.new.items) }
    ensures same { keys.new ≡ keys.old }
{
    let values = uses.values.len();
    let known = judge_into_scratch(alloc, payload, payload_at, keys, values, scratch)?;
    append_judged(&known, uses, scratch, out)?;
    Ok(known)
}

/// Appends the canonical payload of the feature that a payload was judged to be, of which the
/// scratch has the tags and the integers.
fn append_judged(
    known: &FeatureFields,
    uses: &mut LayerEntries<'_>,
    scratch: &mut Scratch,
    out: &mut Vec<u8>,
) -> Result<(), AllocError>
    ensures rewritten { (keys : List (List ℕ)) (held : List Value) (f : Feature)
        → HasUses uses.old keys held → AreOf keys held known.now scratch.old f
        → OnOk result (IsRewritten f uses.old uses.new out.old.items out.new.items) }
    ensures uses { (keys : List (List ℕ)) (held : List Value) (f : Feature)
        → HasUses uses.old keys held → AreOf keys held known.now scratch.old f
        → OnOk result (HasUses uses.new keys held) }
    ensures integers { scratch.new.integers.items ≡ scratch.old.integers.items }
    ensures left { OnErr result (Extends out.old.items out.new.items) }
{
    use_tags(uses, scratch)?;
    append_spelled(
        out,
        known.id,
        &scratch.written_tags,
        known.kind,
        &scratch.integers,
    )
}

/// Appends the fields of a feature with this id, these tags and this type, and these integers.
fn append_spelled(
    out: &mut Vec<u8>,
    id: Option<u64>,
    tags: &[u32],
    kind: Kind,
    integers: &[u32],
) -> Result<(), AllocError>
    ensures ok { OnOk result (out.new.items ≡ out.old.items
        ++ spelled (id_fields id ++ (tags_fields tags.now ++ drawing_fields kind integers.now))) }
    ensures left { OnErr result (Extends out.old.items out.new.items) }
{
    append_front(out, id, tags, kind)?;
    put_packed(out, feature::GEOMETRY, integers)
}
