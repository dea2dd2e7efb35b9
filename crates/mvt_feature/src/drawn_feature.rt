//! Features made canonical from their parts, whose geometries are drawn already (Mapbox Vector Tile
//! Specification 2.1, 4.2).
ghost use Rattle.std.specs.Prelude.{◌≡◌, ℕ, List, OnErr, OnOk};
ghost use Rattle.mvt_base.specs.Related.{Extends};
ghost use Rattle.mvt_attrs.specs.Values.{Value};
ghost use Rattle.mvt_attrs.specs.Tags.{Names};
ghost use Rattle.mvt_attrs.specs.Using.{HasUses};
ghost use Rattle.mvt_feature.specs.declared.feature.Feature.{Feature};
ghost use Rattle.mvt_feature.specs.Rewriting.{IsRewritten};
ghost use Rattle.mvt_geometry.specs.Drawing.{Draws};

use crate::scratch::Scratch;
use crate::writing::append_fields;
use mvt_attrs::LayerEntries;
use mvt_geometry::Kind;
use mvt_wire::PackedNumbers;
use std::alloc::AllocError;

/// Appends the canonical payload of the feature that has this id, these tags and the geometry that
/// these integers draw, in a layer of these uses. A tag becomes the index of its key or value among
/// those that are used.
///
/// # Errors
///
/// When memory runs out; the list is then unchanged or longer.
pub fn append_drawn_feature(
    id: Option<u64>,
    tags: &[u32],
    kind: Kind,
    integers: &PackedNumbers,
    uses: &mut LayerEntries<'_>,
    scratch: &mut Scratch,
    out: &mut Vec<u8>,
) -> Result<(), AllocError>
    ensures feature { (keys : List (List ℕ)) (held : List Value) (f : Feature)
        → HasUses uses.old keys held → f.id ≡ id → Draws kind integers.now f.geometry
        → Names keys held tags.now f.attributes
        → OnOk result (IsRewritten f uses.old uses.new out.old.items out.new.items) }
    ensures uses { (keys : List (List ℕ)) (held : List Value) (f : Feature)
        → HasUses uses.old keys held → Names keys held tags.now f.attributes
        → OnOk result (HasUses uses.new keys held) }
    ensures left { OnErr result (Extends out.old.items out.new.items) }
{
    scratch.written_tags.clear();
    uses.append_used(tags, &mut scratch.written_tags)?;
    append_fields(out, id, &scratch.written_tags, kind, integers)
}
