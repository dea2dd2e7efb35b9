//! Features (Mapbox Vector Tile Specification 2.1, 4.2).
ghost use Rattle.std.specs.Prelude.{◌≡◌, ◌+◌, ◌^◌, ◌<◌, ℕ, List, length, None, IfOk, IfErr, OnOk};
ghost use Rattle.mvt_base.specs.Reports.{Reports};
ghost use Rattle.mvt_attrs.specs.Values.{Value as AValue};
ghost use Rattle.mvt_attrs.specs.Tags.{Names};
ghost use Rattle.mvt_attrs.specs.Using.{HasUses};
ghost use Rattle.mvt_feature.specs.declared.feature.Feature.{Feature as AFeature};
ghost use Rattle.mvt_feature.specs.Faults.{fault_of};
ghost use Rattle.mvt_feature.specs.Features.{IsFeatureOf};
ghost use Rattle.mvt_feature.specs.FeatureRules.{feature_fault};
ghost use Rattle.mvt_feature.specs.Rewriting.{IsRewritten};
ghost use Rattle.mvt_geometry.specs.Drawing.{Draws};

use mvt_attrs::{LayerEntries, Value};
use mvt_base::Text;
use mvt_feature::{Feature, MessageError, Scratch};
use mvt_geometry::Kind;
use mvt_wire::PackedNumbers;
use std::alloc::{AllocError, Global};

/// Of a field that stands several times the last counts; packed integers in several fields are
/// joined, and are no fault.
///
/// # Errors
///
/// The first rule that the payload breaks. When memory runs out.
pub fn read_feature(
    alloc: Global,
    payload: &[u8],
    payload_at: u64,
    keys: &[Text],
    values: &[Value],
) -> Result<Feature, MessageError>
    requires { payload_at + length payload.now < 2 ^ 64 }
    ensures feature { IfOk result (IsFeatureOf payload.now keys.now values.now) }
    ensures ok { OnOk result (feature_fault payload.now payload_at keys.now values.now ≡ None) }
    ensures err { IfErr result (λ error. Reports (fault_of error)
        (feature_fault payload.now payload_at keys.now values.now)) }
{
    mvt_feature::read_feature(alloc, payload, payload_at, keys, values)
}

/// A canonical payload has the type, also where it is unknown.
///
/// # Errors
///
/// When memory runs out.
pub fn append_drawn_feature(
    id: Option<u64>,
    tags: &[u32],
    kind: Kind,
    integers: &PackedNumbers,
    uses: &mut LayerEntries<'_>,
    scratch: &mut Scratch,
    out: &mut Vec<u8>,
) -> Result<(), AllocError>
    ensures { (keys : List (List ℕ)) (held : List AValue) (f : AFeature)
        → HasUses uses.old keys held → f.id ≡ id → Draws kind integers.now f.geometry
        → Names keys held tags.now f.attributes
        → OnOk result (IsRewritten f uses.old uses.new out.old.items out.new.items) }
{
    mvt_feature::append_drawn_feature(id, tags, kind, integers, uses, scratch, out)
}
