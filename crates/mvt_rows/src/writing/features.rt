//! What the rows of features say.
ghost use Rattle.std.specs.Prelude.{◌≡◌, ◌<◌, ◌^◌, List, Some, None, length, IfOk, IfErr, IfSome, OnOk, if◌then◌else◌};
ghost use Rattle.mvt_attrs.specs.Values.{Value as AValue};
ghost use Rattle.mvt_rows.specs.Lent.{table_of};
ghost use Rattle.mvt_rows.specs.RowsFaults.{feature_cause};
ghost use Rattle.mvt_rows.specs.TileRows.{id_of};
ghost use Rattle.mvt_rows.specs.Writing.{AreFeatureParts};
ghost use Rattle.mvt_rows.specs.Written.{IsWrongAs};

use super::geometries::append_row_geometry;
use super::parts::part;
use super::values::truth;
use crate::rows::{FeatureRow, Rows};
use crate::rows_cause::RowsCause;
use crate::rows_error::{RowError, if_any};
use crate::undrawn::Undrawn;
use crate::work::Work;
use mvt_attrs::{LayerKeys, judge_tags};
use mvt_geometry::Kind;
use mvt_wire::PackedNumbers;
use std::alloc::Global;

/// What the row of a feature says: its tags name attributes.
#[derive(Drop)]
pub(crate) struct FeatureParts<'a> {
    pub(crate) id: Option<u64>,
    pub(crate) tags: &'a [u32],
    /// The type of its geometry, or why no integers draw that.
    pub(crate) kind: Result<Kind, Undrawn>,
}

/// What the row of a feature says, in a layer with these keys and this number of values. The
/// integers become those that draw its geometry, where there are any.
pub(crate) fn feature_parts<'a>(
    alloc: Global,
    rows: &Rows<'a>,
    keys: &mut LayerKeys<'_>,
    values: usize,
    row: &FeatureRow,
    work: &mut Work,
    integers: &mut PackedNumbers,
) -> Result<FeatureParts<'a>, RowError>
    ensures parts { (held : List AValue) → length held ≡ values
        → IfOk result (AreFeatureParts (table_of rows.now) keys.old held row.now integers.new) }
    ensures clean { (held : List AValue) → length held ≡ values
        → OnOk result (feature_cause (table_of rows.now) keys.old held row.now ≡ None) }
    ensures wrong { (held : List AValue) → length held ≡ values
        → IfErr result (IsWrongAs (feature_cause (table_of rows.now) keys.old held row.now)) }
    ensures same { keys.new ≡ keys.old }
{
    let Some(id) = id(row) else {
        return Err(RowError::Wrong(None, RowsCause::HasId));
    };
    let Some(tags) = if_any(part(rows.tags, row.tags, work))? else {
        return Err(RowError::Wrong(None, RowsCause::TagsSpan));
    };
    judge_tags(alloc, keys, values, tags)?;
    if row.kind > 3 {
        return Err(RowError::Wrong(None, RowsCause::Kind));
    }
    let Some(kind) = if_any(append_row_geometry(rows, row, work, integers))? else {
        return Err(RowError::Wrong(None, RowsCause::Geometry));
    };
    Ok(FeatureParts { id, tags, kind })
}

fn id(row: &FeatureRow) -> Option<Option<u64>>
    ensures id { result ≡ id_of row.now }
    ensures fits { IfSome result (λ id. IfSome id (λ n. n < 2 ^ 64)) }
{
    match truth(u64::from(row.has_id)) {
        Some(has_id) => Some(id_if(has_id, row.id)),
        None => None,
    }
}

fn id_if(has_id: bool, id: u64) -> Option<u64>
    ensures id { result ≡ (if has_id then Some id else None) }
    ensures fits { IfSome result (λ n. n < 2 ^ 64) }
{
    if has_id { Some(id) } else { None }
}
