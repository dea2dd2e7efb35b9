//! Rows written as a tile's bytes.
ghost use Rattle.std.specs.Prelude.{◌≡◌, ◌≢◌, ◌⊎◌};
ghost use Rattle.std.specs.Option.{unwrap_or};
ghost use Rattle.mvt_tile_value.specs.declared.tile.Tile.{Tile};
ghost use Rattle.mvt_rows.specs.Lent.{table_of};
ghost use Rattle.mvt_rows.specs.TileRows.{IsTileOf};
ghost use Rattle.mvt_rows.specs.RowsFaults.{AreValid};
ghost use Rattle.mvt_rows.specs.Written.{IsNoTile, IsTooLargeOfRows, IsWritten};
ghost use Rattle.mvt_c.specs.Faults.{IsRowsFault, is_there, point_of as the_point_of, row_of_fault, rule_number as the_rule_number, undrawn_of as the_undrawn_of};

use crate::lent::Bytes;
use mvt_rows::{
    DrawingRule, Rows, RowsCause, RowsError, RowsFault, Undrawn, rows_fault, write_rows,
};
use mvt_tile::Cause;
use std::alloc::Global;

/// The canonical bytes of the tile that rows are, or what is wrong with rows that are no valid tile
/// (`mvt_write`).
#[unsafe(no_mangle)]
pub extern "C" fn mvt_write_told(
    alloc: Global,
    rows: &Rows<'_>,
    out: &mut Bytes,
    fault: &mut RowsFaultRow,
) -> u32
    ensures done { result ≡ 0 → IsWritten (table_of rows.now) out.new.bytes.now }
    ensures too_large { result ≡ 3 → IsTooLargeOfRows (table_of rows.now) }
    ensures no_tile { result ≡ 6 → IsNoTile (table_of rows.now) }
    ensures fault { result ≡ 6 → IsRowsFault (table_of rows.now) fault.new }
    ensures known { (result ≡ 0) ⊎ ((result ≡ 2) ⊎ ((result ≡ 3) ⊎ (result ≡ 6))) }
    ensures out_kept { result ≢ 0 → out.new ≡ out.old }
    ensures fault_kept { result ≢ 6 → fault.new ≡ fault.old }

    // The rows are one tile at most.
    ensures one { (tile other : Tile) → IsTileOf (table_of rows.now) tile
        → IsTileOf (table_of rows.now) other
        → tile ≡ other }
{
    match write_rows(alloc, rows) {
        Ok(bytes) => {
            *out = Bytes {
                bytes: bytes.leak(),
            };
            0
        }
        Err(RowsError::Memory) => 2,
        Err(RowsError::TooLarge) => 3,
        Err(RowsError::NoTile(found)) => {
            *fault = row_of(found);
            6
        }
    }
}

/// What is wrong with rows, and where. Where no feature is to blame, `feature` and `has_feature`
/// are 0; where no rule of a geometry is broken, `rule` and what follows it.
#[repr(C)]
#[derive(Clone, Copy, Debug)]
pub struct RowsFaultRow {
    pub layer: u64,
    pub feature: u64,
    pub has_feature: u32,
    pub cause: u32,
    pub rule: u32,
    pub has_point: u32,
    pub part: u64,
    pub point: u64,
}

/// Whether rows are a valid tile, and else the first thing that is wrong with them
/// (`mvt_judge_rows`).
#[unsafe(no_mangle)]
pub extern "C" fn mvt_judge_rows(alloc: Global, rows: &Rows<'_>, fault: &mut RowsFaultRow) -> u32
    ensures valid { result ≡ 0 → AreValid (table_of rows.now) }
    ensures no_tile { result ≡ 6 → IsRowsFault (table_of rows.now) fault.new }
    ensures known { (result ≡ 0) ⊎ ((result ≡ 2) ⊎ (result ≡ 6)) }
    ensures fault_kept { result ≢ 6 → fault.new ≡ fault.old }
{
    match rows_fault(alloc, rows) {
        Ok(None) => 0,
        Ok(Some(found)) => {
            *fault = row_of(found);
            6
        }
        Err(_) => 2,
    }
}

pub(crate) fn row_of(fault: RowsFault) -> RowsFaultRow
    ensures { result ≡ row_of_fault fault }
{
    let (feature, has_feature) = or_zero(fault.feature);
    let undrawn = undrawn_of(fault.cause);
    let (point, has_point) = or_zero(point_of(undrawn));
    let (rule, part) = match undrawn {
        Some(undrawn) => (rule_number(undrawn.rule), undrawn.part as u64),
        None => (0, 0),
    };
    RowsFaultRow {
        layer: fault.layer as u64,
        feature,
        has_feature,
        cause: fault.cause.number(),
        rule,
        has_point,
        part,
        point,
    }
}

/// An index, and 1 if there is one.
fn or_zero(index: Option<usize>) -> (u64, u32)
    ensures { result ≡ (unwrap_or index 0, is_there index) }
{
    match index {
        Some(index) => (index as u64, 1),
        None => (0, 0),
    }
}

fn undrawn_of(cause: RowsCause) -> Option<Undrawn>
    ensures { result ≡ the_undrawn_of cause }
{
    match cause {
        RowsCause::Drawing(undrawn) => Some(undrawn),
        _ => None,
    }
}

fn point_of(undrawn: Option<Undrawn>) -> Option<usize>
    ensures { result ≡ the_point_of undrawn }
{
    undrawn?.point
}

/// The number of a rule in `mvt.h`.
fn rule_number(rule: DrawingRule) -> u32
    ensures { result ≡ the_rule_number rule }
{
    match rule {
        DrawingRule::Count => Cause::Count.number(),
        DrawingRule::ZeroSegment => Cause::ZeroSegment.number(),
        DrawingRule::CoordinateRange => Cause::CoordinateRange.number(),
        DrawingRule::FirstRing => Cause::FirstRing.number(),
        DrawingRule::EndsEarly => Cause::EndsEarly.number(),
        DrawingRule::ParameterRange => Cause::ParameterRange.number(),
        DrawingRule::ExteriorRing => 27,
        DrawingRule::InteriorRing => 28,
    }
}
