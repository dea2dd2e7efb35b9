//! A tile mended, and what is changed of it, as rows.
ghost use Rattle.std.specs.Prelude.{◌≡◌, ◌≢◌, ◌≤◌, map, IfOk, IfErr, IsSome, OnOk};
ghost use Rattle.mvt_c.specs.Calls.{IsReported};
ghost use Rattle.mvt_c.specs.Mending.{IsMendedTo, NotMended, change_at, change_of_row, row_of_change, row_of_unmended, unmended_of_row, unplaced, why_after};
ghost use Rattle.mvt_mend.specs.declared.change.Change.{Change as AChange};
ghost use Rattle.mvt_mend.specs.declared.change.Unmended.{Unmended as AnUnmended};
ghost use Rattle.mvt_mend.specs.Tiles.{cause_in, mended as the_mended};
ghost use Rattle.mvt_rows.specs.Reading.{IsTooLarge};
ghost use Rattle.mvt_tile.specs.TileRules.{fault_within};

use crate::fault::Fault;
use crate::refusal::{Refusal, report};
use mvt_base::LIMIT;
use mvt_mend::{Change, MendError, MendedTile, Unmended, mend_tile};
use std::alloc::{AllocError, Global};

/// A change. What its kind doesn't speak of is 0.
#[repr(C)]
#[derive(Clone, Copy, Debug)]
pub struct ChangeRow {
    pub kind: u32,
    pub layer: u64,
    pub feature: u64,
    pub part: u64,
    pub count: u64,
    pub to: u64,
}

/// Why a tile isn't mended. What its kind doesn't speak of is 0.
#[repr(C)]
#[derive(Clone, Copy, Debug)]
pub struct UnmendedRow {
    pub kind: u32,
    pub layer: u64,
    pub feature: u64,
    pub ring: u64,
    pub other: u64,
}

/// The canonical bytes of a tile that is mended, and what is changed, which last until C frees
/// them.
#[repr(C)]
#[derive(Clone, Copy, Debug)]
pub struct Mended {
    pub bytes: &'static [u8],
    pub changes: &'static [ChangeRow],
}

/// A tile mended (`mvt_mend`).
#[unsafe(no_mangle)]
pub extern "C" fn mvt_mend_told(
    alloc: Global,
    bytes: &[u8],
    out: &mut Mended,
    fault: &mut Fault,
    why: &mut UnmendedRow,
) -> u32
    ensures done { result ≡ 0 → IsMendedTo bytes.now out.new }
    ensures refused { result ≡ 1 → IsReported bytes.now fault.new }
    ensures broken { result ≡ 1 → IsSome (fault_within LIMIT (the_mended bytes.now)) }
    ensures too_large { result ≡ 3 → IsTooLarge (the_mended bytes.now) }
    ensures few { result ≤ 3 }
    ensures out_kept { result ≢ 0 → out.new ≡ out.old }
    ensures fault_kept { result ≢ 1 → fault.new ≡ fault.old }
    ensures why { result ≡ 1 → why.new ≡ row_of_unmended (cause_in bytes.now) }
    ensures why_kept { result ≢ 1 → why.new ≡ why.old }

    // A row tells its change, or its cause, so the rows say what the lines of `mvt mend` say.
    ensures told { ((change : AChange) → change_of_row (row_of_change change) ≡ change)
        × ((cause : AnUnmended) → unmended_of_row (row_of_unmended cause) ≡ cause) }
{
    match made_of(alloc, bytes, why) {
        Ok(made) => {
            *out = made;
            0
        }
        Err(refusal) => report(refusal, fault),
    }
}

fn made_of(alloc: Global, bytes: &[u8], why: &mut UnmendedRow) -> Result<Mended, Refusal>
    ensures done { IfOk result (IsMendedTo bytes.now) }
    ensures refused { IfErr result (NotMended bytes.now) }
    ensures why { IfErr result (λ refusal. why.new ≡ why_after refusal bytes.now why.old) }
    ensures why_kept { OnOk result (why.new ≡ why.old) }
{
    let MendedTile {
        bytes: canonical,
        changes,
    } = match mend_tile(alloc, bytes) {
        Ok(made) => made,
        Err(MendError::Refused(fault, cause)) => {
            *why = unmended_row(cause);
            return Err(Refusal::Refused(fault));
        }
        Err(MendError::Memory) => return Err(Refusal::Memory),
    };
    let Some(canonical) = canonical else {
        return Err(Refusal::TooLarge);
    };
    let rows = change_rows(alloc, changes.as_slice())?;
    Ok(Mended {
        bytes: canonical.leak(),
        changes: rows.leak(),
    })
}

fn change_rows(alloc: Global, changes: &[Change]) -> Result<Vec<ChangeRow>, AllocError>
    ensures { IfOk result (λ rows. rows.items ≡ map row_of_change changes.now) }
{
    let mut rows = Vec::with_capacity(alloc, changes.len())?;
    for change in changes {
        rows.push(change_row(*change))?;
    }
    Ok(rows)
}

fn change_row(change: Change) -> ChangeRow
    ensures { result ≡ row_of_change change }
{
    match change {
        Change::TurnedRing(layer, feature, ring) => change_at(1, layer, feature, ring),
        Change::RepeatedPoint(layer, feature, part, count) => {
            counted(change_at(2, layer, feature, part), count)
        }
        Change::PartLeftOut(layer, feature, part, count) => {
            counted(change_at(3, layer, feature, part), count)
        }
        Change::FeatureLeftOut(layer, feature, count) => {
            counted(change_at(4, layer, feature, 0), count)
        }
        Change::MovedRing(layer, feature, ring, to) => ChangeRow {
            to: to as u64,
            ..change_at(5, layer, feature, ring)
        },
    }
}

fn unmended_row(cause: Unmended) -> UnmendedRow
    ensures { result ≡ row_of_unmended cause }
{
    match cause {
        Unmended::RingsCross(layer, feature, crossing) => UnmendedRow {
            kind: 1,
            layer: layer as u64,
            feature: feature as u64,
            ring: crossing.outer as u64,
            other: crossing.inner as u64,
        },
        Unmended::TooManySteps => unplaced(2),
        Unmended::AnotherRule => unplaced(3),
    }
}

/// A cause of this kind that speaks of no ring.
fn unplaced(kind: u32) -> UnmendedRow
    ensures { result ≡ unplaced kind }
{
    UnmendedRow {
        kind,
        layer: 0,
        feature: 0,
        ring: 0,
        other: 0,
    }
}

fn counted(row: ChangeRow, count: usize) -> ChangeRow
    ensures { result ≡ record row { count = count } }
{
    ChangeRow {
        count: count as u64,
        ..row
    }
}

fn change_at(kind: u32, layer: usize, feature: usize, part: usize) -> ChangeRow
    ensures { result ≡ change_at kind layer feature part }
{
    ChangeRow {
        kind,
        layer: layer as u64,
        feature: feature as u64,
        part: part as u64,
        count: 0,
        to: 0,
    }
}
