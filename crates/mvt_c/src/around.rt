//! What there is round the fault of refused bytes.
ghost use Rattle.std.specs.Prelude.{◌≡◌, ◌≢◌, ◌≤◌, map, IfOk};
ghost use Rattle.mvt_c.specs.Around as spec;
ghost use Rattle.mvt_c.specs.Around.{IsMeant, IsSurrounded, IsTold, nowhere, row_of_step};
ghost use Rattle.mvt_c.specs.Faults.{is_there as the_is_there};
ghost use Rattle.mvt_c.specs.Places.{IsLocated};
ghost use Rattle.std.specs.Option.{unwrap_or as the_unwrap_or};

use crate::fault::Fault;
use crate::places::{Place, fault_given, place_given};
use mvt_places::{Around, Bounds, FieldRow, Integer, Step, look_around};
use mvt_tile::{Cause, Fault as TileFault};
use std::alloc::{AllocError, Global};

/// What an integer of a geometry is, and where the cursor then stands.
#[repr(C)]
#[derive(Clone, Copy, Debug)]
pub struct StepRow {
    pub role: u32,
    pub left: u32,
    pub x: i64,
    pub y: i64,
}

/// What there is round a fault. The lists last until C frees them; what isn't there is 0.
#[repr(C)]
#[derive(Clone, Copy, Debug)]
pub struct Surroundings<'a> {
    pub place: Place<'a>,
    pub has_layer: u32,
    pub has_extent: u32,
    pub has_feature: u32,
    pub has_kind: u32,
    pub layer: Bounds,
    pub feature: Bounds,
    pub message: Bounds,
    pub extent: u64,
    pub kind: u64,
    pub list: u32,
    pub keys: &'static [Bounds],
    pub tags: &'static [Integer],
    pub geometry: &'static [Integer],
    pub steps: &'static [StepRow],
    pub fields: &'static [FieldRow],
}

/// What there is round a fault of refused bytes (`mvt_around`). A fault whose cause has a number
/// that none has is taken for the end of the bytes.
#[unsafe(no_mangle)]
pub extern "C" fn mvt_around<'a>(
    alloc: Global,
    bytes: &'a [u8],
    fault: &Fault,
    out: &mut Surroundings<'a>,
) -> u32
    ensures place { result ≡ 0 → IsLocated bytes.now fault.now out.new.place }
    ensures around { result ≡ 0 → IsSurrounded bytes.now fault.now out.new }
    ensures few { (result ≡ 1 → ⊥) × (result ≤ 2) }
    ensures out_kept { result ≢ 0 → out.new ≡ out.old }
{
    match surrounded(alloc, bytes, fault) {
        Ok(found) => {
            *out = found;
            0
        }
        Err(_) => 2,
    }
}

fn surrounded<'a>(
    alloc: Global,
    bytes: &'a [u8],
    fault: &Fault,
) -> Result<Surroundings<'a>, AllocError>
    ensures place { IfOk result (λ found. IsLocated bytes.now fault.now found.place) }
    ensures around { IfOk result (IsSurrounded bytes.now fault.now) }
{
    let around = look_around(alloc, bytes, &meant(bytes, fault))?;
    let steps = step_rows(alloc, around.steps.as_slice())?;
    Ok(told(place_given(bytes, fault), around, steps))
}

/// The fault that C gives back, or the end of the bytes.
fn meant(bytes: &[u8], given: &Fault) -> TileFault
    ensures { IsMeant bytes.now given.now result }
{
    match fault_given(given) {
        Some(fault) => fault,
        None => TileFault {
            layer: None,
            feature: None,
            at: bytes.len() as u64,
            cause: Cause::Truncated,
        },
    }
}

fn step_rows(alloc: Global, steps: &[Step]) -> Result<Vec<StepRow>, AllocError>
    ensures { IfOk result (λ rows. rows.items ≡ map row_of_step steps.now) }
{
    let mut rows = Vec::with_capacity(alloc, steps.len())?;
    for step in steps {
        rows.push(step_row(*step))?;
    }
    Ok(rows)
}

fn step_row(step: Step) -> StepRow
    ensures { result ≡ row_of_step step }
{
    StepRow {
        role: step.role.number(),
        left: step.left,
        x: step.x,
        y: step.y,
    }
}

/// Hands out what there is, with its steps as rows.
fn told<'a>(place: Place<'a>, around: Around, steps: Vec<StepRow>) -> Surroundings<'a>
    ensures place { result.place ≡ place.entry }
    ensures told { steps.items ≡ map row_of_step around.steps.items
        → IsTold around result }
{
    Surroundings {
        place,
        has_layer: u32::from(around.layer.is_some()),
        has_extent: u32::from(around.extent.is_some()),
        has_feature: u32::from(around.feature.is_some()),
        has_kind: u32::from(around.kind.is_some()),
        layer: around.layer.unwrap_or(NOWHERE),
        feature: around.feature.unwrap_or(NOWHERE),
        message: around.message,
        extent: around.extent.unwrap_or(0),
        kind: around.kind.unwrap_or(0),
        list: around.list.unwrap_or(0),
        keys: around.keys.leak(),
        tags: around.tags.leak(),
        geometry: around.geometry.leak(),
        steps: steps.leak(),
        fields: around.fields.leak(),
    }
}

const NOWHERE: Bounds = Bounds {
    start: 0,
    body: 0,
    end: 0,
};
