//! A tile's bytes judged, and read as rows.
ghost use Rattle.std.specs.Prelude.{◌≡◌, ◌≢◌, ◌≤◌, IfOk, IfErr, OnOk};
ghost use Rattle.mvt_c.specs.Calls.{IsAccepted, IsReported, IsReportedOf, LacksLayerOf, NotReadOf, NotShown};
ghost use Rattle.mvt_tile.specs.NamedLayer.{named_fault};
ghost use Rattle.mvt_rows.specs.Lent.{table_of};
ghost use Rattle.mvt_rows.specs.Reading.{IsLayerRead, IsRead};
ghost use Rattle.mvt_rows.specs.Tables.{table_size};

use crate::fault::Fault;
use crate::refusal::{Refusal, report};
use mvt_base::LIMIT;
use mvt_rows::{Rows, Table, read_layer, read_rows_within};
use mvt_tile::judge;
use std::alloc::Global;

/// Whether the bytes are a tile (`mvt_judge`).
#[unsafe(no_mangle)]
pub extern "C" fn mvt_judge(alloc: Global, bytes: &[u8], fault: &mut Fault) -> u32
    ensures accepted { result ≡ 0 → IsAccepted bytes.now }
    ensures refused { result ≡ 1 → IsReported bytes.now fault.new }
    ensures few { result ≤ 2 }
    ensures fault_kept { result ≢ 1 → fault.new ≡ fault.old }
{
    match judged(alloc, bytes) {
        Ok(()) => 0,
        Err(refusal) => report(refusal, fault),
    }
}

fn judged(alloc: Global, bytes: &[u8]) -> Result<(), Refusal>
    ensures accepted { OnOk result (IsAccepted bytes.now) }
    ensures refused { IfErr result (NotShown bytes.now) }
{
    judge(alloc, bytes)?;
    Ok(())
}

/// A tile as rows of at most so many bytes (`mvt_read`).
#[unsafe(no_mangle)]
pub extern "C" fn mvt_read(
    alloc: Global,
    bytes: &[u8],
    most: u64,
    out: &mut Rows<'static>,
    fault: &mut Fault,
) -> u32
    ensures done { result ≡ 0 → IsRead bytes.now (table_of out.new) }
    ensures within { result ≡ 0 → table_size (table_of out.new) ≤ most }
    ensures refused { result ≡ 1 → IsReported bytes.now fault.new }
    ensures few { result ≤ 2 }
    ensures out_kept { result ≢ 0 → out.new ≡ out.old }
    ensures fault_kept { result ≢ 1 → fault.new ≡ fault.old }
{
    match read(alloc, bytes, most) {
        Ok(table) => {
            *out = table.leak();
            0
        }
        Err(refusal) => report(refusal, fault),
    }
}

fn read(alloc: Global, bytes: &[u8], most: u64) -> Result<Table, Refusal>
    ensures done { IfOk result (IsRead bytes.now) }
    ensures within { IfOk result (λ table. table_size table ≤ most) }
    ensures refused { IfErr result (NotShown bytes.now) }
{
    Ok(read_rows_within(alloc, bytes, most)?)
}

/// The first layer with a name as rows (`mvt_read_layer`).
#[unsafe(no_mangle)]
pub extern "C" fn mvt_read_named(
    alloc: Global,
    bytes: &[u8],
    name: &[u8],
    out: &mut Rows<'static>,
    fault: &mut Fault,
) -> u32
    ensures done { result ≡ 0 → IsLayerRead name.now bytes.now (table_of out.new) }
    ensures refused { result ≡ 1 → IsReportedOf (named_fault LIMIT name.now bytes.now) fault.new }
    ensures missing { result ≡ 4 → LacksLayerOf name.now bytes.now }
    ensures few { (result ≡ 3 → ⊥) × (result ≤ 4) }
    ensures out_kept { result ≢ 0 → out.new ≡ out.old }
    ensures fault_kept { result ≢ 1 → fault.new ≡ fault.old }
{
    match read_named(alloc, bytes, name) {
        Ok(layer) => {
            *out = layer.leak();
            0
        }
        Err(refusal) => report(refusal, fault),
    }
}

fn read_named(alloc: Global, bytes: &[u8], name: &[u8]) -> Result<Table, Refusal>
    ensures done { IfOk result (IsLayerRead name.now bytes.now) }
    ensures refused { IfErr result (NotReadOf name.now bytes.now) }
{
    match read_layer(alloc, bytes, name, u64::MAX)? {
        Some(table) => Ok(table),
        None => Err(Refusal::NoLayer(0)),
    }
}
