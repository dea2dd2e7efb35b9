//! The calls that make bytes of a tile's bytes.
ghost use Rattle.std.specs.Prelude.{◌≡◌, ◌≢◌, ◌≤◌, map, string_bytes, All, Any, IsUtf8, IfOk, IfErr};
ghost use Rattle.mvt_c.specs.Calls.{IsExtracted, IsReported, IsTooLargeOf, LacksName, NotExtracted, RefusedAs};
ghost use Rattle.mvt_c.specs.Names.{texts_of};
ghost use Rattle.mvt_rows.specs.Reading.{IsRewritten, IsTooLarge};

use crate::fault::Fault;
use crate::lent::Bytes;
use crate::names::read_names;
use crate::refusal::{Refusal, hand_out, report};
use mvt_tile::{NamedLayers, extract_bytes, rewrite};
use std::alloc::Global;

/// The canonical bytes of a tile (`mvt_rewrite`).
#[unsafe(no_mangle)]
pub extern "C" fn mvt_rewrite(
    alloc: Global,
    bytes: &[u8],
    out: &mut Bytes,
    fault: &mut Fault,
) -> u32
    ensures done { result ≡ 0 → IsRewritten bytes.now out.new.bytes.now }
    ensures refused { result ≡ 1 → IsReported bytes.now fault.new }
    ensures too_large { result ≡ 3 → IsTooLarge bytes.now }
    ensures few { result ≤ 3 }
    ensures out_kept { result ≢ 0 → out.new ≡ out.old }
    ensures fault_kept { result ≢ 1 → fault.new ≡ fault.old }
{
    hand_out(rewritten(alloc, bytes), out, fault)
}

fn rewritten(alloc: Global, bytes: &[u8]) -> Result<Vec<u8>, Refusal>
    ensures done { IfOk result (λ made. IsRewritten bytes.now made.items) }
    ensures refused { IfErr result (RefusedAs bytes.now) }
{
    rewrite(alloc, bytes)?.ok_or(Refusal::TooLarge)
}

/// The canonical bytes of a tile's named layers, in the order of the tile, or the index of the
/// first name that no layer has (`mvt_extract`).
#[unsafe(no_mangle)]
pub extern "C" fn mvt_extract_named(
    alloc: Global,
    bytes: &[u8],
    names: &[Bytes],
    out: &mut Bytes,
    fault: &mut Fault,
    missing: &mut usize,
) -> u32
    ensures done { result ≡ 0 → IsExtracted bytes.now (texts_of names.now) out.new.bytes.now }
    ensures refused { result ≡ 1 → IsReported bytes.now fault.new }
    ensures too_large { result ≡ 3 → IsTooLargeOf bytes.now (texts_of names.now) }
    ensures missing { result ≡ 4 → LacksName bytes.now (texts_of names.now) missing.new }
    ensures bad_name { result ≡ 5 → Any (λ text. IsUtf8 text → ⊥) (texts_of names.now) }
    // The names are looked at before the bytes.
    ensures names { result ≢ 2 → result ≢ 5 → All IsUtf8 (texts_of names.now) }
    ensures few { result ≤ 5 }
    ensures out_kept { result ≢ 0 → out.new ≡ out.old }
    ensures fault_kept { result ≢ 1 → fault.new ≡ fault.old }
    ensures missing_kept { result ≢ 4 → missing.new ≡ missing.old }
{
    match read_names(alloc, names) {
        Ok(names) => {
            let made = extracted(alloc, bytes, &names);
            if let Err(Refusal::NoLayer(index)) = made {
                *missing = index;
            }
            hand_out(made, out, fault)
        }
        Err(refusal) => report(refusal, fault),
    }
}

fn extracted(alloc: Global, bytes: &[u8], names: &[String]) -> Result<Vec<u8>, Refusal>
    ensures done { IfOk result (λ made. IsExtracted bytes.now
        (map string_bytes names.now) made.items) }
    ensures refused { IfErr result (NotExtracted bytes.now (map string_bytes names.now)) }
{
    match extract_bytes(alloc, bytes, names)? {
        NamedLayers::Bytes(made) => Ok(made),
        NamedLayers::Missing(index) => Err(Refusal::NoLayer(index)),
        NamedLayers::TooLarge => Err(Refusal::TooLarge),
    }
}
