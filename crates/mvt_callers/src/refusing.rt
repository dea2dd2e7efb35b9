//! Read a tile from a stream, and say where it breaks a rule.
ghost use Rattle.std.specs.Prelude.{◌≡◌, None, IfOk, IfErr, IfSome, IsSome};
ghost use Rattle.mvt_tile.specs.Reading.{ReadsTile, fault_of, kind_of, kind_reported};
ghost use Rattle.mvt_tile.specs.TileRules.{fault_within};

use mvt_tile::{DecodeError, Fault, LIMIT, Source, read_tile};
use std::alloc::Global;

/// The first broken rule of the bytes that a reader has left, with its layer, its feature, its
/// place and its cause; nothing if they are a tile. It reads no further after a fault.
///
/// # Errors
///
/// A read that failed; out of memory.
pub fn first_fault<R: Source>(alloc: Global, reader: &mut R) -> Result<Option<Fault>, DecodeError>
    ensures fault { IfOk result (λ found. IfSome (R.state reader.old).left
        (λ input. found ≡ fault_within LIMIT input)) }
    ensures error { IfErr result (λ error. fault_of error ≡ None) }
    ensures read { ReadsTile LIMIT (R.state reader.old) (R.state reader.new) (kind_of result) }
{
    match read_tile(alloc, reader) {
        Ok(tile) => {
            drop(tile);
            Ok(None)
        }
        Err(error) => reported(error),
    }
}

/// The fault that an error reports, or the error if it reports none.
fn reported(error: DecodeError) -> Result<Option<Fault>, DecodeError>
    ensures fault { IfOk result (λ found. (found ≡ fault_of error) × IsSome found) }
    ensures error { IfErr result (λ error. fault_of error ≡ None) }
    ensures kind { kind_of result ≡ kind_reported error }
{
    match error {
        DecodeError::Fault(fault) => Ok(Some(fault)),
        error => Err(error),
    }
}
