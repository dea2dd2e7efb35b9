//! Tiles mended.
ghost use Rattle.std.specs.Prelude.{◌≡◌, Some, IfOk, IfErr};
ghost use Rattle.mvt_mend.specs.Tiles.{cause_in, changes_in, mended};
ghost use Rattle.mvt_mend.specs.Mendable.{HasCause, IsMended, StaysRefused, TellsFault};
ghost use Rattle.mvt_tile.specs.TileRules.{fault_within};

use crate::change::{Change, Unmended};
use crate::tiles::{MendedBytes, mend_bytes};
use mvt_base::{Items, LIMIT};
use mvt_rings::Ended;
use mvt_tile::{DecodeError, Fault, rewrite};
use std::alloc::Global;

/// A tile that is mended.
#[derive(Debug, Drop)]
pub struct MendedTile {
    /// The canonical bytes; `None` if they exceed the limit.
    pub bytes: Option<Vec<u8>>,
    /// What is changed, in the order of the layers, the features, and their lines or rings.
    pub changes: Items<Change>,
}

/// Why a tile isn't mended.
#[derive(Clone, Copy, Debug, PartialEq)]
pub enum MendError {
    /// The first fault of the tile as it stands, as [`decode`](mvt_tile::decode) reports it, and
    /// why it isn't mended.
    Refused(Fault, Unmended),
    /// Out of memory.
    Memory,
}

/// The canonical bytes of a tile in which two rules are mended: a point of a line or ring that
/// equals the one before it is left out (4.3.3.2), and where the first ring of a polygon has
/// negative area its rings are told by even-odd (4.3.4.4), as
/// [`mend_rings`](mvt_rings::mend_rings) says.
///
/// A tile that keeps every rule is rewritten, and has no changes. Time is linear in the bytes, but
/// for the steps of telling rings, at most [`MOST_STEPS`](crate::MOST_STEPS) in all.
///
/// # Errors
///
/// If the tile breaks another rule too, if rings cross by more than rounding explains, or if
/// telling rings takes too many steps. Out of memory.
pub fn mend_tile(alloc: Global, bytes: &[u8]) -> Result<MendedTile, MendError>
    ensures tile { IfOk result (λ made. IsMended LIMIT (mended bytes.now) made.bytes) }
    ensures changes { IfOk result (λ made. made.changes ≡ changes_in bytes.now) }
    ensures fault { IfErr result (λ error. TellsFault error (fault_within LIMIT bytes.now)) }
    ensures cause { IfErr result (λ error. HasCause error (cause_in bytes.now)) }
    ensures refused { IfErr result (StaysRefused LIMIT (mended bytes.now)) }
{
    match rewrite(alloc, bytes) {
        Ok(canonical) => Ok(MendedTile {
            bytes: canonical,
            changes: Items::new(Vec::new(alloc)),
        }),
        Err(DecodeError::Fault(fault)) => mend_refused(alloc, bytes, fault),
        Err(DecodeError::Memory | DecodeError::Read(_)) => Err(MendError::Memory),
    }
}

/// The same of a tile that has this fault.
fn mend_refused(alloc: Global, bytes: &[u8], fault: Fault) -> Result<MendedTile, MendError>
    requires { fault_within LIMIT bytes.now ≡ Some fault }
    ensures tile { IfOk result (λ made. IsMended LIMIT (mended bytes.now) made.bytes) }
    ensures changes { IfOk result (λ made. made.changes ≡ changes_in bytes.now) }
    ensures fault { IfErr result (λ error. TellsFault error (fault_within LIMIT bytes.now)) }
    ensures cause { IfErr result (λ error. HasCause error (cause_in bytes.now)) }
    ensures refused { IfErr result (StaysRefused LIMIT (mended bytes.now)) }
{
    let made = match mend_bytes(alloc, bytes) {
        Ok(made) => made,
        Err(Ended::Memory) => return Err(MendError::Memory),
        Err(Ended::Steps) => return Err(MendError::Refused(fault, Unmended::TooManySteps)),
    };
    let MendedBytes { bytes, told } = made;
    if told.changes.len() == 0 {
        return Err(MendError::Refused(fault, told.cause));
    }
    match rewrite(alloc, &bytes) {
        Ok(canonical) => Ok(MendedTile {
            bytes: canonical,
            changes: Items::new(told.changes),
        }),
        Err(DecodeError::Fault(_)) => Err(MendError::Refused(fault, told.cause)),
        Err(DecodeError::Memory | DecodeError::Read(_)) => Err(MendError::Memory),
    }
}
