//! Tiles mended, by their bytes.
use crate::expect::{expect, expect_eq};
use mvt_mend::{MendError, Unmended, change_text, mend_tile};
use std::process::Abort;

// Layer a with a triangle, whose ring goes the wrong way round, and a line of a point twice, which
// is left out.
const BROKEN: &[u8] = b"\x1A\x23\x78\x02\x0A\x01a\
    \x12\x0D\x18\x03\x22\x09\x09\x00\x00\x12\x00\x02\x02\x00\x0F\
    \x12\x0A\x18\x02\x22\x06\x09\x02\x02\x0A\x00\x00\x28\x80\x20";

const MENDED: &[u8] = b"\x1A\x17\x78\x02\x0A\x01a\
    \x12\x0D\x18\x03\x22\x09\x09\x00\x00\x12\x02\x02\x01\x00\x0F\x28\x80\x20";

const CHANGES: &str = "mended layer 0 feature 0: TurnedRing 0\n\
    mended layer 0 feature 1: FeatureLeftOut count 2\n";

// How often a growth was refused: never or once.
fn refusals(rt: &(impl Abort + AllocGlobal), tile: &[u8], expected: &[u8], changes: &str) -> u8 {
    let mended = match mend_tile(rt.alloc(), tile) {
        Ok(mended) => mended,
        Err(error) => {
            expect_eq!(rt; error, MendError::Memory);
            return 1;
        }
    };
    expect_eq!(rt; mended.bytes.as_ref().map(|v| v.as_slice()), Some(expected));
    let refused = match change_text(rt.alloc(), mended.changes.as_slice()) {
        Ok(text) => {
            expect_eq!(rt; text.as_str(), changes);
            drop(text);
            0
        }
        Err(_) => 1,
    };
    drop(mended);
    refused
}

#[test]
fn mends_tiles(rt: HostRuntime) {
    let mut refused = 0u8;
    for _turn in 0..2 {
        let broken = refusals(&rt, BROKEN, MENDED, CHANGES);
        let whole = refusals(&rt, MENDED, MENDED, "");
        refused = refused.saturating_add(broken).saturating_add(whole);
    }
    expect!(rt; refused < 2);
}

// A tile that breaks another rule too keeps its first fault: the second layer has no name.
#[test]
fn refuses_tiles(rt: HostRuntime) {
    let mut tile = Vec::from_slice(rt.alloc(), BROKEN).expect(&rt, "bytes");
    tile.extend_from_slice(b"\x1A\x02\x78\x02")
        .expect(&rt, "bytes");
    match mend_tile(rt.alloc(), &tile) {
        Ok(mended) => drop(mended),
        Err(MendError::Refused(fault, cause)) => {
            expect_eq!(rt; fault.feature, Some(0));
            expect_eq!(rt; cause, Unmended::AnotherRule);
        }
        Err(error) => expect_eq!(rt; error, MendError::Memory),
    }
    drop(tile);
}
