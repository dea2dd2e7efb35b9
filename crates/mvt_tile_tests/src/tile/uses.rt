//! The uses of tiles, over the tile that `place_tile` makes.
use crate::expect::{expect, expect_eq};
use mvt_callers::{count_features, first_fault, place_tile, tile_of_pieces};
use mvt_io::MemorySource;
use mvt_message::Cause;
use mvt_tile::{DecodeError, Point, decode};
use std::process::Abort;

// The layer "places", in which Rome stands at (1,2).
const ROME: &[u8] = b"\x1A\x28\x78\x02\x0A\x06places\
    \x12\x0B\x12\x02\x00\x00\x18\x01\x22\x03\x09\x02\x04\
    \x1A\x04name\x22\x06\x0A\x04Rome\x28\x80\x20";

fn expect_place(rt: &(impl Abort + AllocGlobal), at: Point, expected: Option<&[u8]>) {
    let bytes = place_tile(rt.alloc(), "Rome", at).expect(rt, "a place");
    expect_eq!(rt; bytes.as_deref(), expected);
    drop(bytes);
}

#[test]
fn a_place_is_written(rt: HostRuntime) {
    expect_place(&rt, Point { x: 1, y: 2 }, Some(ROME));
    expect_place(&rt, Point { x: i32::MIN, y: 2 }, None);
}

#[test]
fn features_are_counted(rt: HostRuntime) {
    expect_eq!(rt; count_features(rt.alloc(), ROME, "places"), Ok(Some(1)));
    expect_eq!(rt; count_features(rt.alloc(), ROME, "roads"), Ok(None));
}

#[test]
fn pieces_make_the_tile(rt: HostRuntime) {
    let (front, behind) = ROME.split_at(17);
    let tile = tile_of_pieces(rt.alloc(), &[front, &[], behind]).expect(&rt, "a tile");
    let whole = decode(rt.alloc(), ROME).expect(&rt, "a tile");
    expect!(rt; tile == whole);
    drop(whole);
    drop(tile);
}

#[test]
fn a_piece_is_missing(rt: HostRuntime) {
    let cause = match tile_of_pieces(rt.alloc(), &[&ROME[..17]]) {
        Err(DecodeError::Fault(fault)) => Some(fault.cause),
        _ => None,
    };
    expect!(rt; cause == Some(Cause::Truncated));
}

#[test]
fn a_stream_is_a_tile(rt: HostRuntime) {
    let bytes = Vec::from_slice(rt.alloc(), ROME).expect(&rt, "bytes");
    let mut whole = MemorySource::new(bytes, 7, u64::MAX);
    expect_eq!(rt; first_fault(rt.alloc(), &mut whole), Ok(None));
    drop(whole);
}

#[test]
fn a_stream_breaks_a_rule(rt: HostRuntime) {
    let bytes = Vec::from_slice(rt.alloc(), &ROME[..17]).expect(&rt, "bytes");
    let mut cut = MemorySource::new(bytes, 7, u64::MAX);
    let cause = match first_fault(rt.alloc(), &mut cut) {
        Ok(Some(fault)) => Some(fault.cause),
        _ => None,
    };
    expect!(rt; cause == Some(Cause::Truncated));
    drop(cut);
}

#[test]
fn a_stream_fails(rt: HostRuntime) {
    let bytes = Vec::from_slice(rt.alloc(), ROME).expect(&rt, "bytes");
    let mut failing = MemorySource::new(bytes, 7, 1);
    let is_failed_read = matches!(
        first_fault(rt.alloc(), &mut failing),
        Err(DecodeError::Read(_))
    );
    expect!(rt; is_failed_read);
    drop(failing);
}
