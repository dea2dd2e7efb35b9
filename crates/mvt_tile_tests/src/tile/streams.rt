//! A tile in pieces.
use super::rows::ONE_POINT;
use super::support::{both_of, expect_failed, in_layer, outer, tile_of};
use crate::expect::{expect, expect_eq};
use mvt_message::Cause;
use mvt_tile::{DecodeError, Tile, TileDecoder};
use std::process::Abort;

// A decoder that was fed the input in pieces of this size, and holds so many bytes.
fn holding(rt: &(impl Abort + AllocGlobal), input: &[u8], size: usize, held: usize) -> TileDecoder {
    let mut decoder = TileDecoder::new(rt.alloc());
    for piece in input.chunks(size.max(1)) {
        expect_eq!(rt; decoder.feed(piece), Ok(()));
    }
    expect_eq!(rt; decoder.held(), held);
    decoder
}

pub(crate) fn expect_end(rt: &impl Abort, decoder: TileDecoder, tile: &Tile) {
    let read = decoder.finish().expect(rt, "a tile");
    expect!(rt; read == *tile);
    drop(read);
}

fn expect_end_fault(rt: &impl Abort, decoder: TileDecoder, error: DecodeError) {
    expect_eq!(rt; decoder.finish().err(), Some(error));
}

// Each front of the tile, byte by byte: how many bytes are held, and what the front is.
#[test]
fn holds_what_is_unfinished(rt: HostRuntime) {
    for front in [b"".as_slice(), ONE_POINT] {
        let tile = tile_of(&rt, front);
        expect_end(&rt, holding(&rt, front, 1, 0), &tile);
        drop(tile);
    }
    for len in 1..ONE_POINT.len() {
        let decoder = holding(&rt, &ONE_POINT[..len], 1, len);
        expect_end_fault(&rt, decoder, outer(0, Cause::Truncated));
    }
}

// A layer is judged with its last byte, and the fault stays.
#[test]
fn reports_faults_early(rt: HostRuntime) {
    let mut decoder = TileDecoder::new(rt.alloc());
    for (index, byte) in b"\x1A\x03\x0A\x01".chunks(1).enumerate() {
        expect_eq!(rt; decoder.feed(byte), Ok(()));
        expect_eq!(rt; decoder.held(), index.saturating_add(1));
    }
    let error = in_layer(0, 0, Cause::NoVersion);
    expect_eq!(rt; decoder.feed(b"\x61"), Err(error));
    expect_failed(&rt, decoder, ONE_POINT, error);
}

#[test]
fn reports_no_fault_of_what_is_unfinished(rt: HostRuntime) {
    // Inside a layer that isn't whole nothing is judged, neither a wrong version field nor another
    // version.
    for front in [b"\x1A\x05\x7A\x00", b"\x1A\x05\x78\x01"] {
        let decoder = holding(&rt, front, 4, 4);
        expect_end_fault(&rt, decoder, outer(0, Cause::Truncated));
    }
    // Nor is a field 3 that isn't whole.
    let mut decoder = holding(&rt, b"\x18", 1, 1);
    expect_eq!(rt; decoder.feed(b"\x00"), Err(outer(0, Cause::WrongType)));
    drop(decoder);
    // What stands after a whole field is held, and told at its place.
    let longer = both_of(&rt, ONE_POINT, b"\x1A\x11\x78");
    let decoder = holding(&rt, &longer, 22, 3);
    drop(longer);
    expect_end_fault(&rt, decoder, outer(19, Cause::Truncated));
}
