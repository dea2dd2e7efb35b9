//! A tile in any pieces.
use crate::expect::expect_eq;
use crate::tile::rows::{ONE_POINT, UNKNOWN_FIRST};
use crate::tile::streams::expect_end;
use crate::tile::support::tile_of;
use mvt_tile::{Tile, TileDecoder};
use std::process::Abort;

// Feeds an input in pieces: a bit of `cuts` for each byte tells whether a piece ends with it.
fn feed_cut(
    rt: &impl Abort,
    decoder: &mut TileDecoder,
    piece: &mut Vec<u8>,
    input: &[u8],
    cuts: u32,
) {
    let mut rest = cuts;
    for byte in input {
        piece.push(*byte).expect(rt, "a byte");
        if rest % 2 == 1 {
            expect_eq!(rt; decoder.feed(piece), Ok(()));
            piece.clear();
        }
        rest /= 2;
    }
    expect_eq!(rt; decoder.feed(piece), Ok(()));
}

fn expect_cut(rt: &(impl Abort + AllocGlobal), input: &[u8], cuts: u32, tile: &Tile) {
    let mut decoder = TileDecoder::new(rt.alloc());
    let mut piece = Vec::new(rt.alloc());
    feed_cut(rt, &mut decoder, &mut piece, input, cuts);
    drop(piece);
    expect_eq!(rt; decoder.held(), 0);
    expect_end(rt, decoder, tile);
}

// Pieces of no bytes in front and after.
fn expect_between_nothing(rt: &(impl Abort + AllocGlobal), input: &[u8], tile: &Tile) {
    let mut decoder = TileDecoder::new(rt.alloc());
    let pieces: [&[u8]; 3] = [b"", input, b""];
    for piece in pieces {
        expect_eq!(rt; decoder.feed(piece), Ok(()));
    }
    expect_end(rt, decoder, tile);
}

// Every split into pieces: there are 18 places to cut the first input, and 11 to cut the second.
#[test]
fn takes_any_pieces(rt: HostRuntime) {
    for (input, splits) in [(ONE_POINT, 1u32 << 18), (UNKNOWN_FIRST, 1 << 11)] {
        let tile = tile_of(&rt, input);
        for cuts in 0..splits {
            expect_cut(&rt, input, cuts, &tile);
        }
        expect_between_nothing(&rt, input, &tile);
        drop(tile);
    }
}
