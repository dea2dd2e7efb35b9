//! Whole runs over a tile's bytes. Each answers a count, or 0 for a fault and for lack of memory. A
//! tile that is kept isn't dropped, so that the time of a run is that of the call alone.
use mvt_base::LIMIT;
use mvt_io::{Host, MemorySink};
use mvt_message::{Item, read_item};
use mvt_tile::{DecodeError, Tile, TileDecoder, decode, feature_count, write_tile};
use std::alloc::Global;
use std::{io, mem};

/// How many items and features a tile has, and 1.
fn count(tile: &Tile) -> u64 {
    let items = tile.items.as_slice();
    let mut sum = 1 + items.len() as u64;
    for item in items {
        sum = sum.wrapping_add(feature_count(item) as u64);
    }
    sum
}

fn settle(found: Result<Tile, DecodeError>, keeps: bool) -> u64 {
    let Ok(tile) = found else {
        return 0;
    };
    let sum = count(&tile);
    if keeps {
        mem::forget(tile);
    }
    sum
}

/// Decodes a tile.
#[unsafe(no_mangle)]
pub extern "C" fn mvt_decode(alloc: Global, bytes: &[u8], keeps: bool) -> u64 {
    settle(decode(alloc, bytes), keeps)
}

/// Feeds a tile in pieces, and keeps it.
#[unsafe(no_mangle)]
pub extern "C" fn mvt_feed(alloc: Global, bytes: &[u8], piece: usize) -> u64 {
    let mut decoder = TileDecoder::new(alloc);
    for piece in bytes.chunks(piece.max(1)) {
        if decoder.feed(piece).is_err() {
            return 0;
        }
    }
    settle(decoder.finish(), true)
}

/// Decodes a tile, writes it to nowhere so many times, and keeps it.
#[unsafe(no_mangle)]
pub extern "C" fn mvt_write(alloc: Global, bytes: &[u8], times: u32) -> u64 {
    let Ok(tile) = decode(alloc, bytes) else {
        return 0;
    };
    for _ in 0..times {
        if write_tile(alloc, &tile, &mut Host::new(io::sink())).is_err() {
            return 0;
        }
    }
    settle(Ok(tile), true)
}

/// Whether a tile is written as the very bytes that it was read from.
#[unsafe(no_mangle)]
pub extern "C" fn mvt_is_canonical(alloc: Global, bytes: &[u8]) -> bool {
    let Ok(tile) = decode(alloc, bytes) else {
        return false;
    };
    let Ok(mut sink) = MemorySink::new(alloc, bytes.len(), usize::MAX, u64::MAX, false) else {
        return false;
    };
    write_tile(alloc, &tile, &mut sink).is_ok() && sink.taken() == bytes
}

/// Reads an item, and counts its features and 1. 0 for a longer one than the limit too.
#[unsafe(no_mangle)]
pub extern "C" fn mvt_read_item(alloc: Global, payload: &[u8]) -> u64 {
    if payload.len() as u64 > LIMIT {
        return 0;
    }
    match read_item(alloc, payload, 0, 0) {
        Ok(Item::Layer(layer)) => {
            let sum = 1 + layer.features.as_slice().len() as u64;
            mem::forget(layer);
            sum
        }
        Ok(Item::Foreign { .. }) => 1,
        Err(_) => 0,
    }
}
