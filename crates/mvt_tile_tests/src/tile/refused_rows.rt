//! The known tiles, pieces, devices and names, with growths refused. As in the other tests of
//! refused growths, one turn at most wants memory, and the others answer as ever.
use super::rows::*;
use super::support::{expect_failed, joined, names};
use crate::expect::{expect, expect_eq};
use mvt_io::{MemorySink, MemorySource};
use mvt_tile::{
    DecodeError, ExtractError, PutError, Tile, TileDecoder, WriteError, decode, encode, extract,
    is_valid, read_tile, write_tile,
};
use std::alloc::Global;
use std::io::ErrorKind;
use std::process::Abort;

// Inputs, and the canonical bytes of their tiles.
const TILES: [(&[u8], &[u8]); 6] = [
    (b"", b""),
    (ONE_POINT, ONE_POINT),
    (NO_EXTENT, ONE_POINT),
    (VERSION_LAST, ONE_POINT),
    (IN_PIECES, TWO_POINTS),
    (UNPACKED, TWO_POINTS),
];

// Whether an answer, or its encoding, wants memory; if not, these are its canonical bytes.
fn is_refused(
    rt: &(impl Abort + AllocGlobal),
    answer: Result<Tile, DecodeError>,
    canonical: &[u8],
) -> bool {
    match answer {
        Ok(tile) => is_encode_refused(rt, tile, canonical),
        Err(error) => {
            expect_eq!(rt; error, DecodeError::Memory);
            true
        }
    }
}

fn is_encode_refused(rt: &(impl Abort + AllocGlobal), tile: Tile, canonical: &[u8]) -> bool {
    expect!(rt; is_valid(&tile));
    let encoded = encode(rt.alloc(), &tile);
    drop(tile);
    match encoded {
        Ok(bytes) => {
            expect_eq!(rt; bytes.as_slice(), canonical);
            drop(bytes);
            false
        }
        Err(error) => {
            expect_eq!(rt; error, PutError::Memory);
            true
        }
    }
}

// Counts the turns that want memory.
#[derive(Drop)]
struct Turns {
    refused: u32,
}

impl Turns {
    fn count(&mut self, is_refused: bool) {
        self.refused = self.refused.saturating_add(u32::from(is_refused));
    }
}

#[test]
fn refused_tiles(rt: HostRuntime) {
    let mut turns = Turns { refused: 0 };
    for (input, canonical) in TILES {
        for _turn in 0..2 {
            let answer = decode(rt.alloc(), input);
            turns.count(is_refused(&rt, answer, canonical));
        }
    }
    expect!(rt; turns.refused < 2);
}

// Feeds the input in pieces of this size, up to the first error.
fn feed_in(decoder: &mut TileDecoder, input: &[u8], size: usize) -> Result<(), DecodeError> {
    for piece in input.chunks(size.max(1)) {
        decoder.feed(piece)?;
    }
    Ok(())
}

// The tile of such pieces. A want of memory stays.
fn fed_in(rt: &(impl Abort + AllocGlobal), input: &[u8], size: usize) -> Result<Tile, DecodeError> {
    let mut decoder = TileDecoder::new(rt.alloc());
    match feed_in(&mut decoder, input, size) {
        Ok(()) => decoder.finish(),
        Err(error) => {
            expect_eq!(rt; error, DecodeError::Memory);
            expect_failed(rt, decoder, input, DecodeError::Memory);
            Err(error)
        }
    }
}

#[test]
fn refused_pieces(rt: HostRuntime) {
    let mut turns = Turns { refused: 0 };
    for size in 1..=ONE_POINT.len() {
        for _turn in 0..2 {
            let answer = fed_in(&rt, ONE_POINT, size);
            turns.count(is_refused(&rt, answer, ONE_POINT));
        }
    }
    expect!(rt; turns.refused < 2);
}

// A reader of one byte a read, the sixth of which fails.
fn is_read_refused(rt: &(impl Abort + AllocGlobal)) -> bool {
    let Ok(bytes) = Vec::from_slice(rt.alloc(), ONE_POINT) else {
        return true;
    };
    let mut reader = MemorySource::new(bytes, 1, 5);
    let error = read_tile(rt.alloc(), &mut reader).err();
    let is_refused = error == Some(DecodeError::Memory);
    if !is_refused {
        expect_eq!(rt; error, Some(DecodeError::Read(ErrorKind::Other)));
        expect_eq!(rt; reader.calls(), 6);
    }
    drop(reader);
    is_refused
}

// A writer with room for five bytes, and what came of writing to it.
fn is_short_write_refused(
    rt: &impl Abort,
    done: Result<(), WriteError>,
    writer: MemorySink,
) -> bool {
    let is_refused = done == Err(WriteError::Memory);
    if is_refused {
        expect_eq!(rt; writer.calls(), 0);
    } else {
        expect_eq!(rt; done, Err(WriteError::Write(ErrorKind::Other)));
        expect_eq!(rt; writer.taken(), &ONE_POINT[..5]);
    }
    drop(writer);
    is_refused
}

fn is_write_refused(rt: &(impl Abort + AllocGlobal)) -> bool {
    let Ok(mut writer) = MemorySink::new(rt.alloc(), 5, 19, u64::MAX, false) else {
        return true;
    };
    let Ok(tile) = decode(rt.alloc(), ONE_POINT) else {
        return true;
    };
    expect!(rt; is_valid(&tile));
    let done = write_tile(rt.alloc(), &tile, &mut writer);
    drop(tile);
    is_short_write_refused(rt, done, writer)
}

#[test]
fn refused_failing_devices(rt: HostRuntime) {
    let mut turns = Turns { refused: 0 };
    for _turn in 0..2 {
        turns.count(is_read_refused(&rt));
        turns.count(is_write_refused(&rt));
    }
    expect!(rt; turns.refused < 2);
}

// Two layers by their names, in the other order.
fn are_layers_refused(rt: &impl Abort, alloc: Global, tile: &Tile) -> bool {
    let Ok(names) = names(alloc, &["b", "a"]) else {
        return true;
    };
    let picked = extract(alloc, tile, &names);
    drop(names);
    match picked {
        Ok(picked) => {
            expect!(rt; picked == *tile);
            drop(picked);
            false
        }
        Err(error) => {
            expect_eq!(rt; error, ExtractError::Memory);
            true
        }
    }
}

// A name that isn't there takes no memory.
fn is_missing_refused(rt: &impl Abort, alloc: Global, tile: &Tile) -> bool {
    let Ok(names) = names(alloc, &["b", "c"]) else {
        return true;
    };
    let error = extract(alloc, tile, &names).err();
    drop(names);
    expect_eq!(rt; error, Some(ExtractError::MissingLayer(1)));
    false
}

fn is_extract_refused(rt: &impl Abort, alloc: Global) -> bool {
    let Ok(both) = joined(alloc, ONE_POINT, ONE_POINT_B) else {
        return true;
    };
    let made = decode(alloc, &both);
    drop(both);
    let Ok(tile) = made else {
        return true;
    };
    let is_refused = is_missing_refused(rt, alloc, &tile) || are_layers_refused(rt, alloc, &tile);
    drop(tile);
    is_refused
}

#[test]
fn refused_extractions(rt: HostRuntime) {
    let mut turns = Turns { refused: 0 };
    for _turn in 0..2 {
        turns.count(is_extract_refused(&rt, rt.alloc()));
    }
    expect!(rt; turns.refused < 2);
}
