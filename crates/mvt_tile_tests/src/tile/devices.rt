//! Reading from readers and writing to writers, also such as fail.
use super::rows::{FOREIGN, ONE_POINT};
use super::support::{outer, reader_of, tile_of};
use crate::expect::{expect, expect_eq};
use mvt_io::{MemorySink, MemorySource};
use mvt_message::Cause;
use mvt_tile::{
    DecodeError, Tile, WriteError, is_valid, read_tile, rewrite_tile, write_and_read, write_tile,
};
use std::io::ErrorKind;
use std::process::Abort;

// A writer with this room, which takes so many bytes at a time and fails from one of its writes on.
fn writer_of(
    rt: &(impl Abort + AllocGlobal),
    room: usize,
    step: usize,
    fails_from: u64,
    flush_fails: bool,
) -> MemorySink {
    MemorySink::new(rt.alloc(), room, step, fails_from, flush_fails).expect(rt, "a writer")
}

// What comes of writing a tile, and what the writer took, which was never flushed.
fn expect_written(
    rt: &(impl Abort + AllocGlobal),
    tile: &Tile,
    mut writer: MemorySink,
    answer: Result<(), WriteError>,
    taken: &[u8],
) {
    expect!(rt; is_valid(tile));
    expect_eq!(rt; write_tile(rt.alloc(), tile, &mut writer), answer);
    expect_eq!(rt; writer.taken(), taken);
    expect_eq!(rt; writer.flushes(), 0);
    drop(writer);
}

#[test]
fn writes_in_steps(rt: HostRuntime) {
    let tile = tile_of(&rt, ONE_POINT);
    for step in [1, 2, 7] {
        let writer = writer_of(&rt, 19, step, u64::MAX, true);
        expect_written(&rt, &tile, writer, Ok(()), ONE_POINT);
    }
    let stalled = Err(WriteError::Write(ErrorKind::WriteZero));
    let writer = writer_of(&rt, 19, 0, u64::MAX, false);
    expect_written(&rt, &tile, writer, stalled, b"");
    // Room for five bytes; and one byte a write, of which one fails.
    let other = Err(WriteError::Write(ErrorKind::Other));
    let writer = writer_of(&rt, 5, 19, u64::MAX, false);
    expect_written(&rt, &tile, writer, other, &ONE_POINT[..5]);
    for count in 0..ONE_POINT.len() {
        let writer = writer_of(&rt, 19, 1, count as u64, false);
        expect_written(&rt, &tile, writer, other, &ONE_POINT[..count]);
    }
    drop(tile);
}

// A reader gives this tile, or its error.
fn expect_read(
    rt: &(impl Abort + AllocGlobal),
    mut reader: MemorySource,
    expected: Result<&Tile, DecodeError>,
) {
    let read = read_tile(rt.alloc(), &mut reader);
    drop(reader);
    expect_eq!(rt; read.as_ref().err(), expected.as_ref().err());
    expect!(rt; read.as_ref().ok() == expected.ok());
    drop(read);
}

fn expect_rewrite_error(
    rt: &(impl Abort + AllocGlobal),
    mut reader: MemorySource,
    error: DecodeError,
) {
    let made = rewrite_tile(rt.alloc(), &mut reader);
    drop(reader);
    expect_eq!(rt; made.err(), Some(error));
}

#[test]
fn reads_in_steps(rt: HostRuntime) {
    let tile = tile_of(&rt, ONE_POINT);
    for step in [1, 2, 7, 19] {
        let reader = reader_of(&rt, ONE_POINT, step, u64::MAX);
        expect_read(&rt, reader, Ok(&tile));
    }
    drop(tile);
    let error = DecodeError::Read(ErrorKind::Other);
    for fails_from in 0..20 {
        let reader = reader_of(&rt, ONE_POINT, 1, fails_from);
        expect_read(&rt, reader, Err(error));
        let reader = reader_of(&rt, ONE_POINT, 1, fails_from);
        expect_rewrite_error(&rt, reader, error);
    }
}

#[test]
fn reads_nothing_after_a_fault(rt: HostRuntime) {
    let error = outer(0, Cause::WireType);
    let mut reader = reader_of(&rt, b"\x1B", 1, 1);
    expect_eq!(rt; read_tile(rt.alloc(), &mut reader).err(), Some(error));
    expect_eq!(rt; reader.calls(), 1);
    drop(reader);
    let mut reader = reader_of(&rt, b"\x1B", 1, 1);
    expect_eq!(rt; rewrite_tile(rt.alloc(), &mut reader).err(), Some(error));
    expect_eq!(rt; reader.calls(), 1);
    drop(reader);
}

fn expect_trip(rt: &(impl Abort + AllocGlobal), tile: &Tile, bytes: &[u8]) {
    expect!(rt; is_valid(tile));
    let mut writer = writer_of(rt, 19, 2, u64::MAX, true);
    let mut reader = reader_of(rt, bytes, 1, u64::MAX);
    let read = write_and_read(rt.alloc(), tile, &mut writer, &mut reader);
    drop(reader);
    expect_eq!(rt; writer.taken(), bytes);
    drop(writer);
    let read = read.expect(rt, "a written tile").expect(rt, "a tile");
    expect!(rt; read == *tile);
    drop(read);
}

#[test]
fn writes_and_reads(rt: HostRuntime) {
    for input in [b"".as_slice(), ONE_POINT, FOREIGN] {
        let tile = tile_of(&rt, input);
        expect_trip(&rt, &tile, input);
        drop(tile);
    }
}
