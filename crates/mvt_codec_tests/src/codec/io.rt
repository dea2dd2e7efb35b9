//! The devices, the hosts and the transfers on one small tile.
use crate::expect::{expect, expect_eq};
use mvt_io::*;
use std::alloc::{AllocError, Global};
use std::io;
use std::io::{ErrorKind, Read, Write};
use std::process::Abort;

// One layer with one point.
const TILE: [u8; 19] = [
    0x1A, 0x11, 0x78, 0x02, 0x0A, 0x01, 0x61, 0x12, 0x07, 0x18, 0x01, 0x22, 0x03, 0x09, 0x32, 0x22,
    0x28, 0x80, 0x20,
];

fn tile_source(alloc: Global, step: usize, fails_from: u64) -> Result<MemorySource, AllocError> {
    let bytes = Vec::from_slice(alloc, &TILE)?;
    Ok(MemorySource::new(bytes, step.max(1), fails_from))
}

// A stream that is gone.
#[derive(Drop)]
struct Broken;

impl Read for Broken {
    fn read(&mut self, _buf: &mut [u8]) -> io::Result<usize> {
        Err(io::Error::from(ErrorKind::ConnectionReset))
    }
}

impl Write for Broken {
    fn write(&mut self, _buf: &[u8]) -> io::Result<usize> {
        Err(io::Error::from(ErrorKind::BrokenPipe))
    }

    fn flush(&mut self) -> io::Result<()> {
        Err(io::Error::from(ErrorKind::StorageFull))
    }
}

// Gives one byte a read, and fails in its third.
#[derive(Drop)]
struct Faltering {
    reads: u8,
}

impl Read for Faltering {
    fn read(&mut self, buf: &mut [u8]) -> io::Result<usize> {
        self.reads = self.reads.saturating_add(1);
        match (self.reads, buf) {
            (3, _) => Err(io::Error::from(ErrorKind::Interrupted)),
            (_, [first, ..]) => {
                *first = self.reads;
                Ok(1)
            }
            _ => Ok(0),
        }
    }
}

// Counts what reaches it.
#[derive(Drop)]
struct Counting {
    writes: u8,
    bytes: usize,
    flushes: u8,
}

impl Write for Counting {
    fn write(&mut self, buf: &[u8]) -> io::Result<usize> {
        self.writes = self.writes.saturating_add(1);
        self.bytes = self.bytes.saturating_add(buf.len());
        Ok(buf.len())
    }

    fn flush(&mut self) -> io::Result<()> {
        self.flushes = self.flushes.saturating_add(1);
        Ok(())
    }
}

// The bytes that a reader gives, which stops at its end or at a limit, and how often it was asked.
fn expect_read(
    rt: &(impl Abort + AllocGlobal),
    step: usize,
    limit: usize,
    expected: Option<&[u8]>,
    calls: u64,
) {
    let mut reader = tile_source(rt.alloc(), step, u64::MAX).expect(rt, "a reader");
    let bytes = read_up_to(rt.alloc(), &mut reader, limit).expect(rt, "bytes");
    expect_eq!(rt; Some(bytes.as_slice()), expected);
    expect_eq!(rt; reader.calls(), calls);
    drop(bytes);
    drop(reader);
}

#[test]
fn reads_whole(rt: HostRuntime) {
    for (step, calls) in [(1, 20), (7, 4), (65_536, 2)] {
        expect_read(&rt, step, 100, Some(TILE.as_slice()), calls);
    }
    expect_read(&rt, 7, 10, TILE.get(..10), 2);
}

// So many bytes, no two neighbours alike.
fn some_bytes(rt: &(impl Abort + AllocGlobal), size: usize) -> Vec<u8> {
    let mut bytes = Vec::new(rt.alloc());
    for index in 0..size {
        bytes.push((index % 251) as u8).expect(rt, "a byte");
    }
    bytes
}

// So many bytes are read up to a limit, by a reader that gives so many at a time and was asked so
// often.
fn expect_many_read(
    rt: &(impl Abort + AllocGlobal),
    size: usize,
    step: usize,
    limit: usize,
    calls: u64,
) {
    let mut reader = MemorySource::new(some_bytes(rt, size), step.max(1), u64::MAX);
    let bytes = read_up_to(rt.alloc(), &mut reader, limit).expect(rt, "bytes");
    let wanted = some_bytes(rt, size.min(limit));
    expect!(rt; bytes == wanted);
    expect_eq!(rt; reader.calls(), calls);
    drop(wanted);
    drop(bytes);
    drop(reader);
}

// The first 16,384 bytes are read in small pieces, the others in pieces of 65,536.
#[test]
fn reads_large_pieces_later(rt: HostRuntime) {
    for (size, calls) in [
        (16_383, 2),
        (16_384, 2),
        (16_385, 3),
        (81_919, 3),
        (81_920, 3),
        (81_921, 4),
    ] {
        expect_many_read(&rt, size, usize::MAX, usize::MAX, calls);
        expect_many_read(&rt, size, usize::MAX, size, calls.saturating_sub(1));
        expect_many_read(&rt, 200_000, usize::MAX, size, calls.saturating_sub(1));
    }
    expect_many_read(&rt, 16_385, 10_000, usize::MAX, 3);
    expect_many_read(&rt, 81_921, 10_000, usize::MAX, 10);
}

// A failure behind the first piece, and one behind a large one.
#[test]
fn reads_large_pieces_until_a_failure(rt: HostRuntime) {
    for fails_from in 0..3 {
        let mut reader = MemorySource::new(some_bytes(&rt, 100_000), usize::MAX, fails_from);
        let error = read_up_to(rt.alloc(), &mut reader, usize::MAX).err();
        expect_eq!(rt; error, Some(ReadError::Read(ErrorKind::Other)));
        expect_eq!(rt; reader.calls(), fails_from + 1);
        drop(reader);
    }
}

#[test]
fn reads_until_a_failure(rt: HostRuntime) {
    let mut reader = tile_source(rt.alloc(), 1, 5).expect(&rt, "a reader");
    let error = read_up_to(rt.alloc(), &mut reader, 100).err();
    expect_eq!(rt; error, Some(ReadError::Read(ErrorKind::Other)));
    expect_eq!(rt; reader.calls(), 6);
    drop(reader);
}

#[test]
fn writes_whole(rt: HostRuntime) {
    let mut writer = MemorySink::new(rt.alloc(), 19, 1, u64::MAX, false).expect(&rt, "a writer");
    expect_eq!(rt; write_all(&mut writer, &TILE), Ok(()));
    expect_eq!(rt; writer.taken(), TILE.as_slice());
    expect_eq!(rt; writer.calls(), 19);
    expect_eq!(rt; writer.flushes(), 0);
    // Its room is used up, which an empty piece doesn't mind.
    expect_eq!(rt; writer.write(&[]), Ok(0));
    expect_eq!(rt; writer.write(&[7]), Err(ErrorKind::Other));
    expect_eq!(rt; writer.flush(), Ok(()));
    expect_eq!(rt; writer.flushes(), 1);
    drop(writer);
}

// A writer of this room, which takes so many bytes at a time and fails from a write on, takes this
// front of the tile, and fails to flush.
fn expect_write_fails(
    rt: &(impl Abort + AllocGlobal),
    room: usize,
    step: usize,
    fails_from: u64,
    front: Option<&[u8]>,
    kind: ErrorKind,
) {
    let mut writer = MemorySink::new(rt.alloc(), room, step, fails_from, true).expect(
        rt, "a writer",
    );
    expect_eq!(rt; write_all(&mut writer, &TILE), Err(kind));
    expect_eq!(rt; Some(writer.taken()), front);
    expect_eq!(rt; writer.flush(), Err(ErrorKind::Other));
    expect_eq!(rt; writer.flushes(), 1);
    drop(writer);
}

#[test]
fn writes_until_a_failure(rt: HostRuntime) {
    expect_write_fails(&rt, 5, 19, u64::MAX, TILE.get(..5), ErrorKind::Other);
    expect_write_fails(&rt, 19, 2, 3, TILE.get(..6), ErrorKind::Other);
    expect_write_fails(&rt, 19, 0, u64::MAX, TILE.get(..0), ErrorKind::WriteZero);
}

#[test]
fn hosts_pass_on(rt: HostRuntime) {
    let mut reader = Host::new(TILE.as_slice());
    let bytes = read_up_to(rt.alloc(), &mut reader, 100).expect(&rt, "bytes");
    expect_eq!(rt; bytes.as_slice(), TILE.as_slice());
    drop(bytes);
    let mut copy = Vec::new(rt.alloc());
    let mut writer = Host::new(&mut copy);
    expect_eq!(rt; write_all(&mut writer, &TILE), Ok(()));
    expect_eq!(rt; writer.flush(), Ok(()));
    expect_eq!(rt; copy.as_slice(), TILE.as_slice());
    drop(copy);
}

#[test]
fn hosts_pass_failures_on(rt: HostRuntime) {
    let mut gone = Host::new(Broken);
    let error = ReadError::Read(ErrorKind::ConnectionReset);
    expect_eq!(rt; read_up_to(rt.alloc(), &mut gone, 100).err(), Some(error));
    expect_eq!(rt; write_all(&mut gone, &TILE), Err(ErrorKind::BrokenPipe));
    expect_eq!(rt; gone.flush(), Err(ErrorKind::StorageFull));
    let text = format!(in rt.alloc(); "{error}, {}", ReadError::Memory).expect(&rt, "a text");
    expect_eq!(rt; text.as_str(), "read failed, out of memory");
    drop(text);
}

// Every call reaches the inner device once, whole, and fails exactly where that one does.
#[test]
fn hosts_add_nothing(rt: HostRuntime) {
    let mut inner = Counting {
        writes: 0,
        bytes: 0,
        flushes: 0,
    };
    let mut writer = Host::new(&mut inner);
    expect_eq!(rt; writer.write(&[7; 70_000]), Ok(70_000));
    expect_eq!(rt; writer.flush(), Ok(()));
    expect_eq!(rt; (inner.writes, inner.bytes, inner.flushes), (1, 70_000, 1));

    let mut reader = Host::new(Faltering { reads: 0 });
    let mut buffer = [0; 4];
    expect_eq!(rt; reader.read(&mut buffer), Ok(1));
    expect_eq!(rt; reader.read(&mut buffer), Ok(1));
    expect_eq!(rt; reader.read(&mut buffer), Err(ErrorKind::Interrupted));
    expect_eq!(rt; reader.read(&mut buffer), Ok(1));
    expect_eq!(rt; buffer, [4, 0, 0, 0]);
}

fn is_write_refused(rt: &(impl Abort + AllocGlobal)) -> bool {
    match MemorySink::new(rt.alloc(), 19, 19, u64::MAX, false) {
        Ok(mut writer) => {
            expect_eq!(rt; write_all(&mut writer, &TILE), Ok(()));
            expect_eq!(rt; writer.taken(), TILE.as_slice());
            drop(writer);
            false
        }
        Err(AllocError) => true,
    }
}

fn is_read_refused(rt: &(impl Abort + AllocGlobal)) -> bool {
    let Ok(mut reader) = tile_source(rt.alloc(), 7, u64::MAX) else {
        return true;
    };
    let found = read_up_to(rt.alloc(), &mut reader, 100);
    drop(reader);
    match found {
        Ok(bytes) => {
            expect_eq!(rt; bytes.as_slice(), TILE.as_slice());
            drop(bytes);
            false
        }
        Err(error) => {
            expect_eq!(rt; error, ReadError::Memory);
            true
        }
    }
}

// Passes too where one allocation, whichever, is refused.
#[test]
fn refused_growths(rt: HostRuntime) {
    let mut refused = 0u8;
    for _turn in 0..2 {
        refused = refused.saturating_add(u8::from(is_write_refused(&rt)));
        refused = refused.saturating_add(u8::from(is_read_refused(&rt)));
    }
    expect!(rt; refused <= 1);
}
