//! Readers and writers, also such as fail.
use super::support::*;
use crate::expect::{expect, expect_eq};
use mvt_tasks::run_task;
use std::process::Abort;

const READ_FAILED: &str = "mvt: read failed\n";

const WRITE_FAILED: &str = "mvt: write failed\n";

const WIRE_TYPE: &str = "layer - feature - at 0: 4 WireType\n";

// The writer isn't touched.
fn expect_untouched(rt: &impl Abort, calls: Calls) {
    expect_eq!(rt; calls.writes, 0);
    expect_eq!(rt; calls.flushes, 0);
}

// The version is told whatever the input is, which isn't read.
#[test]
fn tells_the_version(rt: HostRuntime) {
    let failing = Streams {
        read_from: 0,
        ..SOUND
    };
    let answer: (u8, &[u8], &str) = (0, b"mvt 0.4.0\n", "");
    let calls = expect_run(&rt, Command::Version, ONE_POINT, failing, answer);
    expect_eq!(rt; calls.flushes, 1);
}

// A complete output is flushed once, and that of a refused tile isn't touched; the fields are told
// up to the broken one.
#[test]
fn flushes_once_or_writes_nothing(rt: HostRuntime) {
    for (command, written) in point_written() {
        let calls = expect_run(&rt, command, ONE_POINT, SOUND, (0, written, ""));
        expect_eq!(rt; calls.flushes, 1);
    }
    for command in [
        Command::Show,
        Command::Draw,
        Command::Check,
        Command::Rewrite,
    ] {
        let calls = expect_run(&rt, command, b"\x1B", SOUND, (1, b"", WIRE_TYPE));
        expect_untouched(&rt, calls);
    }
    let calls = expect_run(
        &rt,
        Command::Extract(&["a"]),
        b"\x1B",
        SOUND,
        (1, b"", WIRE_TYPE),
    );
    expect_untouched(&rt, calls);
    let missing = (1, b"".as_slice(), "mvt: layer not found: b\n");
    let calls = expect_run(&rt, Command::Extract(&["b"]), ONE_POINT, SOUND, missing);
    expect_untouched(&rt, calls);
    for (input, lines) in [
        (b"\x1B".as_slice(), "".as_bytes()),
        (b"\x20\x05\x1B", b"0 4 varint 5\n"),
    ] {
        let line = if lines.is_empty() {
            WIRE_TYPE
        } else {
            "layer - feature - at 2: 4 WireType\n"
        };
        let calls = expect_run(&rt, Command::Fields, input, SOUND, (1, lines, line));
        expect_eq!(rt; calls.flushes, 1);
    }
}

// What is said of a refused tile is put out once, beside the line of its fault.
#[test]
fn explains_a_broken_tile(rt: HostRuntime) {
    let said = (1, NO_WIRE_TYPE_EXPLAINED.as_bytes(), WIRE_TYPE);
    let calls = expect_run(&rt, Command::Explain, NO_WIRE_TYPE, SOUND, said);
    expect_eq!(rt; calls.flushes, 1);
}

// Each read fails in turn, of which there is one a byte and one at the end; the writer isn't
// touched.
fn expect_reads_fail(rt: &(impl Abort + AllocGlobal), command: Command) {
    for read_from in 0..=ONE_POINT.len() {
        let devices = Streams {
            read_from: read_from as u64,
            ..ONE_BYTE
        };
        let calls = expect_run(rt, command, ONE_POINT, devices, (3, b"", READ_FAILED));
        expect_untouched(rt, calls);
    }
}

// Each write fails in turn, and then the flush; the writer has taken what was written before.
fn expect_writes_fail(rt: &(impl Abort + AllocGlobal), command: Command, written: &[u8]) {
    for write_from in 0..written.len() {
        let devices = Streams {
            write_from: write_from as u64,
            ..ONE_BYTE
        };
        let front = (3, &written[..write_from], WRITE_FAILED);
        expect_run(rt, command, ONE_POINT, devices, front);
    }
    let flush = Streams {
        flush: true,
        ..ONE_BYTE
    };
    expect_run(rt, command, ONE_POINT, flush, (3, written, WRITE_FAILED));
    expect_run(rt, command, ONE_POINT, ONE_BYTE, (0, written, ""));
}

#[test]
fn prints_failed_devices(rt: HostRuntime) {
    for (command, written) in point_written() {
        expect_reads_fail(&rt, command);
        expect_writes_fail(&rt, command, written);
    }
}

// The first that occurs ends the run.
#[test]
fn prints_the_first_failure(rt: HostRuntime) {
    let ten = Streams { room: 10, ..SOUND };
    let shown = (3, b"{\"layers\":".as_slice(), WRITE_FAILED);
    expect_run(&rt, Command::Show, ONE_POINT, ten, shown);
    let five = Streams {
        room: 5,
        ..ONE_BYTE
    };
    let front = (3, b"\x1A\x11\x78\x02\x0A".as_slice(), WRITE_FAILED);
    expect_run(&rt, Command::Rewrite, ONE_POINT, five, front);

    // A fault of the fields isn't told where the flush failed.
    let flush = Streams {
        flush: true,
        ..SOUND
    };
    let lines = (3, b"0 4 varint 5\n".as_slice(), WRITE_FAILED);
    expect_run(&rt, Command::Fields, b"\x20\x05\x1A", flush, lines);

    // A fault in the first read ends `rewrite`, where `check` reads on.
    let second = Streams {
        read_from: 1,
        ..SOUND
    };
    let fault = (1, b"".as_slice(), WIRE_TYPE);
    expect_run(&rt, Command::Rewrite, b"\x1B", second, fault);
    let unread = (3, b"".as_slice(), READ_FAILED);
    expect_run(&rt, Command::Check, b"\x1B", second, unread);
}

// Faults of the error stream are ignored.
#[test]
fn ignores_the_error_stream(rt: HostRuntime) {
    let mut reader = reader_of(&rt, ONE_POINT, Streams { step: 7, ..SOUND });
    let mut writer = writer_of(&rt, Streams { step: 7, ..SOUND });
    let mut errors = writer_of(
        &rt,
        Streams {
            write_from: 0,
            flush: true,
            ..SOUND
        },
    );
    let task = task_of(rt.alloc(), Command::Extract(&["b"])).expect(&rt, "a task");
    let status = run_task(rt.alloc(), task, &mut reader, &mut writer, &mut errors);
    drop(reader);
    expect_eq!(rt; status, 1);
    expect_eq!(rt; writer.calls(), 0);
    drop(writer);
    expect!(rt; errors.taken().is_empty());
    drop(errors);
}
