//! Growths that are refused memory.
use super::support::*;
use crate::expect::{expect, expect_eq};
use mvt_io::{MemorySink, MemorySource};
use mvt_tasks::run_task;
use std::process::Abort;

// What a run answers where memory isn't wanting: its status, its output and its line.
type Answer<'a> = (u8, &'a [u8], &'a str);

// Want of memory, or the answer; how often it was want of memory.
fn wants(
    rt: &(impl Abort + AllocGlobal),
    command: Command,
    input: &[u8],
    answer: Answer<'_>,
) -> u32 {
    let Ok(bytes) = Vec::from_slice(rt.alloc(), input) else {
        return 1;
    };
    let mut reader = MemorySource::new(bytes, 65_536, u64::MAX);
    let wanted = wants_of(rt, command, &mut reader, answer);
    drop(reader);
    wanted
}

fn wants_of(
    rt: &(impl Abort + AllocGlobal),
    command: Command,
    reader: &mut MemorySource,
    answer: Answer<'_>,
) -> u32 {
    let Ok(mut writer) = MemorySink::new(rt.alloc(), 2000, 65_536, u64::MAX, false) else {
        return 1;
    };
    let wanted = wants_into(rt, command, reader, &mut writer, answer);
    drop(writer);
    wanted
}

fn wants_into(
    rt: &(impl Abort + AllocGlobal),
    command: Command,
    reader: &mut MemorySource,
    writer: &mut MemorySink,
    answer: Answer<'_>,
) -> u32 {
    let Ok(mut errors) = MemorySink::new(rt.alloc(), 2000, 65_536, u64::MAX, false) else {
        return 1;
    };
    let wanted = match task_of(rt.alloc(), command) {
        Ok(task) => {
            let status = run_task(rt.alloc(), task, reader, writer, &mut errors);
            is_wanted(rt, status, writer, errors.taken(), answer)
        }
        Err(_) => 1,
    };
    drop(errors);
    wanted
}

// With want of memory nothing is written.
fn is_wanted(
    rt: &impl Abort,
    status: u8,
    writer: &MemorySink,
    printed: &[u8],
    answer: Answer<'_>,
) -> u32 {
    if status == 4 {
        expect_eq!(rt; printed, b"mvt: out of memory\n".as_slice());
        expect_eq!(rt; writer.calls(), 0);
        expect_eq!(rt; writer.flushes(), 0);
        return 1;
    }
    expect_eq!(rt; status, answer.0);
    expect_eq!(rt; writer.taken(), answer.1);
    expect_eq!(rt; printed, answer.2.as_bytes());
    0
}

// At most one of two turns wants memory.
fn expect_once(
    rt: &(impl Abort + AllocGlobal),
    command: Command,
    input: &[u8],
    answer: Answer<'_>,
) {
    let first = wants(rt, command, input, answer);
    let second = wants(rt, command, input, answer);
    expect!(rt; first.saturating_add(second) <= 1);
}

#[test]
fn texts_refused_memory(rt: HostRuntime) {
    let input = b"\x1A\x03\x0A\x01a\x20\x05\x1A";
    let lines = b"0 3 len 3\n5 4 varint 5\n".as_slice();
    let cut = (1, lines, "layer - feature - at 7: 1 Truncated\n");
    expect_once(&rt, Command::Fields, input, cut);
    for (command, written) in point_written() {
        expect_once(&rt, command, ONE_POINT, (0, written, ""));
    }
}

#[test]
fn tiles_refused_memory(rt: HostRuntime) {
    expect_once(&rt, Command::Rewrite, BOTH, (0, BOTH, ""));
    let change = "mended layer 0 feature 0: TurnedRing 0\n";
    expect_once(&rt, Command::Mend, TURNED, (0, TURNED_BACK, change));
    expect_once(&rt, Command::Extract(&["b", "a"]), BOTH, (0, BOTH, ""));
    expect_once(&rt, Command::Extract(&["a"]), BOTH, (0, ONE_POINT, ""));
}

#[test]
fn faults_refused_memory(rt: HostRuntime) {
    let rows: [(Command, &[u8], &str); 4] = [
        (
            Command::Extract(&["c"]),
            ONE_POINT,
            "mvt: layer not found: c\n",
        ),
        (
            Command::Show,
            b"\x1B",
            "layer - feature - at 0: 4 WireType\n",
        ),
        (
            Command::Check,
            b"\x1A\x03\x0A\x01a",
            "layer 0 feature - at 0: 8 NoVersion\n",
        ),
        (
            Command::Rewrite,
            b"\x18\x00",
            "layer - feature - at 0: 5 WrongType\n",
        ),
    ];
    for (command, input, line) in rows {
        expect_once(&rt, command, input, (1, b"", line));
    }
    let line = "layer - feature - at 0: 4 WireType\n";
    let said = (1, NO_WIRE_TYPE_EXPLAINED.as_bytes(), line);
    expect_once(&rt, Command::Explain, NO_WIRE_TYPE, said);
}
