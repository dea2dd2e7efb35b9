//! The command `check` over files in memory.
ghost use Rattle.std.specs.Prelude.{◌≡◌, Some, map, string_bytes};
ghost use Rattle.mvt_io.specs.Devices.{outflow_of};
ghost use Rattle.mvt_tasks.specs.Checks.{ChecksFiles, run_state};
ghost use Rattle.mvt_tasks.specs.Folders.{held_in};

use super::support::*;
use crate::expect::{expect, expect_eq};
use mvt_base::{LIMIT, Text};
use mvt_io::MemorySink;
use mvt_tasks::{MemoryFile, MemoryFolder, check_files};
use std::alloc::{AllocError, Global};
use std::process::Abort;

// A tile, one that is refused, one that can't be opened, one whose second read fails, one with a
// note, and one with a name that begins with a hyphen: the name, the bytes, and the first read that
// fails.
const FILES: [(&str, Option<&[u8]>, u64); 6] = [
    ("good", Some(ONE_POINT), u64::MAX),
    ("bad", Some(b"\x1B"), u64::MAX),
    ("locked", None, u64::MAX),
    ("torn", Some(ONE_POINT), 1),
    ("noted", Some(b""), u64::MAX),
    ("-x", Some(ONE_POINT), u64::MAX),
];

fn file_of(
    alloc: Global,
    name: &str,
    bytes: Option<&[u8]>,
    fails_from: u64,
) -> Result<MemoryFile, AllocError> {
    let bytes = match bytes {
        None => None,
        Some(bytes) => Some(Vec::from_slice(alloc, bytes)?),
    };
    Ok(MemoryFile {
        name: Text::from_str(alloc, name)?,
        bytes,
        fails_from,
    })
}

fn folder_of(alloc: Global) -> Result<MemoryFolder, AllocError> {
    let mut files = Vec::new(alloc);
    for (name, bytes, fails_from) in FILES {
        files.push(file_of(alloc, name, bytes, fails_from)?)?;
    }
    Ok(MemoryFolder::new(alloc, files))
}

// Files whose bytes are known, and writers that keep theirs: what is said of each file is what
// `check` answers for its bytes.
fn check_known(
    alloc: Global,
    names: &[String],
    folder: &mut MemoryFolder,
    writer: &mut MemorySink,
    errors: &mut MemorySink,
) -> u8
    ensures { ChecksFiles LIMIT (held_in folder.old.files) (map string_bytes names.now)
        (run_state (Some folder.old.visits) (outflow_of writer.old) (outflow_of errors.old))
        (run_state (Some folder.new.visits) (outflow_of writer.new) (outflow_of errors.new))
        result }
{
    check_files(alloc, names, folder, writer, errors)
}

// The status of a check of these files, which are all closed then.
fn status_of(
    rt: &(impl Abort + AllocGlobal),
    names: &[&str],
    writer: &mut MemorySink,
    errors: &mut MemorySink,
) -> u8 {
    let names = names_of(rt.alloc(), names).expect(rt, "names");
    let mut folder = folder_of(rt.alloc()).expect(rt, "a folder");
    let status = check_known(rt.alloc(), &names, &mut folder, writer, errors);
    let open = folder.open_files();
    expect!(rt; open.now == 0 && open.most < 2);
    drop(folder);
    drop(names);
    status
}

// What a check of these files answers: its status, its output, and its error stream.
fn expect_checked(
    rt: &(impl Abort + AllocGlobal),
    names: &[&str],
    devices: Streams,
    answer: (u8, &str, &str),
) {
    let mut writer = writer_of(rt, devices);
    let mut errors = writer_of(rt, SOUND);
    let status = status_of(rt, names, &mut writer, &mut errors);
    expect_eq!(rt; status, answer.0);
    expect_eq!(rt; writer.taken(), answer.1.as_bytes());
    drop(writer);
    expect_eq!(rt; errors.taken(), answer.2.as_bytes());
    drop(errors);
}

const GOOD: &str = "good: ok layers 1 features 1 canonical yes\n";

const BAD: &str = "bad: layer - feature - at 0: 4 WireType\n";

const NOTED: &str = "noted: ok layers 0 features 0 canonical yes\nnoted: note NoLayers\n";

#[test]
fn checks_files(rt: HostRuntime) {
    expect_checked(&rt, &["good"], SOUND, (0, GOOD, ""));
    expect_checked(&rt, &["noted"], SOUND, (0, NOTED, ""));
    expect_checked(&rt, &["bad"], SOUND, (1, "", BAD));
    let hyphen = "-x: ok layers 1 features 1 canonical yes\n";
    expect_checked(&rt, &["-x"], SOUND, (0, hyphen, ""));
    for (name, line) in [
        ("locked", "locked: read failed\n"),
        ("torn", "torn: read failed\n"),
        ("absent", "absent: read failed\n"),
        ("", ": read failed\n"),
    ] {
        expect_checked(&rt, &[name], SOUND, (3, "", line));
    }
}

const GOOD_AND_NOTED: &str = concat!(
    "good: ok layers 1 features 1 canonical yes\n",
    "noted: ok layers 0 features 0 canonical yes\nnoted: note NoLayers\n"
);

// A refused or unread file doesn't end the run, and the status tells the worst.
#[test]
fn checks_many_files(rt: HostRuntime) {
    let names = ["good", "torn", "bad", "noted", "locked"];
    let printed = concat!(
        "torn: read failed\n",
        "bad: layer - feature - at 0: 4 WireType\n",
        "locked: read failed\n",
        "mvt: 5 tiles: 2 accepted, 1 refused, 2 unread\n"
    );
    expect_checked(&rt, &names, SOUND, (3, GOOD_AND_NOTED, printed));
    let refused = concat!(
        "bad: layer - feature - at 0: 4 WireType\n",
        "mvt: 2 tiles: 1 accepted, 1 refused, 0 unread\n"
    );
    expect_checked(&rt, &["bad", "good"], SOUND, (1, GOOD, refused));
    let twice = concat!(
        "good: ok layers 1 features 1 canonical yes\n",
        "good: ok layers 1 features 1 canonical yes\n"
    );
    let both = "mvt: 2 tiles: 2 accepted, 0 refused, 0 unread\n";
    expect_checked(&rt, &["good", "good"], SOUND, (0, twice, both));
}

// After a failed write nothing more is checked, and after a failed flush nothing is summed up.
#[test]
fn checks_until_a_write_fails(rt: HostRuntime) {
    let names = ["good", "locked", "noted"];
    let five = Streams { room: 5, ..SOUND };
    expect_checked(&rt, &names, five, (3, "good:", "mvt: write failed\n"));
    let flush = Streams {
        flush: true,
        ..SOUND
    };
    let printed = "locked: read failed\nmvt: write failed\n";
    expect_checked(&rt, &names, flush, (3, GOOD_AND_NOTED, printed));
}

// Want of memory, or the answer; how often it was want of memory. All files are closed then.
fn wants_files(rt: &(impl Abort + AllocGlobal)) -> u32 {
    let Ok(names) = names_of(rt.alloc(), &["good", "locked"]) else {
        return 1;
    };
    let wanted = wants_of(rt, &names);
    drop(names);
    wanted
}

fn wants_of(rt: &(impl Abort + AllocGlobal), names: &[String]) -> u32 {
    let Ok(mut folder) = folder_of(rt.alloc()) else {
        return 1;
    };
    let wanted = wants_in(rt, names, &mut folder);
    let open = folder.open_files();
    expect!(rt; open.now == 0 && open.most < 2);
    drop(folder);
    wanted
}

fn wants_in(rt: &(impl Abort + AllocGlobal), names: &[String], folder: &mut MemoryFolder) -> u32 {
    let Ok(mut writer) = MemorySink::new(rt.alloc(), 2000, 65_536, u64::MAX, false) else {
        return 1;
    };
    let wanted = wants_into(rt, names, folder, &mut writer);
    drop(writer);
    wanted
}

fn wants_into(
    rt: &(impl Abort + AllocGlobal),
    names: &[String],
    folder: &mut MemoryFolder,
    writer: &mut MemorySink,
) -> u32 {
    let Ok(mut errors) = MemorySink::new(rt.alloc(), 2000, 65_536, u64::MAX, false) else {
        return 1;
    };
    let status = check_known(rt.alloc(), names, folder, writer, &mut errors);
    let wanted = wants(rt, status, writer.taken(), errors.taken());
    drop(errors);
    wanted
}

fn wants(rt: &impl Abort, status: u8, written: &[u8], printed: &[u8]) -> u32 {
    if status == 4 {
        expect!(rt; GOOD.as_bytes().starts_with(written));
        expect!(rt; printed.ends_with(b"mvt: out of memory\n"));
        return 1;
    }
    expect_eq!(rt; status, 3);
    expect_eq!(rt; written, GOOD.as_bytes());
    let lines = "locked: read failed\nmvt: 2 tiles: 1 accepted, 0 refused, 1 unread\n";
    expect_eq!(rt; printed, lines.as_bytes());
    0
}

#[test]
fn files_refused_memory(rt: HostRuntime) {
    let first = wants_files(&rt);
    let second = wants_files(&rt);
    expect!(rt; first.saturating_add(second) <= 1);
}
