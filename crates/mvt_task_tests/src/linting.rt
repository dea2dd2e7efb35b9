//! The command `lint`, of an input and of files.
use super::support::*;
use crate::expect::expect_eq;
use mvt_base::Text;
use mvt_tasks::{MemoryFile, MemoryFolder, Task, tell_files};
use std::alloc::{AllocError, Global};
use std::process::Abort;

// Layer a with a feature that has no field.
const NO_GEOMETRY: &[u8] = b"\x1A\x0A\x78\x02\x0A\x01a\x12\x00\x28\x80\x20";

const FOUND: &str = "lint NoGeometry layer 0 feature 0\n";

#[test]
fn tells_findings(rt: HostRuntime) {
    let calls = expect_run(
        &rt,
        Command::Lint,
        NO_GEOMETRY,
        SOUND,
        (5, FOUND.as_bytes(), ""),
    );
    expect_eq!(rt; calls.flushes, 1);
    let calls = expect_run(&rt, Command::Lint, ONE_POINT, SOUND, (0, b"", ""));
    expect_eq!(rt; calls.flushes, 1);
    let fault = (1, b"".as_slice(), "layer - feature - at 0: 4 WireType\n");
    let calls = expect_run(&rt, Command::Lint, NO_WIRE_TYPE, SOUND, fault);
    expect_eq!(rt; calls.flushes, 0);
}

fn folder_of(alloc: Global) -> Result<MemoryFolder, AllocError> {
    let known: [(&str, Option<&[u8]>); 4] = [
        ("good", Some(ONE_POINT)),
        ("found", Some(NO_GEOMETRY)),
        ("bad", Some(NO_WIRE_TYPE)),
        ("locked", None),
    ];
    let mut files = Vec::new(alloc);
    for (name, bytes) in known {
        let bytes = match bytes {
            None => None,
            Some(bytes) => Some(Vec::from_slice(alloc, bytes)?),
        };
        files.push(MemoryFile {
            name: Text::from_str(alloc, name)?,
            bytes,
            fails_from: u64::MAX,
        })?;
    }
    Ok(MemoryFolder::new(alloc, files))
}

// The lint of these files answers this status, and puts these bytes and lines on its streams.
fn expect_lint(
    rt: &(impl Abort + AllocGlobal),
    names: &[&str],
    status: u8,
    written: &str,
    printed: &str,
) {
    let names = names_of(rt.alloc(), names).expect(rt, "names");
    let mut folder = folder_of(rt.alloc()).expect(rt, "a folder");
    let mut writer = writer_of(rt, SOUND);
    let mut errors = writer_of(rt, SOUND);
    let task = Task::Lint;
    let told = tell_files(
        rt.alloc(),
        &task,
        &names,
        &mut folder,
        &mut writer,
        &mut errors,
    );
    drop(names);
    drop(folder);
    drop(task);
    expect_eq!(rt; told, status);
    expect_eq!(rt; writer.taken(), written.as_bytes());
    expect_eq!(rt; errors.taken(), printed.as_bytes());
    drop(writer);
    drop(errors);
}

#[test]
fn lints_files(rt: HostRuntime) {
    let found = "found: lint NoGeometry layer 0 feature 0\n";
    let bad = "bad: layer - feature - at 0: 4 WireType\n";
    expect_lint(&rt, &["good"], 0, "", "");
    expect_lint(&rt, &["found"], 5, found, "");
    let sum = "mvt: 2 tiles: 2 accepted, 0 refused, 0 unread\n";
    expect_lint(&rt, &["found", "good"], 5, found, sum);
    expect_lint(&rt, &["good", "good"], 0, "", sum);
    let one_refused = concat!(
        "bad: layer - feature - at 0: 4 WireType\n",
        "mvt: 2 tiles: 1 accepted, 1 refused, 0 unread\n"
    );
    expect_lint(&rt, &["found", "bad"], 1, found, one_refused);
    let one_unread = concat!(
        "locked: read failed\n",
        "bad: layer - feature - at 0: 4 WireType\n",
        "mvt: 3 tiles: 1 accepted, 1 refused, 1 unread\n"
    );
    expect_lint(&rt, &["locked", "found", "bad"], 3, found, one_unread);
    expect_lint(&rt, &["bad"], 1, "", bad);
}
