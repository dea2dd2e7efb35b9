//! A task run over memory, and what several tests compare.
use crate::expect::expect_eq;
use mvt_io::{MemorySink, MemorySource};
use mvt_tasks::{Names, Task, run_task};
use std::alloc::{AllocError, Global};
use std::process::Abort;

// Layer a with the point (25,17).
pub(super) const ONE_POINT: &[u8] =
    b"\x1A\x11\x78\x02\x0A\x01a\x12\x07\x18\x01\x22\x03\x09\x32\x22\x28\x80\x20";

// That layer, and the same point in the layer b.
pub(super) const BOTH: &[u8] =
    b"\x1A\x11\x78\x02\x0A\x01a\x12\x07\x18\x01\x22\x03\x09\x32\x22\x28\x80\x20\
    \x1A\x11\x78\x02\x0A\x01b\x12\x07\x18\x01\x22\x03\x09\x32\x22\x28\x80\x20";

// That layer with a triangle instead, whose ring goes the wrong way round.
pub(super) const TURNED: &[u8] = b"\x1A\x17\x78\x02\x0A\x01a\x12\x0D\x18\x03\x22\x09\
    \x09\x00\x00\x12\x00\x02\x02\x00\x0F\x28\x80\x20";

// The same, mended.
pub(super) const TURNED_BACK: &[u8] = b"\x1A\x17\x78\x02\x0A\x01a\x12\x0D\x18\x03\x22\x09\
    \x09\x00\x00\x12\x02\x02\x01\x00\x0F\x28\x80\x20";

const POINT_LISTED: &str = "0 3 len 17\n";

const POINT_SHOWN: &str = concat!(
    r#"{"layers":[{"extent":4096,"features":[{"attributes":[],"#,
    r#""geometry":{"points":[[25,17]]},"id":null}],"name":"a"}]}"#,
    "\n"
);

const POINT_DRAWN: &str = concat!(
    r#"<svg xmlns="http://www.w3.org/2000/svg" viewBox="0 0 1 1">"#,
    "\n<style>path{fill:none;stroke:currentColor;stroke-width:.2%;",
    "stroke-linecap:round;stroke-linejoin:round}.points{stroke-width:1%}",
    ".polygons{fill:currentColor;fill-opacity:.2;fill-rule:evenodd}</style>\n",
    r##"<svg color="#0072b2" viewBox="0 0 4096 4096"><title>a</title>"##,
    "\n",
    r#"<path class="points" d="M25 17h0"><title>{"attributes":[],"id":null}</title></path>"#,
    "\n</svg>\n</svg>\n"
);

const POINT_CHECKED: &str = "ok layers 1 features 1 canonical yes\n";

// An input of one byte that is refused, and what is said of it.
pub(super) const NO_WIRE_TYPE: &[u8] = b"\x1B";

pub(super) const NO_WIRE_TYPE_EXPLAINED: &str = "byte 0, tag byte 0x1b: field 3, wire type 3\n\
    A field begins here with a wire type that isn't allowed: only 0, 1, 2 and 5 are.\n\
    0  [1b]\n";

// Each command, and its output for the tile of one point.
pub(super) fn point_written() -> [(Command, &'static [u8]); 9] {
    [
        (Command::Fields, POINT_LISTED.as_bytes()),
        (Command::Show, POINT_SHOWN.as_bytes()),
        (Command::Draw, POINT_DRAWN.as_bytes()),
        (Command::Check, POINT_CHECKED.as_bytes()),
        (Command::Explain, POINT_CHECKED.as_bytes()),
        (Command::Lint, b""),
        (Command::Rewrite, ONE_POINT),
        (Command::Mend, ONE_POINT),
        (Command::Extract(&["a"]), ONE_POINT),
    ]
}

// A task; `Extract` is of the layers of these names.
#[derive(Clone, Copy)]
pub(super) enum Command {
    Fields,
    Show,
    Draw,
    Check,
    Explain,
    Lint,
    Rewrite,
    Mend,
    Extract(&'static [&'static str]),
    Version,
}

pub(super) fn names_of(alloc: Global, texts: &[&str]) -> Result<Vec<String>, AllocError> {
    let mut names = Vec::new(alloc);
    for text in texts {
        names.push(String::from_str(alloc, text)?)?;
    }
    Ok(names)
}

pub(super) fn task_of(alloc: Global, command: Command) -> Result<Task, AllocError> {
    match command {
        Command::Fields => Ok(Task::Fields),
        Command::Show => Ok(Task::Show),
        Command::Draw => Ok(Task::Draw),
        Command::Check => Ok(Task::Check),
        Command::Explain => Ok(Task::Explain),
        Command::Lint => Ok(Task::Lint),
        Command::Rewrite => Ok(Task::Rewrite),
        Command::Mend => Ok(Task::Mend),
        Command::Extract(names) => Ok(Task::Extract(Names::new(names_of(alloc, names)?))),
        Command::Version => Ok(Task::Version),
    }
}

// How a run's devices behave: the most bytes in a call, the first read and the first write that
// fail, whether the flush fails, and the room of the writer.
#[derive(Clone, Copy)]
pub(super) struct Streams {
    pub(super) step: usize,
    pub(super) read_from: u64,
    pub(super) write_from: u64,
    pub(super) flush: bool,
    pub(super) room: usize,
}

pub(super) const SOUND: Streams = Streams {
    step: 65_536,
    read_from: u64::MAX,
    write_from: u64::MAX,
    flush: false,
    room: 2000,
};

pub(super) const ONE_BYTE: Streams = Streams { step: 1, ..SOUND };

pub(super) fn reader_of(
    rt: &(impl Abort + AllocGlobal),
    input: &[u8],
    devices: Streams,
) -> MemorySource {
    let bytes = Vec::from_slice(rt.alloc(), input).expect(rt, "bytes");
    MemorySource::new(bytes, devices.step.max(1), devices.read_from)
}

pub(super) fn writer_of(rt: &(impl Abort + AllocGlobal), devices: Streams) -> MemorySink {
    let step = devices.step.max(1);
    MemorySink::new(
        rt.alloc(),
        devices.room,
        step,
        devices.write_from,
        devices.flush,
    )
    .expect(rt, "a writer")
}

// How often a writer was called.
#[derive(Clone, Copy)]
pub(super) struct Calls {
    pub(super) writes: u64,
    pub(super) flushes: u64,
}

// The run answers this status, and these bytes and this line stand on its streams.
pub(super) fn expect_run(
    rt: &(impl Abort + AllocGlobal),
    command: Command,
    input: &[u8],
    devices: Streams,
    answer: (u8, &[u8], &str),
) -> Calls {
    let mut reader = reader_of(rt, input, devices);
    let mut writer = writer_of(rt, devices);
    let mut errors = writer_of(rt, SOUND);
    let task = task_of(rt.alloc(), command).expect(rt, "a task");
    let status = run_task(rt.alloc(), task, &mut reader, &mut writer, &mut errors);
    drop(reader);
    expect_eq!(rt; status, answer.0);
    expect_eq!(rt; errors.taken(), answer.2.as_bytes());
    drop(errors);
    expect_eq!(rt; writer.taken(), answer.1);
    let calls = Calls {
        writes: writer.calls(),
        flushes: writer.flushes(),
    };
    drop(writer);
    calls
}
