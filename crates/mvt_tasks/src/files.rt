//! The commands `check`, `explain` and `lint` over files.
ghost use Rattle.std.specs.Prelude.{◌≡◌, ◌≢◌, ◌<◌, ◌⊎◌, [], ◌∷◌, ◌++◌, ℕ, List, true, length, map, string_bytes, IfOk, IfErr, IfSome, OnOk, OnErr};
ghost use Rattle.std.specs.List.{flat_map};
ghost use Rattle.std.specs.Io.KnownBytes.{Appends};
ghost use Rattle.mvt_io.specs.Counts.{counted};
ghost use Rattle.mvt_io.specs.States.{NoneFailed};
ghost use Rattle.mvt_tasks.specs.declared.folder.Visit.{Visit as AVisit};
ghost use Rattle.mvt_tasks.specs.Checks.{Checked, FlushesAtMost, EndsEarly, IsFileReply, ReportsFiles, ReportsFile, ChecksFiles, SaysOf, TakesUntil, TellsFiles, Prints, line_printed, marked_text, run_state, status_after, summary, text_of, printed_of, verdict_of, visit_of, written_of};
ghost use Rattle.mvt_tasks.specs.Failures.{FailsReading, FailsWriting};
ghost use Rattle.mvt_tasks.specs.Output.{IsGiven};
ghost use Rattle.mvt_tasks.specs.Visits.{Adds, AddsAll, IsReadAtMost, OneAtATime};

use crate::checking::check;
use crate::explaining::explain;
use crate::failure::Failure;
use crate::folder::Folder;
use crate::linting::lint_tile;
use crate::marks::named;
use crate::reply::{Reply, fail};
use crate::tally::{Tally, Verdict};
use crate::task::Task;
use mvt_base::{LIMIT, Text};
use mvt_io::{Sink, Source, write_all};
use std::alloc::Global;
use std::io::ErrorKind;

/// Checks files, one after another, and answers the status. Each line begins with the file's name.
/// A file that can't be read doesn't end the run, and with more than one file the last line is a
/// summary.
pub fn check_files<F: Folder, W: Sink, E: Sink>(
    alloc: Global,
    names: &[String],
    folder: &mut F,
    writer: &mut W,
    errors: &mut E,
) -> u8
    ensures printed { ChecksFiles LIMIT (F.holds folder.old) (map string_bytes names.now)
        (run_state (F.visits folder.old) (W.state writer.old) (E.state errors.old))
        (run_state (F.visits folder.new) (W.state writer.new) (E.state errors.new)) result }
    ensures one { OneAtATime (F.open_files folder.old) (F.open_files folder.new) }
    ensures sound { result < 2
        → NoneFailed (W.state writer.old).faults (W.state writer.new).faults }
{
    tell_files(alloc, &Task::Check, names, folder, writer, errors)
}

/// The same for a task that checks, explains or lints the files; any other task checks them.
pub fn tell_files<F: Folder, W: Sink, E: Sink>(
    alloc: Global,
    task: &Task,
    names: &[String],
    folder: &mut F,
    writer: &mut W,
    errors: &mut E,
) -> u8
    ensures printed { TellsFiles (SaysOf LIMIT task.now) (F.holds folder.old)
        (map string_bytes names.now)
        (run_state (F.visits folder.old) (W.state writer.old) (E.state errors.old))
        (run_state (F.visits folder.new) (W.state writer.new) (E.state errors.new)) result }
    ensures one { OneAtATime (F.open_files folder.old) (F.open_files folder.new) }
    ensures sound { IsGiven result
        → NoneFailed (W.state writer.old).faults (W.state writer.new).faults }
{
    match tell_all(alloc, task, names, folder, writer, errors) {
        Ok(tally) => tally.status(),
        Err(failure) => fail(failure, errors),
    }
}

fn tell_all<F: Folder, W: Sink, E: Sink>(
    alloc: Global,
    task: &Task,
    names: &[String],
    folder: &mut F,
    writer: &mut W,
    errors: &mut E,
) -> Result<Tally, Failure>
    ensures said { IfOk result (λ tally. ReportsFiles (SaysOf LIMIT task.now) (F.holds folder.old)
        (map string_bytes names.now)
        (run_state (F.visits folder.old) (W.state writer.old) (E.state errors.old))
        (run_state (F.visits folder.new) (W.state writer.new) (E.state errors.new))
        (summary (length (map string_bytes names.now)) tally) tally) }
    ensures flushed { OnOk result
        (((W.state writer.new).flushes ≡ counted (W.state writer.old).flushes)
        × ((W.state writer.new).flushed ≡ true)) }
    ensures unflushed { IfErr result
        (FlushesAtMost (W.state writer.old).flushes (W.state writer.new).flushes) }
    ensures sound { OnOk result
        (NoneFailed (W.state writer.old).faults (W.state writer.new).faults) }
    ensures failed { IfErr result
        (FailsWriting (W.state writer.old).faults (W.state writer.new).faults) }
    ensures cut { IfErr result (EndsEarly (SaysOf LIMIT task.now) (F.holds folder.old)
        (map string_bytes names.now)
        (run_state (F.visits folder.old) (W.state writer.old) (E.state errors.old))
        (run_state (F.visits folder.new) (W.state writer.new) (E.state errors.new)) []) }
    ensures one { OneAtATime (F.open_files folder.old) (F.open_files folder.new) }
{
    let tally = tell_each(alloc, task, names, folder, writer, errors)?;
    let line = tally.line(alloc, names.len())?;
    writer.flush().map_err(|_| Failure::Write)?;
    note(errors, line.as_bytes());
    Ok(tally)
}

fn tell_each<F: Folder, W: Sink, E: Sink>(
    alloc: Global,
    task: &Task,
    names: &[String],
    folder: &mut F,
    writer: &mut W,
    errors: &mut E,
) -> Result<Tally, Failure>
    ensures said { IfOk result (ReportsFiles (SaysOf LIMIT task.now) (F.holds folder.old)
        (map string_bytes names.now)
        (run_state (F.visits folder.old) (W.state writer.old) (E.state errors.old))
        (run_state (F.visits folder.new) (W.state writer.new) (E.state errors.new)) []) }
    ensures unflushed { (W.state writer.new).flushes ≡ (W.state writer.old).flushes }
    ensures sound { OnOk result
        (NoneFailed (W.state writer.old).faults (W.state writer.new).faults) }
    ensures failed { IfErr result
        (FailsWriting (W.state writer.old).faults (W.state writer.new).faults) }
    ensures cut { IfErr result (EndsEarly (SaysOf LIMIT task.now) (F.holds folder.old)
        (map string_bytes names.now)
        (run_state (F.visits folder.old) (W.state writer.old) (E.state errors.old))
        (run_state (F.visits folder.new) (W.state writer.new) (E.state errors.new)) []) }
    ensures one { OneAtATime (F.open_files folder.old) (F.open_files folder.new) }
{
    let mut tally = Tally::none();
    for name in names {
        let verdict = tell_one(alloc, task, name.as_str(), folder, writer, errors)?;
        tally.add(verdict);
    }
    Ok(tally)
}

/// Checks, explains or lints a file, and puts out what there is to say of it.
fn tell_one<F: Folder, W: Sink, E: Sink>(
    alloc: Global,
    task: &Task,
    name: &str,
    folder: &mut F,
    writer: &mut W,
    errors: &mut E,
) -> Result<Verdict, Failure>
    ensures said { IfOk result (λ verdict. ReportsFile (SaysOf LIMIT task.now)
        (F.holds folder.old) name.now
        (run_state (F.visits folder.old) (W.state writer.old) (E.state errors.old))
        (run_state (F.visits folder.new) (W.state writer.new) (E.state errors.new)) verdict) }
    ensures unflushed { (W.state writer.new).flushes ≡ (W.state writer.old).flushes }
    ensures sound { OnOk result
        (NoneFailed (W.state writer.old).faults (W.state writer.new).faults) }
    ensures failed { IfErr result
        (FailsWriting (W.state writer.old).faults (W.state writer.new).faults) }
    ensures cut { IfErr result (EndsEarly (SaysOf LIMIT task.now) (F.holds folder.old)
        (name.now ∷ [])
        (run_state (F.visits folder.old) (W.state writer.old) (E.state errors.old))
        (run_state (F.visits folder.new) (W.state writer.new) (E.state errors.new)) []) }
    ensures same { F.holds folder.new ≡ F.holds folder.old }
    ensures one { OneAtATime (F.open_files folder.old) (F.open_files folder.new) }
{
    let reply = tell_file(alloc, task, name, folder)?;
    let verdict = Verdict::of(&reply);
    let written = written(alloc, name, &reply)?;
    let printed = printed(alloc, name, &reply)?;
    note(errors, &printed);
    put(writer, &written)?;
    Ok(verdict)
}

/// What is answered for a file; nothing if it couldn't be opened or read. Such a file ends no run.
fn tell_file<F: Folder>(
    alloc: Global,
    task: &Task,
    name: &str,
    folder: &mut F,
) -> Result<Option<Reply>, Failure>
    ensures said { IfOk result (IsFileReply (SaysOf LIMIT task.now) (F.holds folder.old name.now)) }
    ensures visited { IfOk result (λ reply. Adds (F.visits folder.old) (F.visits folder.new)
        (visit_of name.now reply)) }
    ensures asked { OnErr result ((next : List AVisit) × IsReadAtMost name.now next
        × AddsAll (F.visits folder.old) (F.visits folder.new) next) }
    ensures one { OneAtATime (F.open_files folder.old) (F.open_files folder.new) }
    ensures failed { IfErr result (λ failure. failure ≡ Failure.Memory) }
    ensures same { F.holds folder.new ≡ F.holds folder.old }
{
    let text = Text::from_str(alloc, name)?;
    let mut reader = match folder.open(name) {
        Ok(reader) => reader,
        Err(ErrorKind::OutOfMemory) => return Err(Failure::Memory),
        Err(_) => return Ok(None),
    };
    let told = tell(alloc, task, &mut reader);
    folder.close(text, reader);
    match told {
        Ok(reply) => Ok(Some(reply)),
        Err(Failure::Memory) => Err(Failure::Memory),
        Err(Failure::Read | Failure::Write) => Ok(None),
    }
}

/// What is answered for the bytes of a file.
fn tell<R: Source>(alloc: Global, task: &Task, reader: &mut R) -> Result<Reply, Failure>
    ensures reply { IfOk result (λ reply. IfSome (R.state reader.old).left
        (λ input. SaysOf LIMIT task.now input reply)) }
    ensures failed { IfErr result
        (FailsReading (R.state reader.old).faults (R.state reader.new).faults) }
    ensures sound { OnOk result
        (NoneFailed (R.state reader.old).faults (R.state reader.new).faults) }
{
    match task {
        Task::Explain => explain(alloc, reader),
        Task::Lint => lint_tile(alloc, reader),
        _ => check(alloc, reader),
    }
}

/// What goes to the output of a file.
fn written(alloc: Global, name: &str, reply: &Option<Reply>) -> Result<Vec<u8>, Failure>
    ensures bytes { IfOk result (λ bytes. bytes.items ≡ marked_text name.now (text_of reply.now)) }
    ensures failed { IfErr result (λ failure. failure ≡ Failure.Memory) }
{
    match reply {
        Some(
            Reply {
                output: Some(text),
                ..
            },
        ) => Ok(named(alloc, name, text.as_slice())?),
        Some(Reply { output: None, .. }) | None => Ok(Vec::new(alloc)),
    }
}

/// What the error stream says of a file.
fn printed(alloc: Global, name: &str, reply: &Option<Reply>) -> Result<Vec<u8>, Failure>
    ensures bytes { IfOk result (λ bytes. bytes.items ≡ marked_text name.now
        (line_printed reply.now)) }
    ensures failed { IfErr result (λ failure. failure ≡ Failure.Memory) }
{
    match reply {
        None => Ok(named(alloc, name, b"read failed\n")?),
        Some(
            Reply {
                error_line: Some(line),
                ..
            },
        ) => Ok(named(alloc, name, line.as_str().as_bytes())?),
        Some(
            Reply {
                error_line: None,
                ..
            },
        ) => Ok(Vec::new(alloc)),
    }
}

/// Puts a text on the error stream, whose faults are ignored.
fn note<E: Sink>(errors: &mut E, text: &[u8])
    ensures { Prints (E.state errors.old) (E.state errors.new) text.now }
{
    let _ = write_all(errors, text);
}

/// Puts a text on the output. It doesn't flush.
fn put<W: Sink>(writer: &mut W, text: &[u8]) -> Result<(), Failure>
    ensures taken { OnOk result
        (Appends (W.state writer.old).taken (W.state writer.new).taken text.now) }
    ensures prefix { IfErr result
        (TakesUntil (W.state writer.old).taken (W.state writer.new).taken text.now) }
    ensures sound { OnOk result
        (NoneFailed (W.state writer.old).faults (W.state writer.new).faults) }
    ensures unflushed { (W.state writer.new).flushes ≡ (W.state writer.old).flushes }
    ensures failed { IfErr result
        (FailsWriting (W.state writer.old).faults (W.state writer.new).faults) }
{
    write_all(writer, text).map_err(|_| Failure::Write)
}
