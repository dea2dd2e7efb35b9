//! The program over any reader and writers.
ghost use Rattle.std.specs.Prelude.{◌≡◌, ◌≢◌, ◌+◌, ◌<◌, ◌⊎◌, ◌↔◌, List, ℕ, [], map, string_bytes};
ghost use Rattle.mvt_io.specs.States.{NoneFailed};
ghost use Rattle.mvt_io.specs.Transfers.{Reads, TakesPrefix};
ghost use Rattle.mvt_tasks.specs.declared.failure.Failure.{Failure as AFailure};
ghost use Rattle.mvt_tasks.specs.declared.failure.Failure.TheVariants.{Write as WriteFailure};
ghost use Rattle.mvt_tasks.specs.declared.reply.Reply.{Reply as AReply};
ghost use Rattle.mvt_tasks.specs.Checks.{Prints, SaysOf, TellsFiles, run_state};
ghost use Rattle.mvt_tasks.specs.Failures.{EndsFailed, FailsReading, line_of, status_of};
ghost use Rattle.mvt_tasks.specs.Output.{GivesReply, HasOutput, IsGiven, IsReplyTo, PutOut, PutsText, ReadsNoFurther};
ghost use Rattle.mvt_tasks.specs.Visits.{OneAtATime};
ghost use Rattle.mvt_words.specs.Words.{task_in, faults_in, files_in};
ghost use Rattle.mvt_words.specs.Refused.{EndsWith, IsUsage, advice_on, usage_text};

use mvt_base::LIMIT;
use mvt_io::{Sink, Source};
use mvt_tasks::{Failure, Folder, print, run_task, tell_files};
use mvt_words::{Asked, Refusal, read_words};
use std::alloc::Global;

/// Runs the program on the words of its command line, the first of which is its name, and answers
/// its status: 0 if all went well, 1 if the tile is refused, 2 if the words are, 3 if a read or a
/// write failed, 4 for lack of memory, 5 if `lint` found something. Faults of `errors` are ignored.
///
/// If the words name files, these are checked, explained or linted, and the reader isn't used.
pub fn run<F: Folder, R: Source, W: Sink, E: Sink>(
    alloc: Global,
    words: &[String],
    folder: &mut F,
    reader: &mut R,
    writer: &mut W,
    errors: &mut E,
) -> u8
    // Without files the task of the words is run, and the folder is left as it was.
    ensures done { files_in (map string_bytes words.now) ≡ [] → IsGiven result → (reply : AReply)
        × IsReplyTo LIMIT (task_in (map string_bytes words.now)) (R.state reader.old).left reply
        × HasOutput reply
        × GivesReply result (writer.new ≡ writer.old)
        (PutOut (W.state writer.old) (W.state writer.new)) (errors.new ≡ errors.old)
        (Prints (E.state errors.old) (E.state errors.new)) reply }
    ensures failed { files_in (map string_bytes words.now) ≡ [] → 2 < result → result < 5
        → (failure : AFailure) × (result ≡ status_of failure)
        × Prints (E.state errors.old) (E.state errors.new) (line_of failure)
        × ((FailsReading (R.state reader.old).faults (R.state reader.new).faults failure
        × (writer.new ≡ writer.old))
        ⊎ ((failure ≡ WriteFailure)
        × NoneFailed (R.state reader.old).faults (R.state reader.new).faults
        × EndsFailed (W.state writer.old).faults (W.state writer.new).faults
        × ((reply : AReply) × IsReplyTo LIMIT (task_in (map string_bytes words.now))
        (R.state reader.old).left reply
        × PutsText ⊥ (TakesPrefix (W.state writer.old).taken (W.state writer.new).taken) reply))) }
    ensures leaves { (reader.new ≡ reader.old)
        ⊎ ReadsNoFurther LIMIT (task_in (map string_bytes words.now)) (R.state reader.old)
        (R.state reader.new) }
    ensures reads { Reads (LIMIT + 2) (R.state reader.old) (R.state reader.new) }

    // Files are each told of under their names, in order, with one open at a time, and the reader
    // is left as it was.
    ensures files { files_in (map string_bytes words.now) ≢ []
        → faults_in (map string_bytes words.now) ≡ []
        → TellsFiles (SaysOf LIMIT (task_in (map string_bytes words.now))) (F.holds folder.old)
        (files_in (map string_bytes words.now))
        (run_state (F.visits folder.old) (W.state writer.old) (E.state errors.old))
        (run_state (F.visits folder.new) (W.state writer.new) (E.state errors.new)) result
        × OneAtATime (F.open_files folder.old) (F.open_files folder.new) }
    ensures apart { (files_in (map string_bytes words.now) ≡ [] → folder.new ≡ folder.old)
        × (files_in (map string_bytes words.now) ≢ [] → reader.new ≡ reader.old) }

    ensures sound { IsGiven result
        → NoneFailed (R.state reader.old).faults (R.state reader.new).faults
        × NoneFailed (W.state writer.old).faults (W.state writer.new).faults }

    // A refused line touches nothing but the error stream, and no other line is refused.
    ensures refused { faults_in (map string_bytes words.now) ≢ []
        → ((result ≡ 2) ⊎ (result ≡ 4)) × (folder.new ≡ folder.old) × (reader.new ≡ reader.old)
        × (writer.new ≡ writer.old) }
    ensures usage { result ≡ 2 → (faults_in (map string_bytes words.now) ≢ [])
        × ((text : List ℕ) × EndsWith (advice_on (map string_bytes words.now)) text
        × Prints (E.state errors.old) (E.state errors.new) text) }
    ensures statuses { result < 6 }
{
    let Asked { task, files } = match read_words(alloc, words) {
        Ok(asked) => asked,
        Err(refusal) => return refuse(refusal, errors),
    };
    if !files.is_empty() {
        return tell_files(alloc, &task, files.as_slice(), folder, writer, errors);
    }
    run_task(alloc, task, reader, writer, errors)
}

/// Tells why a line isn't run.
pub fn refuse<E: Sink>(refusal: Refusal, errors: &mut E) -> u8
    ensures usage { (result ≡ 2) ↔ IsUsage refusal }
    ensures printed { result ≡ 2
        → Prints (E.state errors.old) (E.state errors.new) (usage_text refusal) }
    ensures line { 2 < result
        → Prints (E.state errors.old) (E.state errors.new) (line_of Failure.Memory) }
    ensures statuses { (result ≡ 2) ⊎ (result ≡ 4) }
{
    match refusal {
        Refusal::Usage(text) => {
            print(errors, text.as_str());
            2
        }
        Refusal::Memory => {
            print(errors, Failure::Memory.line());
            Failure::Memory.status()
        }
    }
}
