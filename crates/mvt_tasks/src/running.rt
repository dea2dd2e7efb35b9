//! Running a task: its input is read, and then its reply is written.
ghost use Rattle.std.specs.Prelude.{◌≡◌, ◌+◌, ◌<◌, ◌⊎◌};
ghost use Rattle.mvt_io.specs.States.{NoneFailed};
ghost use Rattle.mvt_io.specs.Transfers.{Reads, TakesPrefix};
ghost use Rattle.mvt_tasks.specs.declared.failure.Failure.{Failure as AFailure};
ghost use Rattle.mvt_tasks.specs.declared.failure.Failure.TheVariants.{Write as WriteFailure};
ghost use Rattle.mvt_tasks.specs.declared.reply.Reply.{Reply as AReply};
ghost use Rattle.mvt_tasks.specs.Checks.{Prints};
ghost use Rattle.mvt_tasks.specs.Failures.{EndsFailed, FailsReading, line_of, status_of};
ghost use Rattle.mvt_tasks.specs.Output.{GivesReply, HasOutput, IsGiven, IsReplyTo, PutOut, PutsText, ReadsNoFurther};

use crate::answering::answer;
use crate::reply::{fail, give};
use crate::task::Task;
use mvt_base::LIMIT;
use mvt_io::{Sink, Source};
use std::alloc::Global;

/// Runs a task, and answers the program's status: 0 for a reply without a line, 1 for one with a
/// line, 3 if a read or a write failed, 4 for lack of memory, 5 for a reply with findings. Faults
/// of `errors` are ignored.
pub fn run_task<R: Source, W: Sink, E: Sink>(
    alloc: Global,
    task: Task,
    reader: &mut R,
    writer: &mut W,
    errors: &mut E,
) -> u8
    ensures done { IsGiven result → (reply : AReply)
        × IsReplyTo LIMIT task (R.state reader.old).left reply × HasOutput reply
        × GivesReply result (writer.new ≡ writer.old)
        (PutOut (W.state writer.old) (W.state writer.new)) (errors.new ≡ errors.old)
        (Prints (E.state errors.old) (E.state errors.new)) reply }
    ensures sound { IsGiven result
        → NoneFailed (R.state reader.old).faults (R.state reader.new).faults
        × NoneFailed (W.state writer.old).faults (W.state writer.new).faults }

    // Where no reply could be made, the output is as it was. A write that failed leaves a front of
    // the reply's text.
    ensures failed { 2 < result → result < 5 → (failure : AFailure) × (result ≡ status_of failure)
        × Prints (E.state errors.old) (E.state errors.new) (line_of failure)
        × ((FailsReading (R.state reader.old).faults (R.state reader.new).faults failure
        × (writer.new ≡ writer.old))
        ⊎ ((failure ≡ WriteFailure)
        × NoneFailed (R.state reader.old).faults (R.state reader.new).faults
        × EndsFailed (W.state writer.old).faults (W.state writer.new).faults
        × ((reply : AReply) × IsReplyTo LIMIT task (R.state reader.old).left reply
        × PutsText ⊥ (TakesPrefix (W.state writer.old).taken (W.state writer.new).taken) reply))) }
    ensures memory { result ≡ 4 → writer.new ≡ writer.old }
    ensures statuses { IsGiven result ⊎ ((result ≡ 3) ⊎ (result ≡ 4)) }
    ensures reads { Reads (LIMIT + 2) (R.state reader.old) (R.state reader.new) }
    ensures leaves { ReadsNoFurther LIMIT task (R.state reader.old) (R.state reader.new) }
{
    match answer(alloc, task, reader) {
        Ok(reply) => give(reply, writer, errors),
        Err(failure) => fail(failure, errors),
    }
}
