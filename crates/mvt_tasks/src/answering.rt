//! What a task answers for its input.
ghost use Rattle.std.specs.Prelude.{◌≡◌, ◌+◌, IfOk, IfErr, OnOk};
ghost use Rattle.mvt_io.specs.States.{NoneFailed};
ghost use Rattle.mvt_io.specs.Transfers.{Reads};
ghost use Rattle.mvt_tasks.specs.Failures.{FailsReading};
ghost use Rattle.mvt_tasks.specs.Output.{HasOutput, IsReplyTo, ReadsNoFurther};

use crate::checking::check;
use crate::explaining::explain;
use crate::extraction::extract_layers;
use crate::failure::Failure;
use crate::linting::lint_tile;
use crate::listing::list_fields;
use crate::mending::mend;
use crate::reply::Reply;
use crate::rewriting::rewrite;
use crate::task::Task;
use crate::version::told_version;
use crate::viewing::{View, view_tile};
use mvt_base::LIMIT;
use mvt_io::Source;
use std::alloc::Global;

/// The reply of a task for what the reader has left.
///
/// # Errors
///
/// A read that failed; out of memory.
pub fn answer<R: Source>(alloc: Global, task: Task, reader: &mut R) -> Result<Reply, Failure>
    ensures reply { IfOk result (IsReplyTo LIMIT task (R.state reader.old).left) }
    ensures output { IfOk result HasOutput }
    ensures failed { IfErr result
        (FailsReading (R.state reader.old).faults (R.state reader.new).faults) }
    ensures sound { OnOk result
        (NoneFailed (R.state reader.old).faults (R.state reader.new).faults) }
    ensures reads { Reads (LIMIT + 2) (R.state reader.old) (R.state reader.new) }
    ensures leaves { ReadsNoFurther LIMIT task (R.state reader.old) (R.state reader.new) }
{
    match task {
        Task::Fields => list_fields(alloc, reader),
        Task::Show => view_tile(alloc, View::Json, reader),
        Task::Draw => view_tile(alloc, View::Svg, reader),
        Task::Check => check(alloc, reader),
        Task::Explain => explain(alloc, reader),
        Task::Lint => lint_tile(alloc, reader),
        Task::Rewrite => rewrite(alloc, reader),
        Task::Mend => mend(alloc, reader),
        Task::Extract(names) => extract_layers(alloc, &names, reader),
        Task::Version => told_version(alloc),
    }
}
