//! The command `check`.
ghost use Rattle.std.specs.Prelude.{◌≡◌, ◌+◌, IfOk, IfErr, IfSome, OnOk};
ghost use Rattle.mvt_io.specs.States.{NoneFailed};
ghost use Rattle.mvt_io.specs.Transfers.{Reads, TakesAtMost};
ghost use Rattle.mvt_view.specs.Reports.{survey_lines};
ghost use Rattle.mvt_tasks.specs.Failures.{FailsReading};
ghost use Rattle.mvt_tasks.specs.Output.{IsReply, HasOutput, done};

use crate::failure::Failure;
use crate::refusal::refusal;
use crate::reply::Reply;
use crate::task::Task;
use mvt_base::{Items, LIMIT};
use mvt_io::{Source, read_up_to};
use mvt_tile::{Survey, survey_tile};
use mvt_view::survey_text;
use std::alloc::Global;

/// Checks a tile, and reports on it.
///
/// # Errors
///
/// `Read` when a read fails; `Memory`. A refused tile is no error: its reply has the fault's line.
pub fn check<R: Source>(alloc: Global, reader: &mut R) -> Result<Reply, Failure>
    ensures reply { IfOk result (λ reply. IfSome (R.state reader.old).left
        (λ input. IsReply LIMIT Task.Check input reply)) }
    ensures output { IfOk result HasOutput }
    ensures failed { IfErr result
        (FailsReading (R.state reader.old).faults (R.state reader.new).faults) }
    ensures sound { OnOk result
        (NoneFailed (R.state reader.old).faults (R.state reader.new).faults) }
    ensures reads { Reads (LIMIT + 1) (R.state reader.old) (R.state reader.new) }
    ensures leaves { TakesAtMost (LIMIT + 1) (R.state reader.old).left (R.state reader.new).left }
{
    let input = read_up_to(alloc, reader, LIMIT as usize + 1)?;
    checked(alloc, &input)
}

fn checked(alloc: Global, input: &[u8]) -> Result<Reply, Failure>
    ensures reply { IfOk result (IsReply LIMIT Task.Check input.now) }
    ensures output { IfOk result HasOutput }
    ensures failed { IfErr result (λ failure. failure ≡ Failure.Memory) }
{
    match survey_tile(alloc, input) {
        Ok(survey) => reported(alloc, &survey),
        Err(error) => Ok(Reply {
            output: None,
            error_line: Some(refusal(alloc, error)?),
            changes: None,
            has_findings: false,
        }),
    }
}

/// The report on a tile that was surveyed.
pub(crate) fn reported(alloc: Global, survey: &Survey) -> Result<Reply, Failure>
    ensures reply { IfOk result (λ reply. reply ≡ done (survey_lines survey.now)) }
    ensures failed { IfErr result (λ failure. failure ≡ Failure.Memory) }
{
    let text = survey_text(alloc, survey)?;
    Ok(Reply {
        output: Some(Items::new(text.into_bytes())),
        error_line: None,
        changes: None,
        has_findings: false,
    })
}
