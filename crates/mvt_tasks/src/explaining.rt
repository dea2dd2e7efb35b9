//! The command `explain`.
ghost use Rattle.std.specs.Prelude.{◌≡◌, ◌+◌, IfOk, IfErr, IfSome, OnOk};
ghost use Rattle.mvt_io.specs.States.{NoneFailed};
ghost use Rattle.mvt_io.specs.Transfers.{Reads, TakesAtMost};
ghost use Rattle.mvt_tasks.specs.Failures.{FailsReading};
ghost use Rattle.mvt_mend.specs.Tiles.{mended};
ghost use Rattle.mvt_tile.specs.TileRules.{fault_within};
ghost use Rattle.mvt_tasks.specs.Output.{IsExplained, IsReply, HasOutput, mend_line, remedy as the_remedy, told_why};

use crate::checking::reported;
use crate::failure::Failure;
use crate::refusal::fault_printed;
use crate::reply::Reply;
use crate::task::Task;
use mvt_base::{Items, LIMIT};
use mvt_io::{Source, read_up_to};
use mvt_mend::{MendError, mend_tile};
use mvt_places::explanation_text;
use mvt_tile::{Cause, DecodeError, Fault, survey_tile};
use std::alloc::Global;

/// Checks a tile, and reports on it, or explains why it is refused, and says where `mend` mends it.
///
/// # Errors
///
/// `Read` when a read fails; `Memory`. A refused tile is no error: its reply has the fault's line.
pub fn explain<R: Source>(alloc: Global, reader: &mut R) -> Result<Reply, Failure>
    ensures reply { IfOk result (λ reply. IfSome (R.state reader.old).left
        (λ input. IsReply LIMIT Task.Explain input reply)) }
    ensures output { IfOk result HasOutput }
    ensures failed { IfErr result
        (FailsReading (R.state reader.old).faults (R.state reader.new).faults) }
    ensures sound { OnOk result
        (NoneFailed (R.state reader.old).faults (R.state reader.new).faults) }
    ensures reads { Reads (LIMIT + 1) (R.state reader.old) (R.state reader.new) }
    ensures leaves { TakesAtMost (LIMIT + 1) (R.state reader.old).left (R.state reader.new).left }
{
    let input = read_up_to(alloc, reader, LIMIT as usize + 1)?;
    explained(alloc, &input)
}

fn explained(alloc: Global, input: &[u8]) -> Result<Reply, Failure>
    ensures reply { IfOk result (IsExplained LIMIT input.now input.now) }
    ensures output { IfOk result HasOutput }
    ensures failed { IfErr result (λ failure. failure ≡ Failure.Memory) }
{
    match survey_tile(alloc, input) {
        Ok(survey) => reported(alloc, &survey),
        Err(DecodeError::Fault(fault)) => why(alloc, input, &fault),
        Err(DecodeError::Memory | DecodeError::Read(_)) => Err(Failure::Memory),
    }
}

/// What is said of a refused tile. The line of the fault is made before anything is put out.
fn why(alloc: Global, input: &[u8], fault: &Fault) -> Result<Reply, Failure>
    ensures reply { IfOk result (λ reply. reply ≡ told_why LIMIT input.now fault.now) }
    ensures failed { IfErr result (λ failure. failure ≡ Failure.Memory) }
{
    let mut text = explanation_text(alloc, input, fault)?;
    text.push_str(remedy(alloc, input, fault.cause)?)?;
    Ok(Reply {
        output: Some(Items::new(text.into_bytes())),
        error_line: Some(fault_printed(alloc, fault)?),
        changes: None,
        has_findings: false,
    })
}

/// The line on what can be done about a fault with this cause, if there is one.
fn remedy(alloc: Global, input: &[u8], cause: Cause) -> Result<&'static str, Failure>
    ensures line { IfOk result (λ line. line.now ≡ the_remedy LIMIT input.now cause) }
    ensures failed { IfErr result (λ failure. failure ≡ Failure.Memory) }
{
    match cause {
        Cause::ZeroSegment | Cause::FirstRing => if_mended(alloc, input),
        _ => Ok(""),
    }
}

/// The line that `mend` mends a refused tile, where it does.
#[tactic(auto, using(crate::proofs::RemedyLemmas::unmended_untold))]
fn if_mended(alloc: Global, input: &[u8]) -> Result<&'static str, Failure>
    ensures line { IfOk result (λ line. line.now
        ≡ mend_line (fault_within LIMIT (mended input.now))) }
    ensures failed { IfErr result (λ failure. failure ≡ Failure.Memory) }
{
    match mend_tile(alloc, input) {
        Ok(_) => {}
        Err(MendError::Refused(..)) => return Ok(""),
        Err(MendError::Memory) => return Err(Failure::Memory),
    }
    Ok("mvt mend mends this.\n")
}
