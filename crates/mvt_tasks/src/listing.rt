//! The command `fields`.
ghost use Rattle.std.specs.Prelude.{◌≡◌, ◌+◌, IfOk, IfErr, IfSome, OnOk};
ghost use Rattle.mvt_io.specs.States.{NoneFailed};
ghost use Rattle.mvt_io.specs.Transfers.{Reads, TakesAtMost};
ghost use Rattle.mvt_tasks.specs.Failures.{FailsReading};
ghost use Rattle.mvt_tasks.specs.Output.{IsReply, fields_reply, HasOutput};

use crate::failure::Failure;
use crate::refusal::fault_printed;
use crate::reply::Reply;
use crate::task::Task;
use mvt_base::{Items, LIMIT};
use mvt_io::{Source, read_up_to};
use mvt_view::{FieldsText, fields_text};
use std::alloc::Global;

/// Lists the top-level fields of an input.
///
/// # Errors
///
/// `Read` when a read fails; `Memory`. A refused tile is no error: its reply has the fault's line.
pub fn list_fields<R: Source>(alloc: Global, reader: &mut R) -> Result<Reply, Failure>
    ensures reply { IfOk result (λ reply. IfSome (R.state reader.old).left
        (λ input. IsReply LIMIT Task.Fields input reply)) }
    ensures output { IfOk result HasOutput }
    ensures failed { IfErr result
        (FailsReading (R.state reader.old).faults (R.state reader.new).faults) }
    ensures sound { OnOk result
        (NoneFailed (R.state reader.old).faults (R.state reader.new).faults) }
    ensures reads { Reads (LIMIT + 1) (R.state reader.old) (R.state reader.new) }
    ensures leaves { TakesAtMost (LIMIT + 1) (R.state reader.old).left (R.state reader.new).left }
{
    let input = read_up_to(alloc, reader, LIMIT as usize + 1)?;
    listed(alloc, &input)
}

/// The line of the fault is made before anything is put out.
fn listed(alloc: Global, input: &[u8]) -> Result<Reply, Failure>
    ensures reply { IfOk result (λ reply. reply ≡ fields_reply LIMIT input.now) }
    ensures failed { IfErr result (λ failure. failure ≡ Failure.Memory) }
{
    let FieldsText { lines, fault } = fields_text(alloc, input)?;
    let error_line = match fault {
        None => None,
        Some(fault) => Some(fault_printed(alloc, &fault)?),
    };
    Ok(Reply {
        output: Some(Items::new(lines.into_bytes())),
        error_line,
        changes: None,
        has_findings: false,
    })
}
