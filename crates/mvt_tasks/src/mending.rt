//! The command `mend`.
ghost use Rattle.std.specs.Prelude.{◌≡◌, ◌+◌, IfOk, IfErr, IfSome, OnOk};
ghost use Rattle.mvt_io.specs.States.{NoneFailed};
ghost use Rattle.mvt_io.specs.Transfers.{Reads, TakesAtMost};
ghost use Rattle.mvt_tasks.specs.Failures.{FailsReading};
ghost use Rattle.mvt_tasks.specs.Output.{HasOutput, IsMendReply, IsReply, lines_of_changes, refused};

use crate::failure::Failure;
use crate::refusal::{too_large, unmended_printed};
use crate::reply::Reply;
use crate::task::Task;
use mvt_base::{Items, LIMIT, Text};
use mvt_io::{Source, read_up_to};
use mvt_mend::{Change, MendError, MendedTile, change_text, mend_tile};
use std::alloc::{AllocError, Global};

/// Reads a tile, and makes the canonical bytes of it mended, and a line for each change.
///
/// # Errors
///
/// `Read` when a read fails; `Memory`. A refused tile is no error: its reply has the fault's line.
pub fn mend<R: Source>(alloc: Global, reader: &mut R) -> Result<Reply, Failure>
    ensures reply { IfOk result (λ reply. IfSome (R.state reader.old).left
        (λ input. IsReply LIMIT Task.Mend input reply)) }
    ensures output { IfOk result HasOutput }
    ensures failed { IfErr result
        (FailsReading (R.state reader.old).faults (R.state reader.new).faults) }
    ensures sound { OnOk result
        (NoneFailed (R.state reader.old).faults (R.state reader.new).faults) }
    ensures reads { Reads (LIMIT + 1) (R.state reader.old) (R.state reader.new) }
    ensures leaves { TakesAtMost (LIMIT + 1) (R.state reader.old).left (R.state reader.new).left }
{
    let input = read_up_to(alloc, reader, LIMIT as usize + 1)?;
    mended(alloc, &input)
}

fn mended(alloc: Global, input: &[u8]) -> Result<Reply, Failure>
    ensures reply { IfOk result (IsMendReply LIMIT input.now) }
    ensures output { IfOk result HasOutput }
    ensures failed { IfErr result (λ failure. failure ≡ Failure.Memory) }
{
    let MendedTile { bytes, changes } = match mend_tile(alloc, input) {
        Ok(made) => made,
        Err(MendError::Refused(fault, cause)) => {
            return Ok(told(unmended_printed(alloc, &fault, cause)?));
        }
        Err(MendError::Memory) => return Err(Failure::Memory),
    };
    let Some(bytes) = bytes else {
        return Ok(told(too_large(alloc)?));
    };
    Ok(Reply {
        output: Some(Items::new(bytes)),
        error_line: None,
        changes: lines_of(alloc, changes.as_slice())?,
        has_findings: false,
    })
}

/// A reply of a line alone.
fn told(line: Text) -> Reply
    ensures { result ≡ refused line }
{
    Reply {
        output: None,
        error_line: Some(line),
        changes: None,
        has_findings: false,
    }
}

/// The lines of changes, if there are some.
fn lines_of(alloc: Global, changes: &[Change]) -> Result<Option<Text>, AllocError>
    ensures { IfOk result (λ lines. lines ≡ lines_of_changes changes.now) }
{
    if changes.is_empty() {
        return Ok(None);
    }
    let text = change_text(alloc, changes)?;
    Ok(Some(Text::from_string(text)?))
}
