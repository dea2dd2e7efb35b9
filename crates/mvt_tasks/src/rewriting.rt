//! The command `rewrite`.
ghost use Rattle.std.specs.Prelude.{◌≡◌, ◌+◌, IfOk, IfErr, IfSome, OnOk};
ghost use Rattle.mvt_io.specs.States.{NoneFailed};
ghost use Rattle.mvt_io.specs.Transfers.{Reads};
ghost use Rattle.mvt_tile.specs.Reading.{StopsEarly};
ghost use Rattle.mvt_tasks.specs.Failures.{FailsReading};
ghost use Rattle.mvt_tasks.specs.Output.{IsPrinted, HasOutput, bytes_reply};

use crate::failure::Failure;
use crate::refusal::{refusal, too_large};
use crate::reply::Reply;
use mvt_base::{Items, LIMIT};
use mvt_io::Source;
use mvt_tile::rewrite_tile;
use std::alloc::Global;

/// Reads a tile, and makes its canonical bytes. It reads no further after a fault.
///
/// # Errors
///
/// `Read` when a read fails; `Memory`. A refused tile is no error: its reply has the fault's line.
pub fn rewrite<R: Source>(alloc: Global, reader: &mut R) -> Result<Reply, Failure>
    ensures reply { IfOk result
        (λ reply. IfSome (R.state reader.old).left
        (λ input. IsPrinted LIMIT (bytes_reply LIMIT) input reply)) }
    ensures output { IfOk result HasOutput }
    ensures failed { IfErr result
        (FailsReading (R.state reader.old).faults (R.state reader.new).faults) }
    ensures sound { OnOk result
        (NoneFailed (R.state reader.old).faults (R.state reader.new).faults) }
    ensures reads { Reads (LIMIT + 2) (R.state reader.old) (R.state reader.new) }
    ensures stops { StopsEarly LIMIT (R.state reader.new).given (R.state reader.old).left
        (R.state reader.new).left }
{
    match rewrite_tile(alloc, reader) {
        Ok(Some(bytes)) => Ok(Reply {
            output: Some(Items::new(bytes)),
            error_line: None,
            changes: None,
            has_findings: false,
        }),
        Ok(None) => Ok(Reply {
            output: None,
            error_line: Some(too_large(alloc)?),
            changes: None,
            has_findings: false,
        }),
        Err(error) => Ok(Reply {
            output: None,
            error_line: Some(refusal(alloc, error)?),
            changes: None,
            has_findings: false,
        }),
    }
}
