//! The command `lint`.
ghost use Rattle.std.specs.Prelude.{◌≡◌, ◌+◌, IfOk, IfErr, IfSome, OnOk};
ghost use Rattle.mvt_io.specs.States.{NoneFailed};
ghost use Rattle.mvt_io.specs.Transfers.{Reads};
ghost use Rattle.mvt_tile.specs.Reading.{StopsEarly};
ghost use Rattle.mvt_tile_value.specs.declared.tile.Tile.{Tile};
ghost use Rattle.mvt_tile_value.specs.Lint.{findings_of};
ghost use Rattle.mvt_tasks.specs.Failures.{FailsReading};
ghost use Rattle.mvt_tasks.specs.Output.{IsPrinted, HasOutput, lint_reply};

use crate::failure::Failure;
use crate::refusal::refusal;
use crate::reply::Reply;
use mvt_base::{Items, LIMIT};
use mvt_io::Source;
use mvt_tile::Finding;
use mvt_view::lint_text;
use std::alloc::Global;

/// Reads a tile, and makes a line for each finding. It reads no further after a fault.
///
/// # Errors
///
/// `Read` when a read fails; `Memory`. A refused tile is no error: its reply has the fault's line.
pub fn lint_tile<R: Source>(alloc: Global, reader: &mut R) -> Result<Reply, Failure>
    ensures reply { IfOk result
        (λ reply. IfSome (R.state reader.old).left
        (λ input. IsPrinted LIMIT lint_reply input reply)) }
    ensures output { IfOk result HasOutput }
    ensures failed { IfErr result
        (FailsReading (R.state reader.old).faults (R.state reader.new).faults) }
    ensures sound { OnOk result
        (NoneFailed (R.state reader.old).faults (R.state reader.new).faults) }
    ensures reads { Reads (LIMIT + 2) (R.state reader.old) (R.state reader.new) }
    ensures stops { StopsEarly LIMIT (R.state reader.new).given (R.state reader.old).left
        (R.state reader.new).left }
{
    match mvt_tile::lint_tile(alloc, reader) {
        Ok(findings) => linted(alloc, &findings),
        Err(error) => Ok(Reply {
            output: None,
            error_line: Some(refusal(alloc, error)?),
            changes: None,
            has_findings: false,
        }),
    }
}

fn linted(alloc: Global, findings: &[Finding]) -> Result<Reply, Failure>
    ensures reply { (tile : Tile) → findings.now ≡ findings_of tile
        → IfOk result (λ reply. reply ≡ lint_reply tile) }
    ensures output { IfOk result HasOutput }
    ensures failed { IfErr result (λ failure. failure ≡ Failure.Memory) }
{
    let text = lint_text(alloc, findings)?;
    Ok(Reply {
        output: Some(Items::new(text.into_bytes())),
        error_line: None,
        changes: None,
        has_findings: !findings.is_empty(),
    })
}
