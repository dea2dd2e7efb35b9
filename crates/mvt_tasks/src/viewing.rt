//! The commands `show` and `draw`.
ghost use Rattle.std.specs.Prelude.{◌≡◌, ◌+◌, IfOk, IfErr, IfSome, OnOk};
ghost use Rattle.mvt_io.specs.States.{NoneFailed};
ghost use Rattle.mvt_io.specs.Transfers.{Reads};
ghost use Rattle.mvt_tile.specs.Reading.{StopsEarly};
ghost use Rattle.mvt_tasks.specs.Failures.{FailsReading};
ghost use Rattle.mvt_tasks.specs.Output.{IsPrinted, HasOutput, done, view_lines};

use crate::failure::Failure;
use crate::refusal::refusal;
use crate::reply::Reply;
use mvt_base::{Items, LIMIT};
use mvt_io::Source;
use mvt_tile::{Tile, read_tile};
use mvt_view::{json_text, svg_text};
use std::alloc::Global;

/// The text that a tile is shown as.
#[derive(Clone, Copy, Debug, PartialEq, Eq)]
pub enum View {
    Json,
    Svg,
}

/// Reads a tile, and makes its text. It reads no further after a fault.
///
/// # Errors
///
/// `Read` when a read fails; `Memory`. A refused tile is no error: its reply has the fault's line.
pub fn view_tile<R: Source>(alloc: Global, view: View, reader: &mut R) -> Result<Reply, Failure>
    ensures reply { IfOk result
        (λ reply. IfSome (R.state reader.old).left
        (λ input. IsPrinted LIMIT (λ tile. done (view_lines view tile)) input reply)) }
    ensures output { IfOk result HasOutput }
    ensures failed { IfErr result
        (FailsReading (R.state reader.old).faults (R.state reader.new).faults) }
    ensures sound { OnOk result
        (NoneFailed (R.state reader.old).faults (R.state reader.new).faults) }
    ensures reads { Reads (LIMIT + 2) (R.state reader.old) (R.state reader.new) }
    ensures stops { StopsEarly LIMIT (R.state reader.new).given (R.state reader.old).left
        (R.state reader.new).left }
{
    match read_tile(alloc, reader) {
        Ok(tile) => viewed(alloc, view, &tile),
        Err(error) => Ok(Reply {
            output: None,
            error_line: Some(refusal(alloc, error)?),
            changes: None,
            has_findings: false,
        }),
    }
}

fn viewed(alloc: Global, view: View, tile: &Tile) -> Result<Reply, Failure>
    ensures reply { IfOk result (λ reply. reply ≡ done (view_lines view tile.now)) }
    ensures failed { IfErr result (λ failure. failure ≡ Failure.Memory) }
{
    let mut text = match view {
        View::Json => json_text(alloc, tile)?,
        View::Svg => svg_text(alloc, tile)?,
    };
    text.push_str("\n")?;
    Ok(Reply {
        output: Some(Items::new(text.into_bytes())),
        error_line: None,
        changes: None,
        has_findings: false,
    })
}
