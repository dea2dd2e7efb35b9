//! The command `extract`.
ghost use Rattle.std.specs.Prelude.{◌≡◌, ◌+◌, ◌<◌, length, map, option_map, slice_get, string_bytes, Some, IfOk, IfErr, IfSome, OnOk};
ghost use Rattle.mvt_io.specs.States.{NoneFailed};
ghost use Rattle.mvt_io.specs.Transfers.{Reads};
ghost use Rattle.mvt_tile_value.specs.declared.tile.Tile.{Tile};
ghost use Rattle.mvt_tile.specs.Extraction.{AreExtracted};
ghost use Rattle.mvt_tile.specs.Reading.{StopsEarly};
ghost use Rattle.mvt_tasks.specs.Failures.{FailsReading};
ghost use Rattle.mvt_tasks.specs.Output.{IsPrinted, HasOutput, layers_reply, missing_line};

use crate::failure::Failure;
use crate::names::Names;
use crate::refusal::{refusal, too_large};
use crate::reply::Reply;
use mvt_base::{Items, LIMIT, Text};
use mvt_io::Source;
use mvt_tile::{NamedLayers, extract_tile};
use std::alloc::{AllocError, Global};

/// Reads a tile, and makes the canonical bytes of its named layers. It reads no further after a
/// fault.
///
/// # Errors
///
/// `Read` when a read fails; `Memory`. A refused tile is no error: its reply has the fault's line.
pub fn extract_layers<R: Source>(
    alloc: Global,
    names: &Names,
    reader: &mut R,
) -> Result<Reply, Failure>
    ensures reply { IfOk result
        (λ reply. IfSome (R.state reader.old).left
        (λ input. IsPrinted LIMIT (layers_reply LIMIT names.now) input reply)) }
    ensures output { IfOk result HasOutput }
    ensures failed { IfErr result
        (FailsReading (R.state reader.old).faults (R.state reader.new).faults) }
    ensures sound { OnOk result
        (NoneFailed (R.state reader.old).faults (R.state reader.new).faults) }
    ensures reads { Reads (LIMIT + 2) (R.state reader.old) (R.state reader.new) }
    ensures stops { StopsEarly LIMIT (R.state reader.new).given (R.state reader.old).left
        (R.state reader.new).left }
{
    let wanted = names.as_slice();
    match extract_tile(alloc, wanted, reader) {
        Ok(layers) => extracted(alloc, wanted, layers),
        Err(error) => Ok(Reply {
            output: None,
            error_line: Some(refusal(alloc, error)?),
            changes: None,
            has_findings: false,
        }),
    }
}

fn extracted(alloc: Global, names: &[String], layers: NamedLayers) -> Result<Reply, Failure>
    requires { (tile : Tile) × AreExtracted LIMIT tile (map string_bytes names.now) layers }
    ensures reply { IfOk result (λ reply. (tile : Tile)
        → AreExtracted LIMIT tile (map string_bytes names.now) layers
        → reply ≡ layers_reply LIMIT (map string_bytes names.now) tile) }
    ensures output { IfOk result HasOutput }
    ensures failed { IfErr result (λ failure. failure ≡ Failure.Memory) }
{
    match layers {
        NamedLayers::Bytes(bytes) => Ok(Reply {
            output: Some(Items::new(bytes)),
            error_line: None,
            changes: None,
            has_findings: false,
        }),
        NamedLayers::Missing(index) => Ok(Reply {
            output: None,
            error_line: Some(missing(alloc, names, index)?),
            changes: None,
            has_findings: false,
        }),
        NamedLayers::TooLarge => Ok(Reply {
            output: None,
            error_line: Some(too_large(alloc)?),
            changes: None,
            has_findings: false,
        }),
    }
}

/// The line of the name at an index, which no layer has.
fn missing(alloc: Global, names: &[String], index: usize) -> Result<Text, Failure>
    requires { index < length names.now }
    ensures line { IfOk result (λ line. Some line
        ≡ option_map missing_line (slice_get (map string_bytes names.now) index)) }
    ensures failed { IfErr result (λ failure. failure ≡ Failure.Memory) }
{
    Ok(missing_text(alloc, names[index].as_str())?)
}

fn missing_text(alloc: Global, name: &str) -> Result<Text, AllocError>
    ensures { IfOk result (λ line. line ≡ missing_line name.now) }
{
    let line = format!(in alloc; "mvt: layer not found: {name}\n")?;
    Text::from_string(line)
}
