//! The lines for a refused tile.
ghost use Rattle.std.specs.Prelude.{◌≡◌, ◌++◌, IfOk, IfErr, codes};
ghost use Rattle.mvt_mend.specs.ChangeLines.{unmended_line};
ghost use Rattle.mvt_view.specs.FaultLines.{fault_line};
ghost use Rattle.mvt_tasks.specs.Failures.{IsRefusal, refusal_failure};

use crate::failure::Failure;
use mvt_base::Text;
use mvt_mend::{Unmended, unmended_text};
use mvt_tile::{DecodeError, Fault};
use mvt_view::fault_text;
use std::alloc::{AllocError, Global};

/// The line of a fault, with its line feed.
pub(crate) fn fault_printed(alloc: Global, fault: &Fault) -> Result<Text, Failure>
    ensures line { IfOk result (λ line. line ≡ fault_line fault.now ++ codes "\n") }
    ensures failed { IfErr result (λ failure. failure ≡ Failure.Memory) }
{
    let mut line = fault_text(alloc, fault)?;
    line.push_str("\n")?;
    Ok(Text::from_string(line)?)
}

/// The line of a fault, and that of why it isn't mended.
pub(crate) fn unmended_printed(
    alloc: Global,
    fault: &Fault,
    cause: Unmended,
) -> Result<Text, Failure>
    ensures line { IfOk result (λ line. line
        ≡ fault_line fault.now ++ (codes "\n" ++ unmended_line cause)) }
    ensures failed { IfErr result (λ failure. failure ≡ Failure.Memory) }
{
    let mut lines = fault_text(alloc, fault)?;
    lines.push_str("\n")?;
    let why = unmended_text(alloc, cause)?;
    lines.push_str(&why)?;
    Ok(Text::from_string(lines)?)
}

/// The line of a refused tile, unless memory ran out or a read failed.
pub(crate) fn refusal(alloc: Global, error: DecodeError) -> Result<Text, Failure>
    ensures line { IfOk result (IsRefusal error) }
    ensures failed { IfErr result (λ failure. failure ≡ refusal_failure error) }
{
    match error {
        DecodeError::Fault(fault) => fault_printed(alloc, &fault),
        DecodeError::Memory => Err(Failure::Memory),
        DecodeError::Read(_) => Err(Failure::Read),
    }
}

/// The line of a tile whose canonical bytes are more than the limit.
pub(crate) fn too_large(alloc: Global) -> Result<Text, AllocError>
    ensures { IfOk result (λ line. line ≡ codes "mvt: result larger than 67108864 bytes\n") }
{
    Text::from_str(alloc, "mvt: result larger than 67108864 bytes\n")
}
