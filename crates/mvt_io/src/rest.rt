//! Reading on in large pieces.
ghost use Rattle.std.specs.Prelude.{IfOk};
ghost use Rattle.mvt_io.specs.States.{EndedBy};
ghost use Rattle.mvt_io.specs.Transfers.{ReadOn, Reads, TakesAtMost, kind_read};

use super::{ReadError, Source};

/// The most bytes that one read asks for.
const LARGE_PIECE: usize = 65_536;

/// Appends the bytes that the reader has left, up to a bound. It is a function of its own, since
/// its large piece costs time at its entry.
///
/// # Errors
///
/// When memory runs out, or a read fails, with the reader's kind.
#[inline(never)]
pub fn read_rest<R: Source>(
    reader: &mut R,
    most: usize,
    mut bytes: Vec<u8>,
) -> Result<Vec<u8>, ReadError>
    ensures read { IfOk result (λ all. ReadOn most (R.state reader.old) (R.state reader.new)
        bytes.items all.items) }
    ensures leaves { TakesAtMost most (R.state reader.old).left (R.state reader.new).left }
    ensures reads { Reads most (R.state reader.old) (R.state reader.new) }
    ensures faults { EndedBy (kind_read result) (R.state reader.old).faults
        (R.state reader.new).faults }
{
    let mut piece = [0; LARGE_PIECE];
    let mut missing = most;
    while missing > 0 {
        let asked = missing.min(LARGE_PIECE);
        let count = match reader.read(&mut piece[..asked]) {
            Ok(count) => count,
            Err(kind) => return Err(ReadError::Read(kind)),
        };
        if count == 0 {
            break;
        }
        bytes.extend_from_slice(&piece[..count])?;
        missing -= count;
    }
    Ok(bytes)
}
