//! Reading a whole reader and writing a whole slice.
ghost use Rattle.std.specs.Prelude.{Some, IfOk, IfErr, OnOk};
ghost use Rattle.mvt_io.specs.States.{EndedBy};
ghost use Rattle.mvt_io.specs.Transfers.{ReadFront, Reads, TakesAtMost, Wrote, WroteFront, kind_read};

use super::rest::read_rest;
use super::{ReadError, Sink, Source};
use std::alloc::Global;
use std::io::ErrorKind;

/// The most bytes that one of the first reads asks for. When so many are there, the others ask for
/// more.
const PIECE: usize = 16_384;

/// All bytes that the reader has left, up to a bound.
///
/// # Errors
///
/// A read that failed ends the call. After an error the bytes read so far are lost.
pub fn read_up_to<R: Source>(
    alloc: Global,
    reader: &mut R,
    most: usize,
) -> Result<Vec<u8>, ReadError>
    ensures read { IfOk result
        (λ bytes. ReadFront most (R.state reader.old) (R.state reader.new) bytes.items) }
    ensures leaves { TakesAtMost most (R.state reader.old).left (R.state reader.new).left }
    ensures reads { Reads most (R.state reader.old) (R.state reader.new) }
    ensures faults { EndedBy (kind_read result) (R.state reader.old).faults
        (R.state reader.new).faults }
{
    let mut bytes = Vec::new(alloc);
    let mut piece = [0; PIECE];
    let mut missing = most;
    while missing > 0 {
        if bytes.len() >= PIECE {
            return read_rest(reader, missing, bytes);
        }
        let asked = missing.min(PIECE);
        let count = match reader.read(&mut piece[..asked]) {
            Ok(count) => count,
            Err(kind) => return Err(ReadError::Read(kind)),
        };
        if count == 0 {
            break;
        }
        bytes.extend_from_slice(&piece[..count])?;
        missing -= count;
    }
    Ok(bytes)
}

/// Writes all the bytes, in as many writes as it takes. Doesn't flush.
///
/// # Errors
///
/// A write that failed ends the call, with its kind; one that took nothing with `WriteZero`. The
/// writer has then taken a front of the bytes.
pub fn write_all<W: Sink>(writer: &mut W, bytes: &[u8]) -> Result<(), ErrorKind>
    ensures wrote { OnOk result (Wrote (W.state writer.old) (W.state writer.new) bytes.now) }
    ensures stopped { IfErr result (λ kind. WroteFront (W.state writer.old) (W.state writer.new)
        bytes.now (Some kind)) }
{
    let mut rest = bytes;
    while !rest.is_empty() {
        let count = writer.write(rest)?;
        if count == 0 {
            return Err(ErrorKind::WriteZero);
        }
        rest = &rest[count..];
    }
    Ok(())
}
