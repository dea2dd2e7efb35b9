//! What a command answers, and how it is written.
ghost use Rattle.std.specs.Prelude.{◌≡◌, ◌<◌, ◌⊎◌, None, OnOk, OnErr, IfErr, MatchOption};
ghost use Rattle.std.specs.Option.{option_or};
ghost use Rattle.mvt_io.specs.States.{NoneFailed};
ghost use Rattle.mvt_io.specs.Transfers.{TakesPrefix};
ghost use Rattle.mvt_tasks.specs.Checks.{Prints};
ghost use Rattle.mvt_tasks.specs.Failures.{EndsFailed, line_of, status_of};
ghost use Rattle.mvt_tasks.specs.Output.{GivesReply, IsGiven, PutOut, PutsText, status_with};

use crate::failure::Failure;
use mvt_base::{Items, Text};
use mvt_io::{Sink, write_all};

/// What a command answers: the bytes for the output, if any, the line for the error stream, if
/// there is one, or else lines that say what is changed, and whether the bytes tell findings. The
/// status is 1 exactly if there is a line, and else 5 if there are findings.
#[derive(Debug, Drop)]
pub struct Reply {
    pub output: Option<Items<u8>>,
    pub error_line: Option<Text>,
    pub changes: Option<Text>,
    pub has_findings: bool,
}

/// Puts the bytes of a reply out, if there are any due.
///
/// # Errors
///
/// Write, if a write or the flush fails; the writer has then taken a front of the bytes.
fn deliver<W: Sink>(output: Option<Items<u8>>, writer: &mut W) -> Result<(), Failure>
    ensures put { OnOk result (MatchOption output (writer.new ≡ writer.old)
        (PutOut (W.state writer.old) (W.state writer.new))) }
    ensures prefix { OnErr result (MatchOption output ⊥
        (TakesPrefix (W.state writer.old).taken (W.state writer.new).taken)) }
    ensures failed { IfErr result (λ failure. (failure ≡ Failure.Write)
        × EndsFailed (W.state writer.old).faults (W.state writer.new).faults) }
    ensures honest { OnOk result
        (NoneFailed (W.state writer.old).faults (W.state writer.new).faults) }
{
    if let Some(bytes) = output {
        put_out(bytes.as_slice(), writer)?;
    }
    Ok(())
}

/// Puts bytes out whole and flushes once.
fn put_out<W: Sink>(bytes: &[u8], writer: &mut W) -> Result<(), Failure>
    ensures put { OnOk result (PutOut (W.state writer.old) (W.state writer.new) bytes.now) }
    ensures prefix { OnErr result
        (TakesPrefix (W.state writer.old).taken (W.state writer.new).taken bytes.now) }
    ensures failed { IfErr result (λ failure. (failure ≡ Failure.Write)
        × EndsFailed (W.state writer.old).faults (W.state writer.new).faults) }
    ensures honest { OnOk result
        (NoneFailed (W.state writer.old).faults (W.state writer.new).faults) }
{
    write_all(writer, bytes).map_err(|_| Failure::Write)?;
    writer.flush().map_err(|_| Failure::Write)
}

/// Writes a reply, and answers its status; 3 if that failed.
pub(crate) fn give<W: Sink, E: Sink>(reply: Reply, writer: &mut W, errors: &mut E) -> u8
    ensures done { IsGiven result → GivesReply result (writer.new ≡ writer.old)
        (PutOut (W.state writer.old) (W.state writer.new)) (errors.new ≡ errors.old)
        (Prints (E.state errors.old) (E.state errors.new)) reply }
    ensures honest { IsGiven result
        → NoneFailed (W.state writer.old).faults (W.state writer.new).faults }
    ensures prefix { result ≡ 3 → PutsText ⊥
        (TakesPrefix (W.state writer.old).taken (W.state writer.new).taken) reply }
    ensures failed { result ≡ 3
        → EndsFailed (W.state writer.old).faults (W.state writer.new).faults }
    ensures line { result ≡ 3
        → Prints (E.state errors.old) (E.state errors.new) (line_of Failure.Write) }
    ensures statuses { IsGiven result ⊎ (result ≡ 3) }
{
    let Reply {
        output,
        error_line,
        changes,
        has_findings,
    } = reply;
    match deliver(output, writer) {
        Ok(()) => tell(error_line, changes, has_findings, errors),
        Err(failure) => fail(failure, errors),
    }
}

/// Tells the line of a reply, or else what is changed, and answers its status.
fn tell<E: Sink>(
    error_line: Option<Text>,
    changes: Option<Text>,
    has_findings: bool,
    errors: &mut E,
) -> u8
    ensures status { result ≡ status_with error_line has_findings }
    ensures given { IsGiven result }
    ensures told { MatchOption (option_or error_line changes) (errors.new ≡ errors.old)
        (Prints (E.state errors.old) (E.state errors.new)) }
{
    if let Some(line) = error_line {
        print(errors, line.as_str());
        return 1;
    }
    if let Some(lines) = changes {
        print(errors, lines.as_str());
    }
    status_of_lint(has_findings)
}

/// The status of a reply without a line.
fn status_of_lint(has_findings: bool) -> u8
    ensures { result ≡ status_with None has_findings }
{
    if has_findings { 5 } else { 0 }
}

/// Tells a failure, and answers its status.
pub(crate) fn fail<E: Sink>(failure: Failure, errors: &mut E) -> u8
    ensures status { result ≡ status_of failure }
    ensures above { 2 < result }
    ensures below { result < 5 }
    ensures line { Prints (E.state errors.old) (E.state errors.new) (line_of failure) }
{
    print(errors, failure.line());
    failure.status()
}

/// Writes a line to the error stream, whose faults are ignored.
pub fn print<E: Sink>(errors: &mut E, line: &str)
    ensures { Prints (E.state errors.old) (E.state errors.new) line.now }
{
    let _ = write_all(errors, line.as_bytes());
}
