//! The lines of an input's top-level fields, and the fault after them.
ghost use Rattle.std.specs.Prelude.{◌≡◌, ◌++◌, OnOk, IfOk, string_bytes};
ghost use Rattle.mvt_wire.specs.Field.{entry_of};
ghost use Rattle.mvt_tile.specs.Faults.{outer_fault as outer};
ghost use Rattle.mvt_view.specs.FieldLines.{field_line, reported, IsFieldsText};

use crate::view_error::ViewError;
use mvt_base::LIMIT;
use mvt_message::Cause;
use mvt_tile::Fault;
use mvt_wire::{Field, Fields, Payload, WireCause, WireFault};
use std::alloc::{AllocError, Global};
use std::fmt::Write;

/// A line for each whole top-level field before the first broken spelling, and the fault of that.
///
/// Each line ends in a line feed.
#[derive(Debug, Drop)]
pub struct FieldsText {
    pub lines: String,
    pub fault: Option<Fault>,
}

/// Lists the top-level fields of the first `LIMIT` bytes of an input. A longer input is at fault
/// where they end.
///
/// # Errors
///
/// When memory runs out.
pub fn fields_text(alloc: Global, input: &[u8]) -> Result<FieldsText, ViewError>
    ensures { IfOk result (IsFieldsText LIMIT input.now) }
{
    Ok(fields_within(alloc, input, LIMIT as usize)?)
}

/// The same for any limit.
fn fields_within(alloc: Global, input: &[u8], limit: usize) -> Result<FieldsText, AllocError>
    ensures { IfOk result (IsFieldsText limit input.now) }
{
    let is_longer = input.len() > limit;
    let mut lines = String::new(alloc);
    for field in Fields::new(&input[..limit.min(input.len())]) {
        match field {
            Ok(field) => push_line(&mut lines, &field)?,
            Err(fault) => {
                let fault = Some(fault_of(fault, is_longer));
                return Ok(FieldsText { lines, fault });
            }
        }
    }
    let fault = is_longer.then_some(Fault::outer(limit as u64, Cause::TooLarge));
    Ok(FieldsText { lines, fault })
}

/// Appends the line of a field: its offset, its number, its form, and its number or its length.
#[tactic(auto, unfolding(crate::specs::FieldLines::field_line))]
fn push_line(lines: &mut String, field: &Field<'_>) -> Result<(), AllocError>
    ensures { OnOk result (string_bytes lines.new ≡ string_bytes lines.old ++ field_line
        (entry_of field.now)) }
{
    let at = field.at;
    let number = field.number;
    match field.payload {
        Payload::Varint(value) => writeln!(lines, "{at} {number} varint {value}"),
        Payload::I64(value) => writeln!(lines, "{at} {number} i64 {value}"),
        Payload::I32(value) => writeln!(lines, "{at} {number} i32 {value}"),
        Payload::Len(bytes) => {
            let len = bytes.len();
            writeln!(lines, "{at} {number} len {len}")
        }
    }
}

/// How a broken spelling is told: what is cut off only by the limit is too large.
fn fault_of(fault: WireFault, is_longer: bool) -> Fault
    ensures { result ≡ reported is_longer fault.at fault.cause }
{
    let cause = match fault.cause {
        WireCause::Truncated if is_longer => Cause::TooLarge,
        cause => Cause::from(cause),
    };
    Fault::outer(fault.at as u64, cause)
}
