//! What is said of a refused tile, line by line.
ghost use Rattle.std.specs.Prelude.{◌≡◌, ◌+◌, ◌-◌, ◌^◌, ◌<◌, ◌≤◌, ◌++◌, length, IfOk, OnOk, string_bytes};
ghost use Rattle.std.specs.Option.{option_copied};
ghost use Rattle.mvt_wire.specs.Fronts.{number_at};
ghost use Rattle.mvt_places.specs.Messages.{span};
ghost use Rattle.mvt_places.specs.Explanations as spec;
ghost use Rattle.mvt_places.specs.Explanations.{byte_text, bytes_text, explanation, explanation_by, first_tag_text, holders_line, name_text, numbered, place_line, row_text, rows_text, tag_text, told, value_text, what_text, where_text};

use crate::locating::locate;
use crate::place::Place;
use crate::sentences::sentence;
use crate::shown::{push_hex, push_shown};
use crate::span::Span;
use crate::target::{Target, target_of};
use mvt_base::LIMIT;
use mvt_tile::Fault;
use mvt_view::{ViewError, push_quoted};
use mvt_wire::read_varint;
use std::alloc::{AllocError, Global};
use std::fmt::Write;

/// A fault explained in a few lines, each with a line feed: the layer and the feature, the place
/// and what stands there, the broken rule in plain words, and the bytes around the place.
///
/// # Errors
///
/// When memory runs out.
pub fn explanation_text(alloc: Global, input: &[u8], fault: &Fault) -> Result<String, ViewError>
    ensures { IfOk result (λ text. string_bytes text ≡ explanation LIMIT input.now fault.now) }
{
    Ok(text_at(alloc, input, fault, &locate(input, fault))?)
}

/// The same with the place of the fault.
#[tactic(auto, unfolding(crate::specs::Explanations::explanation_by))]
fn text_at(
    alloc: Global,
    input: &[u8],
    fault: &Fault,
    place: &Place<'_>,
) -> Result<String, AllocError>
    requires ordered { place.now.start ≤ place.now.end }
    requires within { place.now.end ≤ length input.now }
    ensures { IfOk result (λ text. string_bytes text ≡ explanation_by input.now fault.now
        (option_copied place.now.layer_name) place.now.feature_id
        (span place.now.start place.now.end)) }
{
    let mut text = String::new(alloc);
    push_holders(alloc, &mut text, fault, place)?;
    let span = Span {
        start: place.start,
        end: place.end,
    };
    push_place(&mut text, input, fault, span)?;
    text.push_str(sentence(input, fault.cause))?;
    text.push_str("\n")?;
    push_rows(&mut text, input, span)?;
    Ok(text)
}

/// Appends the line of the layer and the feature; nothing without a layer.
#[tactic(auto, unfolding(crate::specs::Explanations::holders_line))]
fn push_holders(
    alloc: Global,
    text: &mut String,
    fault: &Fault,
    place: &Place<'_>,
) -> Result<(), AllocError>
    ensures { OnOk result (string_bytes text.new ≡ string_bytes text.old ++ holders_line
        fault.now.layer (option_copied place.now.layer_name) fault.now.feature
        place.now.feature_id) }
{
    let Some(layer) = fault.layer else {
        return Ok(());
    };
    write!(text, "layer {layer}")?;
    push_name(alloc, text, place.layer_name)?;
    push_told(text, ", feature ", fault.feature.map(u64::from))?;
    push_told(text, ", id ", place.feature_id)?;
    text.push_str("\n")
}

/// Appends a name as JSON, of which a terminal obeys nothing.
fn push_name(alloc: Global, text: &mut String, name: Option<&[u8]>) -> Result<(), AllocError>
    ensures { OnOk result (string_bytes text.new
        ≡ string_bytes text.old ++ name_text (option_copied name.entry)) }
{
    let Some(name) = name else {
        return Ok(());
    };
    text.push_str(" ")?;
    let mut quoted = String::new(alloc);
    push_quoted(&mut quoted, &String::from_utf8_lossy(alloc, name)?)?;
    push_shown(text, &quoted)
}

/// Appends a number after a word, if there is one.
fn push_told(text: &mut String, word: &str, number: Option<u64>) -> Result<(), AllocError>
    ensures { OnOk result (string_bytes text.new
        ≡ string_bytes text.old ++ told word.now number) }
{
    match number {
        Some(number) => {
            text.push_str(word)?;
            write!(text, "{number}")
        }
        None => Ok(()),
    }
}

/// Appends the line of the bytes and of what stands there.
#[tactic(auto, unfolding(crate::specs::Explanations::place_line))]
fn push_place(text: &mut String, input: &[u8], fault: &Fault, span: Span) -> Result<(), AllocError>
    requires ordered { span.start ≤ span.end }
    requires within { span.end ≤ length input.now }
    ensures { OnOk result (string_bytes text.new
        ≡ string_bytes text.old ++ place_line input.now fault.now span) }
{
    push_where(text, span)?;
    let bytes = &input[span.start as usize..span.end as usize];
    push_what(text, target_of(fault.cause), fault.at, bytes)?;
    text.push_str("\n")
}

fn push_where(text: &mut String, span: Span) -> Result<(), AllocError>
    ensures { OnOk result (string_bytes text.new ≡ string_bytes text.old ++ where_text span) }
{
    let start = span.start;
    if start >= span.end {
        return write!(text, "before byte {start}");
    }
    let last = span.end - 1;
    if start == last {
        return write!(text, "byte {start}");
    }
    write!(text, "bytes {start} to {last}")
}

/// Appends what the bytes of a place are.
#[tactic(auto, unfolding(crate::specs::Explanations::what_text))]
fn push_what(text: &mut String, target: Target, at: u64, bytes: &[u8]) -> Result<(), AllocError>
    ensures { OnOk result (string_bytes text.new
        ≡ string_bytes text.old ++ what_text target at bytes.now) }
{
    match target {
        Target::Field | Target::Name | Target::Rest => push_first_tag(text, bytes),
        Target::Tag => push_spelled(text, ", tag ", at, " of the feature", bytes),
        Target::Tags => push_spelled(text, ", number of tags: ", at, ", the last", bytes),
        Target::Integer => push_spelled(text, ", integer ", at, " of the geometry", bytes),
        Target::Integers => push_numbered(text, ", number of integers: ", at, ""),
    }
}

/// Appends an index or a count between words, and the number that bytes begin with.
fn push_spelled(
    text: &mut String,
    before: &str,
    number: u64,
    after: &str,
    bytes: &[u8],
) -> Result<(), AllocError>
    ensures { OnOk result (string_bytes text.new ≡ string_bytes text.old
        ++ (numbered before.now number after.now ++ value_text bytes.now)) }
{
    push_numbered(text, before, number, after)?;
    push_value(text, bytes)
}

/// Appends a number between words.
#[tactic(auto, unfolding(crate::specs::Explanations::numbered))]
fn push_numbered(
    text: &mut String,
    before: &str,
    number: u64,
    after: &str,
) -> Result<(), AllocError>
    ensures { OnOk result (string_bytes text.new
        ≡ string_bytes text.old ++ numbered before.now number after.now) }
{
    text.push_str(before)?;
    write!(text, "{number}")?;
    text.push_str(after)
}

/// Appends the number that bytes begin with, if they do.
fn push_value(text: &mut String, bytes: &[u8]) -> Result<(), AllocError>
    ensures { OnOk result (string_bytes text.new ≡ string_bytes text.old ++ value_text bytes.now) }
{
    push_told(text, ": ", value_in(bytes))
}

fn value_in(bytes: &[u8]) -> Option<u64>
    ensures { result ≡ spec.value_in (number_at bytes.now) }
{
    match read_varint(bytes) {
        Ok((value, _)) => Some(value),
        Err(_) => None,
    }
}

fn push_first_tag(text: &mut String, bytes: &[u8]) -> Result<(), AllocError>
    ensures { OnOk result (string_bytes text.new
        ≡ string_bytes text.old ++ first_tag_text bytes.now) }
{
    match bytes {
        [first, ..] => push_tag(text, *first),
        [] => Ok(()),
    }
}

/// Appends the first byte of a tag, and what it says where it is the whole tag.
#[tactic(auto, unfolding(crate::specs::Explanations::tag_text))]
fn push_tag(text: &mut String, byte: u8) -> Result<(), AllocError>
    ensures { OnOk result (string_bytes text.new ≡ string_bytes text.old ++ tag_text byte) }
{
    text.push_str(", tag byte 0x")?;
    push_hex(text, byte)?;
    if byte >= 128 {
        return Ok(());
    }
    let number = byte / 8;
    let wire_type = byte % 8;
    write!(text, ": field {number}, wire type {wire_type}")
}

/// Appends the rows of the bytes round a place.
fn push_rows(text: &mut String, input: &[u8], span: Span) -> Result<(), AllocError>
    requires ordered { span.start ≤ span.end }
    requires within { span.end ≤ length input.now }
    ensures { OnOk result (string_bytes text.new
        ≡ string_bytes text.old ++ rows_text input.now span) }
{
    let start = span.start as usize;
    let end = span.end as usize;
    let from = start.saturating_sub(4);
    let to = input.len().min((end + 4).min(from + 32));
    let middle = from + 16;
    let end_text = end_text(span, to as u64);
    if middle >= to {
        return push_row(text, span, from, &input[from..to], end_text);
    }
    push_row(text, span, from, &input[from..middle], "")?;
    push_row(text, span, middle, &input[middle..to], end_text)
}

/// What stands after the last byte that is shown: whether the place is empty there, or goes on.
fn end_text(span: Span, to: u64) -> &'static str
    ensures { result.now ≡ spec.end_text span to }
{
    if to < span.end {
        " .."
    } else if span.start < span.end {
        ""
    } else if span.start == to {
        " []"
    } else {
        ""
    }
}

/// Appends a row of bytes, the first of which stands at a place of the input.
#[tactic(auto, unfolding(crate::specs::Explanations::row_text))]
fn push_row(
    text: &mut String,
    span: Span,
    from: usize,
    bytes: &[u8],
    end: &str,
) -> Result<(), AllocError>
    requires { from + length bytes.now < 2 ^ 64 }
    ensures { OnOk result (string_bytes text.new
        ≡ string_bytes text.old ++ row_text span from bytes.now end.now) }
{
    write!(text, "{from} ")?;
    push_bytes(text, span, from, bytes)?;
    text.push_str(end)?;
    text.push_str("\n")
}

fn push_bytes(text: &mut String, span: Span, from: usize, bytes: &[u8]) -> Result<(), AllocError>
    requires { from + length bytes.now < 2 ^ 64 }
    ensures { OnOk result (string_bytes text.new
        ≡ string_bytes text.old ++ bytes_text span from bytes.now) }
{
    for (index, byte) in bytes.iter().enumerate() {
        push_byte(text, span, (from + index) as u64, *byte)?;
    }
    Ok(())
}

/// Appends a byte, with a bracket where the place begins or ends with it.
#[tactic(auto, unfolding(crate::specs::Explanations::byte_text))]
fn push_byte(text: &mut String, span: Span, at: u64, byte: u8) -> Result<(), AllocError>
    requires { at < 2 ^ 64 - 1 }
    ensures { OnOk result (string_bytes text.new
        ≡ string_bytes text.old ++ byte_text span at byte) }
{
    text.push_str(" ")?;
    text.push_str(opening(span, at))?;
    push_hex(text, byte)?;
    text.push_str(closing(span, at))
}

fn opening(span: Span, at: u64) -> &'static str
    ensures { result.now ≡ spec.opening span at }
{
    if at != span.start {
        ""
    } else if span.start < span.end {
        "["
    } else {
        "[] "
    }
}

fn closing(span: Span, at: u64) -> &'static str
    requires { at < 2 ^ 64 - 1 }
    ensures { result.now ≡ spec.closing span at }
{
    if at + 1 == span.end && span.start < span.end {
        "]"
    } else {
        ""
    }
}
