//! Texts as strings of JSON.
ghost use Rattle.std.specs.Prelude.{◌≡◌, ◌<◌, ◌≤◌, ◌++◌, OnOk, OnErr, false, get_or, length, string_bytes};
ghost use Rattle.std.specs.Char.{digit_char};
ghost use Rattle.std.specs.List.{list_all};
ghost use Rattle.mvt_base.specs.Related.{Extends};
ghost use Rattle.json.specs.Print.{escape, escape_byte, escape_letter, quoted};
ghost use Rattle.mvt_view.specs.JsonForms.{is_clean as the_clean};
ghost use Rattle.mvt_view.specs.Runs.{RunsTo};

use std::alloc::AllocError;

/// Texts of fewer bytes are looked at whole before they are copied.
const SHORT: usize = 256;

/// How many bytes are looked at together where a longer run of clean ones ends.
const BLOCK: usize = 32;

/// Appends a text as a string of JSON. After an error the text is as it was, or longer.
///
/// # Errors
///
/// When memory runs out.
pub fn push_quoted(text: &mut String, plain: &str) -> Result<(), AllocError>
    ensures ok { OnOk result (string_bytes text.new ≡ string_bytes text.old ++ quoted plain.now) }
    ensures left { OnErr result (Extends (string_bytes text.old) (string_bytes text.new)) }
{
    text.push_str("\"")?;
    push_inside(text, plain)?;
    text.push_str("\"")
}

/// Appends a text as it stands between the quotation marks. A short one of clean bytes alone is
/// copied as it is.
fn push_inside(text: &mut String, plain: &str) -> Result<(), AllocError>
    ensures ok { OnOk result (string_bytes text.new ≡ string_bytes text.old ++ escape plain.now) }
    ensures left { OnErr result (Extends (string_bytes text.old) (string_bytes text.new)) }
{
    if plain.len() < SHORT && are_clean(plain.as_bytes()) {
        text.push_str(plain)
    } else {
        push_runs(text, plain)
    }
}

/// Appends the runs of clean bytes of a text, and the escapes of those between them.
fn push_runs(text: &mut String, plain: &str) -> Result<(), AllocError>
    ensures ok { OnOk result (string_bytes text.new ≡ string_bytes text.old ++ escape plain.now) }
    ensures left { OnErr result (Extends (string_bytes text.old) (string_bytes text.new)) }
{
    let bytes = plain.as_bytes();
    let mut at = 0;
    loop {
        let stop = clean_end(bytes, at);
        text.push_str(&plain[at..stop])?;
        if stop == bytes.len() {
            return Ok(());
        }
        push_mark(text, bytes[stop])?;
        at = stop + 1;
    }
}

/// Where the run of clean bytes ends that begins here.
fn clean_end(bytes: &[u8], from: usize) -> usize
    requires { from ≤ length bytes.now }
    ensures run { RunsTo bytes.now from result }
    ensures stop { result < length bytes.now → the_clean (get_or bytes.now result 0) ≡ false }
{
    let mut end = clean_blocks(bytes, from);
    while end < bytes.len() && is_clean(bytes[end]) {
        end += 1;
    }
    end
}

/// Where the blocks of clean bytes end that stand here, one after another.
fn clean_blocks(bytes: &[u8], from: usize) -> usize
    requires { from ≤ length bytes.now }
    ensures run { RunsTo bytes.now from result }
{
    let mut end = from;
    while bytes.len() - end >= BLOCK && are_clean(&bytes[end..end + BLOCK]) {
        end += BLOCK;
    }
    end
}

/// Appends the escape of a byte that isn't clean.
#[tactic(auto, unfolding(json::specs::Print::escape_byte))]
fn push_mark(text: &mut String, mark: u8) -> Result<(), AllocError>
    requires { the_clean mark ≡ false }
    ensures ok { OnOk result (string_bytes text.new ≡ string_bytes text.old ++ escape_byte mark) }
    ensures left { OnErr result (Extends (string_bytes text.old) (string_bytes text.new)) }
{
    match mark {
        b'"' => text.push_str("\\\""),
        b'\\' => text.push_str("\\\\"),
        8 => text.push_str("\\b"),
        12 => text.push_str("\\f"),
        b'\n' => text.push_str("\\n"),
        b'\r' => text.push_str("\\r"),
        b'\t' => text.push_str("\\t"),
        _ => push_control(text, mark),
    }
}

/// Appends the escape of a control character that no letter stands for.
fn push_control(text: &mut String, control: u8) -> Result<(), AllocError>
    requires low { control < 32 }
    requires letter { escape_letter control ≡ 0 }
    ensures ok { OnOk result
        (string_bytes text.new ≡ string_bytes text.old ++ escape_byte control) }
    ensures left { OnErr result (Extends (string_bytes text.old) (string_bytes text.new)) }
{
    text.push_str("\\u00")?;
    text.push(hex(control / 16))?;
    text.push(hex(control % 16))
}

fn hex(digit: u8) -> char
    requires { digit < 16 }
    ensures digit { result ≡ digit_char digit }
    ensures ascii { result < 128 }
{
    let code = if digit < 10 {
        b'0' + digit
    } else {
        b'a' - 10 + digit
    };
    char::from(code)
}

/// Whether every byte is clean. The loop goes on after one that isn't, so that it takes many bytes
/// at a time.
#[inline(always)]
fn are_clean(bytes: &[u8]) -> bool
    ensures { result ≡ list_all the_clean bytes.now }
{
    let mut all = true;
    for byte in bytes {
        all &= is_clean(*byte);
    }
    all
}

/// Whether a byte stands in a string of JSON as it is.
#[inline(always)]
fn is_clean(byte: u8) -> bool
    ensures { result ≡ the_clean byte }
{
    byte > 31 && byte != b'"' && byte != b'\\'
}
