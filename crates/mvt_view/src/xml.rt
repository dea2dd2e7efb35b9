//! Texts between the tags of XML.
ghost use Rattle.std.specs.Prelude.{◌≡◌, ◌++◌, OnOk, string_bytes};
ghost use Rattle.std.specs.List.{list_all};
ghost use Rattle.mvt_view.specs.Xml.{escaped, escaped_char, is_plain as the_plain};

use std::alloc::AllocError;

/// Appends a text so that it reads as the text between two tags; characters that XML 1.0 doesn't
/// have become U+FFFD.
///
/// A text of plain bytes alone is copied as it is.
pub(crate) fn push_escaped(text: &mut String, plain: &str) -> Result<(), AllocError>
    ensures { OnOk result (string_bytes text.new ≡ string_bytes text.old ++ escaped plain.now) }
{
    if are_plain(plain.as_bytes()) {
        text.push_str(plain)
    } else {
        push_chars(text, plain)
    }
}

/// Whether every byte is plain. The loop goes on after one that isn't, so that it takes many bytes
/// at a time.
fn are_plain(bytes: &[u8]) -> bool
    ensures { result ≡ list_all the_plain bytes.now }
{
    let mut all = true;
    for byte in bytes {
        all &= is_plain(*byte);
    }
    all
}

/// Whether a byte stands in no character that is escaped.
#[inline(always)]
fn is_plain(byte: u8) -> bool
    ensures { result ≡ the_plain byte }
{
    byte > 31 && byte != b'&' && byte != b'<' && byte != b'>' && byte != 0xEF
}

/// Appends a text that is escaped character by character.
fn push_chars(text: &mut String, plain: &str) -> Result<(), AllocError>
    ensures { OnOk result (string_bytes text.new ≡ string_bytes text.old ++ escaped plain.now) }
{
    for c in plain.chars() {
        push_char(text, c)?;
    }
    Ok(())
}

#[tactic(auto, unfolding(crate::specs::Xml::escaped_char))]
fn push_char(text: &mut String, c: char) -> Result<(), AllocError>
    ensures { OnOk result (string_bytes text.new ≡ string_bytes text.old ++ escaped_char c) }
{
    match c {
        '&' => text.push_str("&amp;"),
        '<' => text.push_str("&lt;"),
        '>' => text.push_str("&gt;"),
        '\r' => text.push_str("&#13;"),
        '\t' | '\n' | ' '..='\u{FFFD}' | '\u{10000}'.. => text.push(c),
        _ => text.push('\u{FFFD}'),
    }
}
