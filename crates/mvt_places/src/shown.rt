//! Texts that a terminal shows and doesn't obey.
ghost use Rattle.std.specs.Prelude.{◌≡◌, ◌<◌, ◌++◌, OnOk, string_bytes};
ghost use Rattle.mvt_places.specs.Shown.{hex, hex_digit, is_control as the_is_control, is_direction as the_is_direction, shown, shown_char};

use std::alloc::AllocError;

/// Appends a text in which DEL, the controls of C1 and what turns a line round are spelled as
/// `\u009b` and the like. JSON spells all others.
pub(crate) fn push_shown(text: &mut String, plain: &str) -> Result<(), AllocError>
    ensures { OnOk result (string_bytes text.new ≡ string_bytes text.old ++ shown plain.now) }
{
    for c in plain.chars() {
        push_char(text, c)?;
    }
    Ok(())
}

#[tactic(auto, unfolding(crate::specs::Shown::shown_char))]
fn push_char(text: &mut String, c: char) -> Result<(), AllocError>
    ensures { OnOk result (string_bytes text.new ≡ string_bytes text.old ++ shown_char c) }
{
    if !is_control(c) && !is_direction(c) {
        return text.push(c);
    }
    let code = c as u32;
    text.push_str("\\u")?;
    push_hex(text, (code / 256 % 256) as u8)?;
    push_hex(text, (code % 256) as u8)
}

/// Whether a character is DEL, or a control of C1.
fn is_control(c: char) -> bool
    ensures { result ≡ the_is_control c }
{
    '\u{7F}' <= c && c <= '\u{9F}'
}

/// Whether a character turns a line round.
fn is_direction(c: char) -> bool
    ensures { result ≡ the_is_direction c }
{
    c == '\u{61C}'
        || (('\u{200E}' <= c && c <= '\u{200F}')
            || (('\u{202A}' <= c && c <= '\u{202E}') || ('\u{2066}' <= c && c <= '\u{2069}')))
}

/// Appends the two digits of a byte in base 16.
pub(crate) fn push_hex(text: &mut String, byte: u8) -> Result<(), AllocError>
    ensures { OnOk result (string_bytes text.new ≡ string_bytes text.old ++ hex byte) }
{
    text.push(digit(byte / 16))?;
    text.push(digit(byte % 16))
}

fn digit(value: u8) -> char
    requires { value < 16 }
    ensures { result ≡ hex_digit value }
{
    let code = if value < 10 {
        b'0' + value
    } else {
        b'a' + (value - 10)
    };
    char::from(code)
}
