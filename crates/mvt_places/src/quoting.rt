//! Names of files as words of a shell, for commands that are pasted.
ghost use Rattle.std.specs.Prelude.{◌≡◌, ◌++◌, not, nat_lt, IfOk, OnOk, chars, string_bytes};
ghost use Rattle.std.specs.List.{flat_map, list_any};
ghost use Rattle.mvt_places.specs.Quoting.{in_quotes, is_harmless as the_is_harmless, is_plain as the_is_plain, quoted_char, shell_word as the_word};

use crate::shown::push_shown;
use std::alloc::{AllocError, Global};

/// The word of a shell that names this file: as it is, or in quotes if a shell would read more in
/// it. `FILE` stands for a name with characters that a terminal would obey.
///
/// # Errors
///
/// When memory runs out.
#[tactic(auto, unfolding(crate::specs::Quoting::shell_word))]
pub fn shell_word(alloc: Global, name: &str) -> Result<String, AllocError>
    ensures { IfOk result (λ word. string_bytes word ≡ the_word name.now) }
{
    if !is_harmless(alloc, name)? {
        return String::from_str(alloc, "FILE");
    }
    let mut word = String::new(alloc);
    if name.as_bytes().starts_with(b"-") {
        word.push_str("./")?;
    }
    push_in_quotes(&mut word, name)?;
    Ok(word)
}

/// Whether a terminal shows a name as it is.
fn is_harmless(alloc: Global, name: &str) -> Result<bool, AllocError>
    ensures { IfOk result (λ answer. answer ≡ the_is_harmless name.now) }
{
    if has_control(name.as_bytes()) {
        return Ok(false);
    }
    let mut text = String::new(alloc);
    push_shown(&mut text, name)?;
    Ok(text.as_str() == name)
}

/// Whether a byte is a control of C0.
fn has_control(bytes: &[u8]) -> bool
    ensures { result ≡ list_any (λ b. nat_lt b 32) bytes.now }
{
    bytes.iter().any(|byte| is_control(*byte))
}

fn is_control(byte: u8) -> bool
    ensures { result ≡ nat_lt byte 32 }
{
    byte < 32
}

/// Whether a shell takes some byte for more than itself.
fn has_odd(bytes: &[u8]) -> bool
    ensures { result ≡ list_any (λ b. not (the_is_plain b)) bytes.now }
{
    bytes.iter().any(|byte| !is_plain(*byte))
}

/// Appends a name, in quotes unless a shell takes each of its characters for itself.
fn push_in_quotes(text: &mut String, name: &str) -> Result<(), AllocError>
    ensures { OnOk result (string_bytes text.new ≡ string_bytes text.old ++ in_quotes name.now) }
{
    let bytes = name.as_bytes();
    if bytes.is_empty() || has_odd(bytes) {
        text.push_str("'")?;
        push_quoted(text, name)?;
        return text.push_str("'");
    }
    text.push_str(name)
}

/// Appends the characters of a name as they stand between single quotes.
fn push_quoted(text: &mut String, name: &str) -> Result<(), AllocError>
    ensures { OnOk result (string_bytes text.new
        ≡ string_bytes text.old ++ flat_map quoted_char (chars name.now)) }
{
    for c in name.chars() {
        push_char(text, c)?;
    }
    Ok(())
}

#[tactic(auto, unfolding(crate::specs::Quoting::quoted_char))]
fn push_char(text: &mut String, c: char) -> Result<(), AllocError>
    ensures { OnOk result (string_bytes text.new ≡ string_bytes text.old ++ quoted_char c) }
{
    if c == '\'' {
        return text.push_str("'\\''");
    }
    text.push(c)
}

/// Whether a byte means nothing but itself to a shell.
fn is_plain(byte: u8) -> bool
    ensures { result ≡ the_is_plain byte }
{
    (45 <= byte && byte <= 57)
        || ((65 <= byte && byte <= 90) || ((97 <= byte && byte <= 122) || byte == 95))
}
