//! Whether an input is a text, and where it begins.
ghost use Rattle.std.specs.Prelude.{◌≡◌, false};
ghost use Rattle.std.specs.List.{list_all};
ghost use Rattle.mvt_places.specs.Lookalikes as spec;

use crate::lookalike::{behind, front};

/// So many of the first bytes tell whether an input is a text.
const TELLING: usize = 512;

/// Whether the first bytes are those of a text, which is no tile: a layer begins with a control
/// character.
pub(crate) fn is_text(input: &[u8]) -> bool
    ensures { result ≡ spec.is_text input.now }
{
    let start = front(input, TELLING);
    input.len() > 3 && are_of_text(start) && has_letters(start)
}

fn are_of_text(bytes: &[u8]) -> bool
    ensures { result ≡ list_all spec.is_of_text bytes.now }
{
    let mut rest = bytes;
    while let [byte, others @ ..] = rest {
        if !is_of_text(*byte) {
            return false;
        }
        rest = others;
    }
    true
}

/// Two letters in a row.
fn has_letters(bytes: &[u8]) -> bool
    ensures { result ≡ spec.has_letters false bytes.now }
{
    let mut behind_letter = false;
    let mut rest = bytes;
    while let [byte, others @ ..] = rest {
        let is_letter = is_letter(*byte);
        if behind_letter && is_letter {
            return true;
        }
        behind_letter = is_letter;
        rest = others;
    }
    false
}

/// The beginning of a text, without a byte order mark and white space.
pub(crate) fn inner_text(input: &[u8]) -> &[u8]
    ensures { result.now ≡ spec.inner_text input.now }
{
    let start = front(input, TELLING);
    if input.starts_with(&[0xef, 0xbb, 0xbf]) {
        return unspaced(behind(start, 3));
    }
    unspaced(start)
}

fn unspaced(bytes: &[u8]) -> &[u8]
    ensures { result.now ≡ spec.unspaced bytes.now }
{
    let mut rest = bytes;
    while let [byte, others @ ..] = rest {
        if !is_space(*byte) {
            return rest;
        }
        rest = others;
    }
    rest
}

/// White space, ASCII that is printed, or a byte of a character beyond ASCII.
fn is_of_text(byte: u8) -> bool
    ensures { result ≡ spec.is_of_text byte }
{
    is_space(byte) || (32 < byte && byte < 127) || 127 < byte
}

fn is_space(byte: u8) -> bool
    ensures { result ≡ spec.is_space byte }
{
    byte == b'\t' || byte == b'\n' || byte == b'\r' || byte == b' '
}

fn is_letter(byte: u8) -> bool
    ensures { result ≡ spec.is_letter byte }
{
    (b'A' <= byte && byte <= b'Z') || (b'a' <= byte && byte <= b'z')
}
