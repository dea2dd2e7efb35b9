//! A short text, kept in place.
ghost use Rattle.std.specs.Prelude.{◌≡◌, ◌≤◌, length, bytes_eq, IsUtf8};

use std::marker::Model;

/// The most bytes of a text that is kept in place.
pub(crate) const MOST_INLINE: usize = 14;

/// A text of at most `MOST_INLINE` bytes: the front of an array, and zeros after it, so that two
/// texts are compared as texts of one length that the compiler knows.
#[derive(Drop)]
pub(crate) struct Inline {
    len: u8,
    bytes: [u8; MOST_INLINE],
}

impl Model for Inline {
    ghost use Rattle.std.specs.Prelude.{List, ℕ, ◌≡◌, ◌≤◌, take, get_or, IsUtf8};
    ghost use Rattle.mvt_base.specs.declared.inline.TheConstants.{MOST_INLINE};

    ghost Value = { List ℕ };

    ghost view = { λ t. take t.len t.bytes };

    ghost invariant = { λ t. (t.len ≤ MOST_INLINE) × IsUtf8 (take t.len t.bytes)
        × ((k : ℕ) → t.len ≤ k → get_or t.bytes k 0 ≡ 0) };
}

impl Inline {
    pub(crate) fn of(text: &str) -> Self
        requires { length text.now ≤ MOST_INLINE }
        ensures { result ≡ text.now }
    {
        let mut bytes = [0; MOST_INLINE];
        bytes[..text.len()].copy_from_slice(text.as_bytes());
        Inline {
            len: text.len() as u8,
            bytes,
        }
    }

    #[inline(always)]
    pub(crate) fn as_str(&self) -> &str
        ensures text { result.now ≡ self.now }
        ensures utf8 { IsUtf8 self.now }
        ensures short { length self.now ≤ MOST_INLINE }
    {
        let bytes = &self.bytes[..self.len as usize];
        unsafe { std::str::from_utf8_unchecked(bytes) }
    }

    /// Whether two texts are the same.
    #[inline(always)]
    pub(crate) fn is(&self, other: &Inline) -> bool
        ensures { result ≡ bytes_eq self.now other.now }
    {
        let one = unsafe { std::str::from_utf8_unchecked(&self.bytes) };
        let two = unsafe { std::str::from_utf8_unchecked(&other.bytes) };
        self.len == other.len && *one == *two
    }

    #[inline(always)]
    pub(crate) fn copy(&self) -> Self
        ensures { result ≡ self.now }
    {
        Inline {
            len: self.len,
            bytes: self.bytes,
        }
    }
}
