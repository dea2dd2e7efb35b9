//! A text that is lent, and that contracts see as its bytes.
ghost use Rattle.std.specs.Prelude.{◌≡◌, IfOk};
ghost use Rattle.mvt_attrs.specs.FirstUses.{lent};

use std::alloc::{AllocError, Global};
use std::cmp::Ordering;
use std::hash::{Hash, Hasher};
use std::marker::Model;

/// A text that is lent, and that contracts see as its bytes, as they see a `Text`.
#[derive(Debug, Drop)]
pub struct TextRef<'a> {
    text: &'a str,
}

impl<'a> Model for TextRef<'a> {
    ghost use Rattle.std.specs.Prelude.{List, ℕ};

    ghost Value = { List ℕ };

    ghost view = { λ t. t.text.now };
}

impl<'a> TextRef<'a> {
    /// This text.
    #[inline(always)]
    pub fn of(text: &'a str) -> TextRef<'a>
        ensures { result ≡ text.now }
    {
        TextRef { text }
    }

    /// The text.
    #[inline(always)]
    pub fn as_str(&self) -> &'a str
        ensures { result.now ≡ self.now }
    {
        self.text
    }

    /// This text once more.
    #[inline(always)]
    pub fn again(&self) -> TextRef<'a>
        ensures { result ≡ self.now }
    {
        TextRef::of(self.as_str())
    }
}

impl PartialEq for TextRef<'_> {
    ghost use Rattle.std.specs.Prelude.{bytes_eq};
    ghost use Rattle.std.proofs.Common.{rules};
    ghost use Rattle.std.specs.Cmp.Rules.{comparing};

    ghost eq = { bytes_eq };

    ghost laws = { Prim.search (comparing, rules) };

    #[inline(always)]
    fn eq(&self, other: &Self) -> bool {
        self.as_str() == other.as_str()
    }
}

impl Eq for TextRef<'_> {
    ghost use Rattle.std.proofs.Common.{rules};
    ghost use Rattle.std.specs.Cmp.Rules.{comparing};

    ghost laws = { Prim.search (comparing, rules) };
}

impl PartialOrd for TextRef<'_> {
    ghost use Rattle.std.specs.Ordering.{nat_cmp, as_partial_cmp};
    ghost use Rattle.std.specs.Cmp.Lexicographic.{slice_cmp};
    ghost use Rattle.std.specs.Cmp.{partial_order_from_own_ties};
    ghost use Rattle.std.proofs.Common.{rules};
    ghost use Rattle.std.specs.Cmp.Rules.{comparing};

    ghost partial_cmp = { as_partial_cmp (slice_cmp nat_cmp) };

    ghost laws = { partial_order_from_own_ties (Prim.search (comparing, rules))
        (Prim.search (comparing, rules)) };

    fn partial_cmp(&self, other: &Self) -> Option<Ordering> {
        Some(self.cmp(other))
    }
}

/// By bytes, one by one.
impl Ord for TextRef<'_> {
    ghost use Rattle.std.specs.Ordering.{nat_cmp};
    ghost use Rattle.std.specs.Cmp.Lexicographic.{slice_cmp};
    ghost use Rattle.std.proofs.Common.{rules};
    ghost use Rattle.std.specs.Cmp.Rules.{comparing};

    ghost cmp = { slice_cmp nat_cmp };

    ghost total = { Prim.search (comparing, rules) };

    ghost matches_partial_cmp = { Prim.search (comparing, rules) };

    ghost matches_eq = { Prim.search (comparing, rules) };

    fn cmp(&self, other: &Self) -> Ordering {
        self.as_str().cmp(other.as_str())
    }
}

impl Hash for TextRef<'_> {
    ghost use Rattle.std.specs.Hash as fed;
    ghost use Rattle.std.proofs.Common.{rules};
    ghost use Rattle.std.specs.Cmp.Rules.{hashing};

    ghost hash_input = { fed.str };

    ghost respects_eq = { Prim.search (hashing, rules) };

    fn hash<H: Hasher>(&self, state: &mut H) {
        self.as_str().hash(state);
    }
}

/// Texts that are lent, as contracts see them.
///
/// # Errors
///
/// When memory runs out.
pub fn refs_of<'a>(alloc: Global, strs: &[&'a str]) -> Result<Vec<TextRef<'a>>, AllocError>
    ensures { IfOk result (λ texts. texts.items ≡ lent strs.now) }
{
    let mut texts = Vec::with_capacity(alloc, strs.len())?;
    for text in strs {
        texts.push(TextRef::of(text))?;
    }
    Ok(texts)
}
