//! A text that contracts see as its bytes.
ghost use Rattle.std.specs.Prelude.{◌≡◌, ◌≤◌, length, bytes_eq, IfOk, IsOk, string_bytes, IsUtf8};
ghost use Rattle.std.specs.Arc.{arc_str_bytes};

use crate::inline::{Inline, MOST_INLINE};
use std::alloc::{AllocError, Global};
use std::cmp::Ordering;
use std::fmt;
use std::hash::{Hash, Hasher};
use std::marker::Model;
use std::sync::ArcStr;

/// A text that contracts see as its bytes, which are UTF-8.
///
/// Up to 14 bytes lie in the value itself; a longer text is a `String` that its copies share,
/// so a copy of a text never copies a long text's bytes.
#[derive(Drop)]
pub struct Text {
    repr: Repr,
}

#[derive(Drop)]
enum Repr {
    Short(Inline),
    Long(ArcStr),
}

impl Model for Text {
    ghost use Rattle.std.specs.Prelude.{List, ℕ};
    ghost use Rattle.mvt_base.specs.Texts.{repr_bytes, IsInItsForm};

    ghost Value = { List ℕ };

    ghost view = { λ t. repr_bytes t.repr };

    ghost invariant = { λ t. IsInItsForm t.repr };
}

impl Text {
    /// The text of a `str`. A short one needs no memory.
    ///
    /// # Errors
    ///
    /// When memory runs out.
    pub fn from_str(alloc: Global, text: &str) -> Result<Self, AllocError>
        ensures same { IfOk result (λ copy. copy ≡ text.now) }
        ensures short { length text.now ≤ 14 → IsOk result }
    {
        let repr = if text.len() <= MOST_INLINE {
            Repr::Short(Inline::of(text))
        } else {
            Repr::Long(ArcStr::from_str(alloc, text)?)
        };
        Ok(Text { repr })
    }

    /// The text of a `String`, whose memory a long text keeps. A short one needs no memory.
    ///
    /// # Errors
    ///
    /// When memory runs out: a long text needs a block for the count of its copies.
    pub fn from_string(string: String) -> Result<Self, AllocError>
        ensures same { IfOk result (λ text. text ≡ string_bytes string) }
        ensures short { length (string_bytes string) ≤ 14 → IsOk result }
    {
        let repr = if string.len() <= MOST_INLINE {
            Repr::Short(Inline::of(string.as_str()))
        } else {
            Repr::Long(ArcStr::from_string(string)?)
        };
        Ok(Text { repr })
    }

    /// The text.
    #[inline(always)]
    pub fn as_str(&self) -> &str
        ensures text { result.now ≡ self.now }
        ensures utf8 { IsUtf8 self.now }
    {
        match &self.repr {
            Repr::Short(text) => text.as_str(),
            Repr::Long(text) => text.as_str(),
        }
    }

    /// A text of the same bytes, which shares a long text's memory.
    ///
    /// # Errors
    ///
    /// When memory runs out. Some is needed only if a long text has as many copies as can be
    /// counted: the copy then begins a block of its own.
    #[inline(always)]
    pub fn copy(&self, alloc: Global) -> Result<Self, AllocError>
        ensures same { IfOk result (λ copy. copy ≡ self.now) }
        ensures short { length self.now ≤ 14 → IsOk result }
    {
        let repr = match &self.repr {
            Repr::Short(text) => Repr::Short(text.copy()),
            Repr::Long(text) => Repr::Long(share(alloc, text)?),
        };
        Ok(Text { repr })
    }
}

#[inline(never)]
fn share(alloc: Global, text: &ArcStr) -> Result<ArcStr, AllocError>
    ensures { IfOk result (λ copy. arc_str_bytes copy ≡ arc_str_bytes text.now) }
{
    match text.clone() {
        Ok(shared) => Ok(shared),
        Err(AllocError) => ArcStr::from_str(alloc, text.as_str()),
    }
}

impl fmt::Debug for Text {
    fn fmt<W: fmt::Write>(&self, f: &mut fmt::Formatter<W>) -> fmt::Result {
        fmt::Debug::fmt(&self.as_str(), f)
    }
}

impl PartialEq for Text {
    ghost use Rattle.std.specs.Prelude.{bytes_eq};
    ghost use Rattle.std.proofs.Common.{rules};
    ghost use Rattle.std.specs.Cmp.Rules.{comparing};

    ghost eq = { bytes_eq };

    ghost laws = { Prim.search (comparing, rules) };

    #[inline(always)]
    fn eq(&self, other: &Self) -> bool {
        match (&self.repr, &other.repr) {
            (Repr::Short(one), Repr::Short(other)) => one.is(other),
            _ => are_same(self.as_str(), other.as_str()),
        }
    }
}

#[inline(never)]
fn are_same(one: &str, other: &str) -> bool
    ensures { result ≡ bytes_eq one.now other.now }
{
    one == other
}

impl Eq for Text {
    ghost use Rattle.std.proofs.Common.{rules};
    ghost use Rattle.std.specs.Cmp.Rules.{comparing};

    ghost laws = { Prim.search (comparing, rules) };
}

impl PartialOrd for Text {
    ghost use Rattle.std.specs.Ordering.{nat_cmp, as_partial_cmp};
    ghost use Rattle.std.specs.Cmp.Lexicographic.{slice_cmp};
    ghost use Rattle.std.specs.Cmp.{partial_order_from_own_ties};
    ghost use Rattle.std.proofs.Common.{rules};
    ghost use Rattle.std.specs.Cmp.Rules.{comparing};

    ghost partial_cmp = { as_partial_cmp (slice_cmp nat_cmp) };

    ghost laws = { partial_order_from_own_ties (Prim.search (comparing, rules))
        (Prim.search (comparing, rules)) };

    fn partial_cmp(&self, other: &Self) -> Option<Ordering> {
        Some(self.cmp(other))
    }
}

/// By bytes, one by one.
impl Ord for Text {
    ghost use Rattle.std.specs.Ordering.{nat_cmp};
    ghost use Rattle.std.specs.Cmp.Lexicographic.{slice_cmp};
    ghost use Rattle.std.proofs.Common.{rules};
    ghost use Rattle.std.specs.Cmp.Rules.{comparing};

    ghost cmp = { slice_cmp nat_cmp };

    ghost total = { Prim.search (comparing, rules) };

    ghost matches_partial_cmp = { Prim.search (comparing, rules) };

    ghost matches_eq = { Prim.search (comparing, rules) };

    fn cmp(&self, other: &Self) -> Ordering {
        self.as_str().cmp(other.as_str())
    }
}

impl Hash for Text {
    ghost use Rattle.std.specs.Hash as fed;
    ghost use Rattle.std.proofs.Common.{rules};
    ghost use Rattle.std.specs.Cmp.Rules.{hashing};

    ghost hash_input = { fed.str };

    ghost respects_eq = { Prim.search (hashing, rules) };

    fn hash<H: Hasher>(&self, state: &mut H) {
        self.as_str().hash(state);
    }
}

const _: () = prove!(std::mem::size_of::<Text>() == 16);
