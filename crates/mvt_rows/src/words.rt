//! The keys and the values of a layer that is built, as they were given: a text that isn't UTF-8
//! and a number that no value has are kept too, so that the tile is refused as a whole.
ghost use Rattle.std.specs.Prelude.{◌≡◌, [], IfOk, OnOk};
ghost use Rattle.mvt_rows.specs.Told.{given_of};

use mvt_attrs::Entry;
use std::alloc::{AllocError, Global};
use std::cmp::Ordering;
use std::hash::{Hash, Hasher};
use std::marker::Model;

/// Bytes that contracts see as a list. They may not be UTF-8.
#[derive(Drop)]
pub(crate) struct Word {
    bytes: Vec<u8>,
}

impl Model for Word {
    ghost use Rattle.std.specs.Prelude.{List, ℕ};

    ghost Value = { List ℕ };

    ghost view = { λ w. w.bytes.items };
}

impl Word {
    pub(crate) fn new(alloc: Global) -> Self
        ensures { result ≡ [] }
    {
        Word {
            bytes: Vec::new(alloc),
        }
    }

    pub(crate) fn from_bytes(alloc: Global, bytes: &[u8]) -> Result<Self, AllocError>
        ensures { IfOk result (λ word. word ≡ bytes.now) }
    {
        let mut word = Word::new(alloc);
        word.set(bytes)?;
        Ok(word)
    }

    /// Makes it these bytes, in the memory that it has where they fit.
    pub(crate) fn set(&mut self, bytes: &[u8]) -> Result<(), AllocError>
        ensures { OnOk result (self.new ≡ bytes.now) }
    {
        self.bytes.clear();
        self.bytes.extend_from_slice(bytes)
    }

    pub(crate) fn as_bytes(&self) -> &[u8]
        ensures { result.now ≡ self.now }
    {
        self.bytes.as_slice()
    }
}

impl PartialEq for Word {
    ghost use Rattle.std.specs.Prelude.{bytes_eq};
    ghost use Rattle.std.proofs.Common.{rules};
    ghost use Rattle.std.specs.Cmp.Rules.{comparing};

    ghost eq = { bytes_eq };

    ghost laws = { Prim.search (comparing, rules) };

    #[inline(always)]
    fn eq(&self, other: &Self) -> bool {
        self.as_bytes() == other.as_bytes()
    }
}

impl Eq for Word {
    ghost use Rattle.std.proofs.Common.{rules};
    ghost use Rattle.std.specs.Cmp.Rules.{comparing};

    ghost laws = { Prim.search (comparing, rules) };
}

impl PartialOrd for Word {
    ghost use Rattle.std.specs.Ordering.{nat_cmp, as_partial_cmp};
    ghost use Rattle.std.specs.Cmp.Lexicographic.{slice_cmp};
    ghost use Rattle.std.specs.Cmp.{partial_order_from_own_ties};
    ghost use Rattle.std.proofs.Common.{rules};
    ghost use Rattle.std.specs.Cmp.Rules.{comparing};

    ghost partial_cmp = { as_partial_cmp (slice_cmp nat_cmp) };

    ghost laws = { partial_order_from_own_ties (Prim.search (comparing, rules))
        (Prim.search (comparing, rules)) };

    fn partial_cmp(&self, other: &Self) -> Option<Ordering> {
        Some(self.cmp(other))
    }
}

/// By bytes, one by one.
impl Ord for Word {
    ghost use Rattle.std.specs.Ordering.{nat_cmp};
    ghost use Rattle.std.specs.Cmp.Lexicographic.{slice_cmp};
    ghost use Rattle.std.proofs.Common.{rules};
    ghost use Rattle.std.specs.Cmp.Rules.{comparing};

    ghost cmp = { slice_cmp nat_cmp };

    ghost total = { Prim.search (comparing, rules) };

    ghost matches_partial_cmp = { Prim.search (comparing, rules) };

    ghost matches_eq = { Prim.search (comparing, rules) };

    fn cmp(&self, other: &Self) -> Ordering {
        self.as_bytes().cmp(other.as_bytes())
    }
}

impl Hash for Word {
    ghost use Rattle.std.specs.Prelude.{[], ◌∷◌};
    ghost use Rattle.std.proofs.Common.{rules};
    ghost use Rattle.std.specs.Cmp.Rules.{hashing};

    ghost hash_input = { λ word. word ∷ [] };

    ghost respects_eq = { Prim.search (hashing, rules) };

    fn hash<H: Hasher>(&self, state: &mut H) {
        state.write(self.as_bytes());
    }
}

impl Entry for Word {
    ghost use Rattle.std.proofs.Common.{rules};

    fn copied(&self, alloc: Global) -> Result<Self, AllocError> {
        Word::from_bytes(alloc, self.as_bytes())
    }

    #[inline(always)]
    fn is(&self, other: &Self) -> bool {
        self == other
    }

    /// Keys are found again and again.
    #[inline(always)]
    fn most_hashed() -> usize {
        48
    }

    ghost identical = { Prim.search rules };
}

/// A value as it was given: a text, or a kind and 64 bits.
#[derive(Drop, PartialEq, Eq, PartialOrd, Ord, Hash)]
pub(crate) struct Given {
    pub(crate) kind: u32,
    pub(crate) bits: u64,
    pub(crate) text: Word,
}

impl Given {
    pub(crate) fn new(alloc: Global) -> Self {
        Given {
            kind: 0,
            bits: 0,
            text: Word::new(alloc),
        }
    }

    /// Makes it this value, in the memory that it has where the text fits.
    pub(crate) fn set(&mut self, value: &AnyValue<'_>) -> Result<(), AllocError>
        ensures { OnOk result (self.new ≡ given_of value.now) }
    {
        self.kind = value.kind;
        if value.kind == 1 {
            self.bits = 0;
            self.text.set(value.text)
        } else {
            self.bits = value.bits;
            self.text.set(&[])
        }
    }
}

impl Entry for Given {
    ghost use Rattle.std.proofs.Common.{rules};

    fn copied(&self, alloc: Global) -> Result<Self, AllocError> {
        Ok(Given {
            kind: self.kind,
            bits: self.bits,
            text: self.text.copied(alloc)?,
        })
    }

    #[inline(always)]
    fn is(&self, other: &Self) -> bool {
        self.kind == other.kind && self.bits == other.bits && self.text == other.text
    }

    /// Most values are new: an `IndexSet` would hash each twice, and keep a copy.
    #[inline(always)]
    fn most_hashed() -> usize {
        0
    }

    ghost identical = { Prim.search rules };
}

/// A value as it is given: a text (1), or one of the other kinds by 64 bits, as in a row.
#[repr(C)]
#[derive(Clone, Copy, Debug)]
pub struct AnyValue<'a> {
    pub kind: u32,
    pub bits: u64,
    pub text: &'a [u8],
}
