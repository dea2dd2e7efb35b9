//! What a pool can hold.
ghost use Rattle.std.specs.Prelude.{◌≡◌, ◌↔◌, IfOk, IsTrue, Decides};

use crate::text_ref::TextRef;
use crate::value::ValueOf;
use std::alloc::{AllocError, Global};
use std::hash::Hash;

/// A key or a value: two that compare as equal are one.
pub trait Entry: Ord + Hash + Drop {
    /// An equal entry.
    ///
    /// # Errors
    ///
    /// When memory runs out. An entry whose text is lent needs none.
    fn copied(&self, alloc: Global) -> Result<Self, AllocError>
        ensures { IfOk result (λ copy. copy ≡ self.now) };

    /// Whether two entries are one.
    fn is(&self, other: &Self) -> bool
        ensures { IsTrue result ↔ (self.now ≡ other.now) };

    /// Up to how many entries are hashed by `indexmap`, once they are too many to be searched one
    /// by one.
    fn most_hashed() -> usize;

    ghost identical: { (x y : Self) → Decides (Self.eq x y) (x ≡ y) };
}

impl Entry for TextRef<'_> {
    ghost use Rattle.std.proofs.Common.{rules};

    #[inline(always)]
    fn copied(&self, _: Global) -> Result<Self, AllocError> {
        Ok(self.again())
    }

    #[inline(always)]
    fn is(&self, other: &Self) -> bool {
        self == other
    }

    /// Keys are found again and again.
    #[inline(always)]
    fn most_hashed() -> usize {
        48
    }

    ghost identical = { Prim.search rules };
}

impl Entry for ValueOf<TextRef<'_>> {
    ghost use Rattle.std.proofs.Common.{rules};

    #[inline(always)]
    fn copied(&self, _: Global) -> Result<Self, AllocError> {
        Ok(self.again())
    }

    /// Most entries that are passed over are of another kind, or numbers.
    #[inline(always)]
    fn is(&self, other: &Self) -> bool {
        match (self, other) {
            (ValueOf::Text(one), ValueOf::Text(other)) => are_same(one, other),
            (ValueOf::Float(one), ValueOf::Float(other)) => one == other,
            (ValueOf::Double(one), ValueOf::Double(other)) => one == other,
            (ValueOf::Int(one), ValueOf::Int(other)) => one == other,
            (ValueOf::Uint(one), ValueOf::Uint(other)) => one == other,
            (ValueOf::Sint(one), ValueOf::Sint(other)) => one == other,
            (ValueOf::Bool(one), ValueOf::Bool(other)) => one == other,
            _ => false,
        }
    }

    /// Most values are new: an `IndexSet` would hash each twice, and keep a copy.
    #[inline(always)]
    fn most_hashed() -> usize {
        0
    }

    ghost identical = { Prim.search rules };
}

#[inline(never)]
fn are_same(one: &TextRef<'_>, other: &TextRef<'_>) -> bool
    ensures { IsTrue result ↔ (one.now ≡ other.now) }
{
    one == other
}
