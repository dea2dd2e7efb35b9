//! Packed numbers that are being made.
ghost use Rattle.std.specs.Prelude.{◌≡◌, [], ◌∷◌, ◌++◌, OnOk, OnErr};
ghost use Rattle.mvt_wire.specs.Spelling.{short_numbers};

use crate::numbers::NumberList;
use crate::varint::put_varint;
use std::alloc::{AllocError, Global};
use std::marker::Model;

/// Numbers in their shortest spellings, as a packed field has them.
///
/// ```ignore
/// let mut numbers = PackedNumbers::new(alloc);
/// numbers.push(9)?;
/// put_field(out, 4, &Payload::Len(numbers.as_bytes()))?;
/// ```
#[derive(Debug, Drop)]
pub struct PackedNumbers {
    bytes: Vec<u8>,
}

impl Model for PackedNumbers {
    ghost use Rattle.std.specs.Prelude.{◌≡◌, ◌<◌, ◌^◌, List, ℕ};
    ghost use Rattle.std.specs.List.{AllByRecursion};
    ghost use Rattle.mvt_wire.specs.Packed.{packed};
    ghost use Rattle.mvt_wire.specs.Spelling.{short_numbers};

    ghost Value = { List ℕ };

    ghost view = { λ p. (packed p.bytes.items).numbers };

    ghost invariant = { λ p. AllByRecursion (λ n. n < 2 ^ 32) (packed p.bytes.items).numbers
        × (p.bytes.items ≡ short_numbers (packed p.bytes.items).numbers) };
}

impl PackedNumbers {
    /// No numbers, which take no memory.
    pub fn new(alloc: Global) -> Self
        ensures { result ≡ [] }
    {
        PackedNumbers {
            bytes: Vec::new(alloc),
        }
    }

    /// Drops the numbers, and keeps their room.
    pub fn clear(&mut self)
        ensures { self.new ≡ [] }
    {
        self.bytes.clear();
    }

    /// Reserves room for `more` numbers after those that are there: each takes five bytes at most.
    ///
    /// # Errors
    ///
    /// When memory runs out; the numbers stay.
    #[inline(always)]
    pub fn reserve(&mut self, more: usize) -> Result<(), AllocError>
        ensures { self.new ≡ self.old }
    {
        self.bytes.reserve(more.saturating_mul(5))
    }

    /// Adds a number at the end.
    ///
    /// # Errors
    ///
    /// When memory runs out; the numbers are then unchanged.
    #[inline(always)]
    pub fn push(&mut self, number: u32) -> Result<(), AllocError>
        ensures ok { OnOk result (self.new ≡ self.old ++ number ∷ []) }
        ensures err { OnErr result (self.new ≡ self.old) }
    {
        put_varint(&mut self.bytes, u64::from(number))
    }

    /// The spellings, joined.
    #[inline(always)]
    pub fn as_bytes(&self) -> &[u8]
        ensures { result.now ≡ short_numbers self.now }
    {
        &self.bytes
    }
}

impl NumberList for PackedNumbers {
    ghost numbers = { λ p. p };

    #[inline(always)]
    fn reserve_numbers(&mut self, more: usize) -> Result<(), AllocError> {
        self.reserve(more)
    }

    #[inline(always)]
    fn push_number(&mut self, number: u32) -> Result<(), AllocError> {
        self.push(number)
    }
}
