//! Integers of a geometry that are still to come, as a list or packed in bytes (Mapbox Vector Tile
//! Specification 2.1, 4.3.1).
ghost use Rattle.std.specs.Prelude.{◌≡◌, ◌<◌, ◌==◌, ℕ, List, [], ◌∷◌, length, IfSome};
ghost use Rattle.std.proofs.lemmas.List.{nil_from_length};
ghost use Rattle.mvt_wire.specs.Packed.{ArePacked};

use mvt_wire::packed_front;

/// Integers that are still to come.
pub(crate) trait Integers: Drop {
    // All that are to come are these.
    ghost are: { Self → List ℕ → Type 0 };

    ghost size: { Self → ℕ };

    /// The next one, and those after it.
    fn front(self) -> Option<(u32, Self)>
        ensures number { IfSome result (λ found. (more : List ℕ) → are found.1 more
            → are self (found.0 ∷ more)) }
        ensures shorter { IfSome result (λ found. size found.1 < size self) };

    /// Whether none is to come.
    fn is_done(&self) -> bool
        ensures { result ≡ (size self.now == 0) };

    ghost none: { (integers : Self) → size integers ≡ 0 → are integers [] };
}

/// Integers that are packed in bytes.
#[derive(Drop)]
pub(crate) struct Packed<'a> {
    pub(crate) bytes: &'a [u8],
}

impl<'a> Integers for Packed<'a> {
    ghost use Rattle.std.specs.Prelude.{length};
    ghost use Rattle.std.proofs.lemmas.List.{nil_from_length};
    ghost use Rattle.mvt_wire.specs.Packed.{ArePacked};

    ghost are = { λ p numbers. ArePacked p.bytes.now numbers };

    ghost size = { λ p. length p.bytes.now };

    ghost none = { λ p done. nil_from_length p.bytes.now done };

    #[inline(always)]
    fn front(self) -> Option<(u32, Self)> {
        let (number, after) = packed_front(self.bytes)?;
        Some((number, Packed { bytes: after }))
    }

    #[inline(always)]
    fn is_done(&self) -> bool {
        self.bytes.is_empty()
    }
}

/// Integers in a list.
#[derive(Drop)]
pub(crate) struct Listed<'a> {
    pub(crate) integers: &'a [u32],
}

impl<'a> Integers for Listed<'a> {
    ghost use Rattle.std.specs.Prelude.{◌≡◌, length};
    ghost use Rattle.std.proofs.lemmas.List.{nil_from_length};

    ghost are = { λ l numbers. l.integers.now ≡ numbers };

    ghost size = { λ l. length l.integers.now };

    ghost none = { λ l done. nil_from_length l.integers.now done };

    #[inline(always)]
    fn front(self) -> Option<(u32, Self)> {
        let [first, others @ ..] = self.integers else {
            return None;
        };
        Some((*first, Listed { integers: others }))
    }

    #[inline(always)]
    fn is_done(&self) -> bool {
        self.integers.is_empty()
    }
}
