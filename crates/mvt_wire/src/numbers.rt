//! Lists of numbers that grow at their end.
ghost use Rattle.std.specs.Prelude.{◌≡◌, ℕ, List, [], ◌∷◌, ◌++◌, OnOk, OnErr};

use std::alloc::AllocError;

/// A list of numbers, whatever it keeps them as.
pub trait NumberList {
    // The numbers so far.
    ghost numbers: { Self → List ℕ };

    /// Reserves room for `more` numbers after those that are there.
    ///
    /// # Errors
    ///
    /// When memory runs out; the numbers stay.
    fn reserve_numbers(&mut self, more: usize) -> Result<(), AllocError>
        ensures { numbers self.new ≡ numbers self.old };

    /// Adds a number at the end.
    ///
    /// # Errors
    ///
    /// When memory runs out; the numbers are then unchanged.
    fn push_number(&mut self, number: u32) -> Result<(), AllocError>
        ensures ok { OnOk result (numbers self.new ≡ numbers self.old ++ number ∷ []) }
        ensures err { OnErr result (numbers self.new ≡ numbers self.old) };
}

impl NumberList for Vec<u32> {
    ghost numbers = { λ v. v.items };

    #[inline(always)]
    fn reserve_numbers(&mut self, more: usize) -> Result<(), AllocError> {
        self.reserve(more)
    }

    #[inline(always)]
    fn push_number(&mut self, number: u32) -> Result<(), AllocError> {
        self.push(number)?;
        Ok(())
    }
}
