//! Why an entry found no place in a pool.
use std::alloc::{AllocError, AllocFailed};
use std::error::Error;
use std::fmt;

/// Why an entry found no place in a pool.
#[derive(Debug, Drop, PartialEq, Eq)]
pub enum PoolError {
    /// A growth was refused memory.
    Memory,
    /// The pool holds as many entries as it may, and the entry is new.
    Full,
}

impl From<AllocError> for PoolError {
    ghost use Rattle.std.specs.Prelude.{◌≡◌};
    ghost use Rattle.mvt_attrs.specs.declared.pool_error.PoolError.TheVariants.{Memory};

    ghost from_gives = { λ _ error. error ≡ Memory };

    fn from(_: AllocError) -> Self {
        PoolError::Memory
    }
}

impl<T: Drop> From<AllocFailed<T>> for PoolError {
    ghost use Rattle.std.specs.Prelude.{◌≡◌};
    ghost use Rattle.mvt_attrs.specs.declared.pool_error.PoolError.TheVariants.{Memory};

    ghost from_gives = { λ _ error. error ≡ Memory };

    fn from(_: AllocFailed<T>) -> Self {
        PoolError::Memory
    }
}

impl fmt::Display for PoolError {
    ghost use Rattle.std.specs.Prelude.{Some};
    ghost use Rattle.mvt_attrs.specs.Texts.{pool_error_text};

    ghost output = { λ error. Some (pool_error_text error) };

    fn fmt<W: fmt::Write>(&self, f: &mut fmt::Formatter<W>) -> fmt::Result {
        match self {
            PoolError::Memory => f.write_str("out of memory"),
            PoolError::Full => f.write_str("the pool is full"),
        }
    }
}

impl Error for PoolError {}
