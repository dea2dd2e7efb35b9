//! Why a call hands nothing out.
ghost use Rattle.std.specs.Prelude.{◌≡◌, IfOk, IfErr};
ghost use Rattle.mvt_c.specs.Calls.{status_of, status_of_refusal, ReportsFault};

use crate::fault::Fault;
use crate::lent::Bytes;
use mvt_tile::{DecodeError, Fault as TileFault};
use mvt_view::ViewError;
use std::alloc::{AllocError, AllocFailed};

/// Why a call hands nothing out. Each has a status of its own.
#[derive(Clone, Copy, Debug, PartialEq, Eq)]
pub(crate) enum Refusal {
    /// The bytes are no tile: 1.
    Refused(TileFault),
    /// A growth was refused memory: 2.
    Memory,
    /// The result would be larger than the limit: 3.
    TooLarge,
    /// No layer has the name of this index: 4.
    NoLayer(usize),
    /// A name that isn't UTF-8: 5.
    BadName,
}

impl From<AllocError> for Refusal {
    ghost use Rattle.std.specs.Prelude.{◌≡◌};
    ghost use Rattle.mvt_c.specs.declared.refusal.Refusal.TheVariants.{Memory};

    ghost from_gives = { λ _ refusal. refusal ≡ Memory };

    fn from(_: AllocError) -> Self {
        Refusal::Memory
    }
}

impl From<DecodeError> for Refusal {
    ghost use Rattle.std.specs.Prelude.{◌≡◌};
    ghost use Rattle.mvt_c.specs.Calls.{of_decode};

    ghost from_gives = { λ error refusal. refusal ≡ of_decode error };

    // Nothing is read from a reader here, so a failed read never comes.
    fn from(error: DecodeError) -> Self {
        match error {
            DecodeError::Memory => Refusal::Memory,
            DecodeError::Fault(fault) => Refusal::Refused(fault),
            DecodeError::Read(_) => Refusal::Memory,
        }
    }
}

impl From<ViewError> for Refusal {
    ghost use Rattle.std.specs.Prelude.{◌≡◌};
    ghost use Rattle.mvt_c.specs.declared.refusal.Refusal.TheVariants.{Memory};

    ghost from_gives = { λ _ refusal. refusal ≡ Memory };

    fn from(error: ViewError) -> Self {
        match error {
            ViewError::Memory => Refusal::Memory,
        }
    }
}

impl<T: Drop> From<AllocFailed<T>> for Refusal {
    ghost use Rattle.std.specs.Prelude.{◌≡◌};
    ghost use Rattle.mvt_c.specs.declared.refusal.Refusal.TheVariants.{Memory};

    ghost from_gives = { λ _ refusal. refusal ≡ Memory };

    fn from(_: AllocFailed<T>) -> Self {
        Refusal::Memory
    }
}

impl Refusal {
    pub(crate) fn status(self) -> u32
        ensures { result ≡ status_of_refusal self }
    {
        match self {
            Refusal::Refused(_) => 1,
            Refusal::Memory => 2,
            Refusal::TooLarge => 3,
            Refusal::NoLayer(_) => 4,
            Refusal::BadName => 5,
        }
    }
}

/// Hands bytes out, or tells why there are none. Answers the status.
pub(crate) fn hand_out(made: Result<Vec<u8>, Refusal>, out: &mut Bytes, fault: &mut Fault) -> u32
    ensures status { result ≡ status_of made }
    ensures bytes { IfOk made (λ bytes. out.new.bytes.now ≡ bytes.items) }
    ensures fault_kept { IfOk made (λ _. fault.new ≡ fault.old) }
    ensures out_kept { IfErr made (λ _. out.new ≡ out.old) }
    ensures fault { IfErr made (λ refusal. ReportsFault refusal fault.old fault.new) }
{
    match made {
        Ok(bytes) => {
            *out = Bytes {
                bytes: bytes.leak(),
            };
            0
        }
        Err(refusal) => report(refusal, fault),
    }
}

/// Tells the fault, if there is one. Answers the status.
pub(crate) fn report(refusal: Refusal, fault: &mut Fault) -> u32
    ensures status { result ≡ status_of_refusal refusal }
    ensures fault { ReportsFault refusal fault.old fault.new }
{
    if let Refusal::Refused(first) = refusal {
        *fault = Fault::new(first);
    }
    refusal.status()
}
