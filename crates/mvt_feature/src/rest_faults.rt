//! Payloads that don't split wholly into fields.
ghost use Rattle.std.specs.Prelude.{◌≡◌, ◌+◌, ◌^◌, ◌<◌, [], length, None, Option};
ghost use Rattle.std.specs.Option.{option_or};
ghost use Rattle.mvt_base.specs.Reports.{Reports};
ghost use Rattle.mvt_base.specs.Rules.{first};
ghost use Rattle.mvt_wire.specs.Split.{split};
ghost use Rattle.mvt_feature.specs.Causes.{of_wire};
ghost use Rattle.mvt_feature.specs.Faults.{MessageFault, fault_of, rest_rules};

use crate::cause::Cause;
use crate::message_error::MessageError;
use mvt_wire::{Fields, WireFault};

/// The fault of a payload's rest, told at its absolute place.
pub fn rest_fault(payload_at: u64, fault: WireFault) -> MessageError
    requires { payload_at + fault.at < 2 ^ 64 }
    ensures { result ≡ MessageError.Fault None (payload_at + fault.at) (of_wire fault.cause) }
{
    fault_at(payload_at + fault.at as u64, Cause::from(fault.cause))
}

/// The error of a payload, one of whose fields has this one: that the payload doesn't split wholly
/// into fields is told first.
#[inline(never)]
pub(crate) fn rest_fault_before(
    payload: &[u8],
    payload_at: u64,
    error: MessageError,
) -> MessageError
    requires { payload_at + length payload.now < 2 ^ 64 }
    ensures reported { (fault : Option MessageFault) → Reports (fault_of error) fault
        → Reports (fault_of result) (option_or
        (first (rest_rules payload_at (split payload.now))) fault) }
    ensures memory { result ≡ MessageError.Memory → error ≡ MessageError.Memory }
    ensures whole { result ≡ MessageError.Memory → (split payload.now).rest ≡ [] }
{
    for field in Fields::new(payload) {
        match field {
            Ok(_) => {}
            Err(fault) => return rest_fault(payload_at, fault),
        }
    }
    error
}

/// A fault that isn't told of a feature.
pub fn fault_at(at: u64, cause: Cause) -> MessageError
    ensures { result ≡ MessageError.Fault None at cause }
{
    MessageError::Fault {
        feature: None,
        at,
        cause,
    }
}
