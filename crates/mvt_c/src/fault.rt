//! A fault as C sees it.
ghost use Rattle.std.specs.Prelude.{◌≡◌};
ghost use Rattle.mvt_c.specs.Faults.{IsFault, index_of};
ghost use Rattle.mvt_c.specs.Places.{IsGiven};

use crate::lent::Bytes;
use mvt_tile::Fault as TileFault;

/// The first broken rule of a tile. An index is -1 if there is none.
#[repr(C)]
#[derive(Clone, Copy, Debug)]
pub struct Fault {
    pub layer: i64,
    pub feature: i64,
    pub at: u64,
    pub cause: u32,
    /// The name of the cause, which is never freed.
    pub name: Bytes,
}

impl Fault {
    pub(crate) fn new(fault: TileFault) -> Self
        ensures is { IsFault fault result }
        // What is told is what `mvt_locate` and `mvt_explain` take.
        ensures given { IsGiven result fault }
    {
        Fault {
            layer: index_of_part(fault.layer),
            feature: index_of_part(fault.feature),
            at: fault.at,
            cause: fault.cause.number(),
            name: Bytes {
                bytes: fault.cause.name().as_bytes(),
            },
        }
    }
}

fn index_of_part(index: Option<u32>) -> i64
    ensures { result ≡ index_of index }
{
    match index {
        Some(index) => i64::from(index),
        None => -1,
    }
}
