//! A pointer to a decoder, which C keeps from call to call.
ghost use Rattle.std.specs.Prelude.{◌≡◌, IfOk};
ghost use Rattle.mvt_c.specs.declared.decoder.held.Decoder.{Decoder};
ghost use Rattle.mvt_c.specs.Held.{decoder_coded, held_owns};

use super::parts::Parts;
use mvt_rows::RowsDecoder;
use std::alloc::{AllocError, Global};
use std::marker::Model;

/// A decoder, as a value of this crate.
#[derive(Drop)]
pub struct Decoder {
    pub inner: RowsDecoder,
    /// How many bytes the lists of its rows shall have at most.
    pub most: u64,
}

/// The decoder that C holds. The allocator has no bytes, so C sees a pointer.
#[repr(C)]
pub struct Held {
    ptr: *mut u8,
    alloc: Global,
    pub ghost decoder: { Decoder } by { decoder_coded },
}

impl Model for Held {
    ghost also_owns = { λ h. held_owns h.alloc h.ptr h.decoder };
}

impl Held {
    /// A decoder in memory of its own.
    ///
    /// # Errors
    ///
    /// When memory runs out.
    pub fn new(alloc: Global, decoder: Decoder) -> Result<Held, AllocError>
        ensures { IfOk result (λ held. held.decoder ≡ decoder) }
    {
        Ok(Held::of_parts(Parts::of(Box::new(alloc, decoder)?)))
    }

    fn of_parts(parts: Parts<Decoder, Global>) -> Held
        ensures { result.decoder ≡ parts.value }
    {
        let Parts { ptr, alloc } = parts;
        let ptr = ptr as *mut u8;
        Held { ptr, alloc }
    }

    /// The decoder back from C.
    pub fn into_box(self) -> Box<Decoder>
        ensures { result.value ≡ self.decoder }
    {
        self.into_parts().into_box()
    }

    /// The decoder for C to hold.
    pub fn of_box(decoder: Box<Decoder>) -> Held
        ensures { result.decoder ≡ decoder.value }
    {
        Held::of_parts(Parts::of(decoder))
    }

    fn into_parts(self) -> Parts<Decoder, Global>
        ensures { result.value ≡ self.decoder }
    {
        let Held { ptr, alloc } = self;
        let ptr = ptr as *mut Decoder;
        Parts { ptr, alloc }
    }
}

impl Drop for Held {
    fn drop(self) {
        drop(self.into_box());
    }
}
