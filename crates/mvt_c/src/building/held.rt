//! A pointer to a builder, which C keeps from call to call.
ghost use Rattle.std.specs.Prelude.{◌≡◌, IfOk};
ghost use Rattle.mvt_c.specs.declared.building.held.Making.{Making};
ghost use Rattle.mvt_c.specs.Held.{making_coded, making_owns};

use crate::decoder::parts::Parts;
use mvt_rows::Builder;
use std::alloc::{AllocError, Global};
use std::marker::Model;

/// A builder, as a value of this crate.
#[derive(Drop)]
pub struct Making {
    pub inner: Builder,
}

/// The builder that C holds. The allocator has no bytes, so C sees a pointer.
#[repr(C)]
pub struct HeldBuilder {
    ptr: *mut u8,
    alloc: Global,
    pub ghost making: { Making } by { making_coded },
}

impl Model for HeldBuilder {
    ghost also_owns = { λ h. making_owns h.alloc h.ptr h.making };
}

impl HeldBuilder {
    /// A builder in memory of its own.
    ///
    /// # Errors
    ///
    /// When memory runs out.
    pub fn new(alloc: Global, making: Making) -> Result<HeldBuilder, AllocError>
        ensures { IfOk result (λ held. held.making ≡ making) }
    {
        Ok(HeldBuilder::of_parts(Parts::of(Box::new(alloc, making)?)))
    }

    fn of_parts(parts: Parts<Making, Global>) -> HeldBuilder
        ensures { result.making ≡ parts.value }
    {
        let Parts { ptr, alloc } = parts;
        let ptr = ptr as *mut u8;
        HeldBuilder { ptr, alloc }
    }

    /// The builder back from C.
    pub fn into_box(self) -> Box<Making>
        ensures { result.value ≡ self.making }
    {
        self.into_parts().into_box()
    }

    /// The builder for C to hold.
    pub fn of_box(making: Box<Making>) -> HeldBuilder
        ensures { result.making ≡ making.value }
    {
        HeldBuilder::of_parts(Parts::of(making))
    }

    fn into_parts(self) -> Parts<Making, Global>
        ensures { result.value ≡ self.making }
    {
        let HeldBuilder { ptr, alloc } = self;
        let ptr = ptr as *mut Making;
        Parts { ptr, alloc }
    }
}

impl Drop for HeldBuilder {
    fn drop(self) {
        drop(self.into_box());
    }
}
