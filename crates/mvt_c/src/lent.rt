//! Bytes that are handed out to C.

/// Bytes that last until C frees them, as a pointer and a length. Where there are none, there is
/// nothing to be freed.
#[repr(C)]
#[derive(Clone, Copy, Debug)]
pub struct Bytes {
    pub bytes: &'static [u8],
}
