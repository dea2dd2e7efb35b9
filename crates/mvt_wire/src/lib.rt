//! The wire format of Protocol Buffers: varints, zigzag numbers, fields and packed lists.
#![tactic(auto)]

mod fault;
mod field;
mod fields;
pub mod laws;
mod numbers;
mod packed;
mod packed_numbers;
mod short_fields;
mod span;
mod spelling;
mod varint;
mod zigzag;

pub use fault::{WireCause, WireFault};
pub use field::{Field, Payload, next_field};
pub use fields::Fields;
pub use numbers::NumberList;
pub use packed::{
    PackedError, PackedFront, append_packed, are_short, packed_front, packed_len, put_packed,
    read_packed, spelled_front,
};
pub use packed_numbers::PackedNumbers;
pub use short_fields::{short_bytes_at, short_field_at, short_number_at};
pub use span::{Span, field_span};
pub use spelling::{field_len, put_field, put_field_head};
pub use varint::{put_varint, read_varint, varint_len};
pub use zigzag::{unzigzag32, unzigzag64, zigzag32, zigzag64};
