ghost use Rattle.std.specs.Prelude.{◌≤◌, ◌<◌, ◌^◌};

use crate::expect::{expect, expect_eq};
use mvt_wire::{
    Field, Fields, NumberList, PackedError, PackedNumbers, Payload, Span, WireCause, WireFault,
    append_packed, field_len, field_span, next_field, packed_len, put_field, put_field_head,
    put_packed, put_varint, read_packed, read_varint, unzigzag32, unzigzag64, varint_len, zigzag32,
    zigzag64,
};
use std::alloc::AllocError;
use std::process::Abort;

/// A layer with one point.
const ONE_POINT: [u8; 19] = [
    0x1A, 0x11, 0x78, 0x02, 0x0A, 0x01, 0x61, 0x12, 0x07, 0x18, 0x01, 0x22, 0x03, 0x09, 0x32, 0x22,
    0x28, 0x80, 0x20,
];

fn fault(at: usize, cause: WireCause) -> WireFault {
    WireFault { at, cause }
}

#[test]
fn varints(rt: HostRuntime) {
    let last = [0x80, 0x80, 0x80, 0x80, 0x80, 0x80, 0x80, 0x80, 0x80, 0x02];
    expect_eq!(rt; read_varint(&last), Err(fault(0, WireCause::VarintRange)));
    let most = [0xFF, 0xFF, 0xFF, 0xFF, 0xFF, 0xFF, 0xFF, 0xFF, 0xFF, 0x01];
    expect_eq!(rt; read_varint(&most), Ok((18446744073709551615, 10)));
    expect_eq!(rt; read_varint(&[0x80, 0x00]), Ok((0, 2)));
    expect_eq!(rt; read_varint(&[]), Err(fault(0, WireCause::Truncated)));
    expect_eq!(rt; read_varint(&[0x80, 0x20]), Ok((4096, 2)));
    expect_eq!(rt;
        read_varint(&[0x80, 0x80, 0x80, 0x80, 0x08]),
        Ok((2147483648, 5))
    );
    expect_eq!(rt;
        read_varint(&[0xFA, 0xFF, 0xFF, 0xFF, 0x0F]),
        Ok((4294967290, 5))
    );
    expect_eq!(rt;
        read_varint(&[0x80, 0x80, 0x80, 0x80, 0x10]),
        Ok((4294967296, 5))
    );
    expect_eq!(rt; read_varint(&[0xF4, 0xFF, 0xFF, 0x1F]), Ok((67108852, 4)));
    expect_eq!(rt; read_varint(&[0xFB, 0xFF, 0xFF, 0x1F]), Ok((67108859, 4)));
    expect_eq!(rt; read_varint(&[0xFC, 0xFF, 0xFF, 0x1F]), Ok((67108860, 4)));
}

#[test]
fn zigzag(rt: HostRuntime) {
    let pairs: [(i32, u32); 7] = [
        (0, 0),
        (-1, 1),
        (1, 2),
        (-9, 17),
        (25, 50),
        (2147483647, 4294967294),
        (-2147483648, 4294967295),
    ];
    for (number, code) in pairs {
        expect_eq!(rt; zigzag32(number), code);
        expect_eq!(rt; unzigzag32(code), number);
        expect_eq!(rt; zigzag64(i64::from(number)), u64::from(code));
        expect_eq!(rt; unzigzag64(u64::from(code)), i64::from(number));
    }
}

#[test]
fn field_spans(rt: HostRuntime) {
    expect_eq!(rt; field_span(&[]), Span::Unfinished);
    expect_eq!(rt; field_span(&[0x1A]), Span::Unfinished);
    expect_eq!(rt;
        field_span(&[0x1B]),
        Span::Bad(fault(0, WireCause::WireType))
    );
    let mut longer = [0u8; 20];
    for (i, byte) in ONE_POINT.iter().enumerate() {
        longer[i] = *byte;
    }
    expect_eq!(rt; field_span(&longer), Span::Whole(19));
}

#[test]
fn fields(rt: HostRuntime) {
    let bytes = [0x1A, 0x03, 0x0A, 0x01, 0x61, 0x20, 0x05, 0x1A];
    let layer = Field {
        at: 0,
        body: 2,
        number: 3,
        payload: Payload::Len(&[0x0A, 0x01, 0x61]),
    };
    let number = Field {
        at: 5,
        body: 6,
        number: 4,
        payload: Payload::Varint(5),
    };
    let mut fields = Fields::new(&bytes);
    expect_eq!(rt; fields.next(), Some(Ok(layer)));
    expect_eq!(rt; fields.next(), Some(Ok(number)));
    expect_eq!(rt; fields.next(), Some(Err(fault(7, WireCause::Truncated))));
    expect_eq!(rt; fields.next(), None);
    expect_eq!(rt; next_field(&bytes, 5), Ok(Some((number, 7))));
}

#[test]
fn fixed_fields(rt: HostRuntime) {
    let fixed = [
        0x0D, 0x01, 0x00, 0x00, 0x00, 0x09, 0x02, 0, 0, 0, 0, 0, 0, 0,
    ];
    let mut fields = Fields::new(&fixed);
    let four = Field {
        at: 0,
        body: 1,
        number: 1,
        payload: Payload::I32(1),
    };
    let eight = Field {
        at: 5,
        body: 6,
        number: 1,
        payload: Payload::I64(2),
    };
    expect_eq!(rt; fields.next(), Some(Ok(four)));
    expect_eq!(rt; fields.next(), Some(Ok(eight)));
    expect_eq!(rt; fields.next(), None);
    expect_eq!(rt; next_field(&fixed, 14), Ok(None));
}

#[test]
fn wire_calls(rt: HostRuntime) {
    let mut out = Vec::new(rt.alloc());
    expect!(rt; put_varint(&mut out, 4096).is_ok());
    expect!(rt; put_field(&mut out, 15, &Payload::Varint(2)).is_ok());
    expect!(rt; put_packed(&mut out, 4, &[9, 50, 34]).is_ok());
    expect!(rt; put_packed(&mut out, 4, &[]).is_ok());
    let want = [
        0x80, 0x20, 0x78, 0x02, 0x22, 0x03, 0x09, 0x32, 0x22, 0x22, 0x00,
    ];
    expect_eq!(rt; out.as_slice(), want.as_slice());
    drop(out);
    expect_eq!(rt; packed_len(&[9, 50, 34]), 3);
    expect_eq!(rt; field_len(4, 3), 5);
}

fn packed_error(rt: &impl AllocGlobal, bytes: &[u8]) -> Option<PackedError> {
    read_packed(rt.alloc(), bytes).err()
}

#[test]
fn packed_numbers(rt: HostRuntime) {
    let large = [0x80, 0x80, 0x80, 0x80, 0x10];
    expect_eq!(rt; packed_error(&rt, &large), Some(PackedError::NumberRange));
    expect_eq!(rt; packed_error(&rt, &[0x80]), Some(PackedError::Truncated));
    let mut numbers = read_packed(rt.alloc(), &[0x09, 0x32, 0x22]).expect(&rt, "numbers");
    expect!(rt; append_packed(&[0x07], &mut numbers).is_ok());
    expect_eq!(rt; numbers.as_slice(), [9, 50, 34, 7].as_slice());
    drop(numbers);
}

fn push_all<N: NumberList>(numbers: &mut N) -> Result<(), AllocError> {
    numbers.reserve_numbers(3)?;
    numbers.push_number(9)?;
    numbers.push_number(300)?;
    numbers.push_number(4294967290)
}

#[test]
fn numbers_being_listed(rt: HostRuntime) {
    let mut listed = Vec::new(rt.alloc());
    expect!(rt; push_all(&mut listed).is_ok());
    expect_eq!(rt; listed.as_slice(), [9, 300, 4294967290].as_slice());
    drop(listed);
}

#[test]
fn numbers_being_packed(rt: HostRuntime) {
    let mut packed = PackedNumbers::new(rt.alloc());
    expect!(rt; packed.reserve(3).is_ok());
    expect!(rt; packed.push(7).is_ok());
    packed.clear();
    expect!(rt; push_all(&mut packed).is_ok());
    let want = [0x09, 0xAC, 0x02, 0xFA, 0xFF, 0xFF, 0xFF, 0x0F];
    expect_eq!(rt; packed.as_bytes(), want.as_slice());
    drop(packed);
}

#[test]
fn field_heads(rt: HostRuntime) {
    let mut out = Vec::new(rt.alloc());
    expect!(rt; put_field_head(&mut out, 4, 300).is_ok());
    expect_eq!(rt; out.as_slice(), [0x22, 0xAC, 0x02].as_slice());
    drop(out);
}

// The tests of refused growths pass too where one allocation, whichever, is refused: each call has
// two turns, of which one at most may want memory.

// What was put, of which one growth may have been refused: then nothing was, and else these bytes.
// Answers whether it was refused.
fn is_put_refused(rt: &impl Abort, is_refused: bool, out: Vec<u8>, bytes: &[u8]) -> bool {
    let expected: &[u8] = if is_refused { &[] } else { bytes };
    expect_eq!(rt; out.as_slice(), expected);
    drop(out);
    is_refused
}

/// Each call with one growth refused: the vector is then unchanged, and the next call succeeds.
#[test]
fn refused_put(rt: HostRuntime) {
    let mut refusals = 0u8;
    for _ in 0..2 {
        let mut out = Vec::new(rt.alloc());
        let is_refused = put_varint(&mut out, 4096).is_err();
        let is_refused = is_put_refused(&rt, is_refused, out, &[0x80, 0x20]);
        refusals = refusals.saturating_add(u8::from(is_refused));
    }
    expect!(rt; refusals < 2);
}

fn is_field_refused(
    rt: &(impl Abort + AllocGlobal),
    number: u32,
    payload: &Payload,
    len: usize,
) -> bool
    requires { (1 ≤ number) × (number < 2 ^ 29) }
{
    let mut out = Vec::new(rt.alloc());
    let is_refused = put_field(&mut out, number, payload).is_err();
    expect_eq!(rt; out.len(), if is_refused { 0 } else { len });
    drop(out);
    is_refused
}

#[test]
fn refused_put_field(rt: HostRuntime) {
    let long = [0x61; 40];
    let mut refusals = 0u8;
    for _ in 0..2 {
        for is_refused in [
            is_field_refused(&rt, 15, &Payload::Varint(2), 2),
            is_field_refused(&rt, 4, &Payload::Len(&long), 42),
            is_field_refused(&rt, 1, &Payload::I64(2), 9),
            is_field_refused(&rt, 1, &Payload::I32(1), 5),
        ] {
            refusals = refusals.saturating_add(u8::from(is_refused));
        }
    }
    expect!(rt; refusals < 2);
}

#[test]
fn refused_put_packed(rt: HostRuntime) {
    let rows: [(&[u32], &[u8]); 3] = [
        (&[9, 50, 34], &[0x22, 0x03, 0x09, 0x32, 0x22]),
        (&[], &[0x22, 0x00]),
        (
            &[4294967290, 4294967290],
            &[
                0x22, 0x0A, 0xFA, 0xFF, 0xFF, 0xFF, 0x0F, 0xFA, 0xFF, 0xFF, 0xFF, 0x0F,
            ],
        ),
    ];
    let mut refusals = 0u8;
    for (numbers, bytes) in rows {
        for _ in 0..2 {
            let mut out = Vec::new(rt.alloc());
            let is_refused = put_packed(&mut out, 4, numbers).is_err();
            let is_refused = is_put_refused(&rt, is_refused, out, bytes);
            refusals = refusals.saturating_add(u8::from(is_refused));
        }
    }
    expect!(rt; refusals < 2);
}

#[test]
fn refused_packed_numbers(rt: HostRuntime) {
    let mut refusals = 0u8;
    for _ in 0..2 {
        let mut numbers = PackedNumbers::new(rt.alloc());
        let is_refused = numbers.push(300).is_err();
        let expected: &[u8] = if is_refused { &[] } else { &[0xAC, 0x02] };
        expect_eq!(rt; numbers.as_bytes(), expected);
        drop(numbers);
        refusals = refusals.saturating_add(u8::from(is_refused));
    }
    expect!(rt; refusals < 2);
}

// Forty numbers after the three.
fn is_append_refused(rt: &impl Abort, numbers: &mut Vec<u32>) -> bool {
    let more = [0x07; 40];
    let is_refused = append_packed(&more, numbers).is_err();
    expect_eq!(rt; numbers.get(..3), Some([9, 50, 34].as_slice()));
    expect_eq!(rt; numbers.len(), if is_refused { 3 } else { 43 });
    is_refused
}

#[test]
fn refused_read_packed(rt: HostRuntime) {
    let mut refusals = 0u8;
    for _ in 0..2 {
        let is_refused = match read_packed(rt.alloc(), &[0x09, 0x32, 0x22]) {
            Ok(mut numbers) => {
                let is_refused = is_append_refused(&rt, &mut numbers);
                drop(numbers);
                is_refused
            }
            Err(error) => {
                expect_eq!(rt; error, PackedError::Memory);
                true
            }
        };
        refusals = refusals.saturating_add(u8::from(is_refused));
    }
    expect!(rt; refusals < 2);
}

/// A fault, or out of memory if the list for the numbers was refused.
#[test]
fn refused_read_packed_faults(rt: HostRuntime) {
    let rows: [(&[u8], PackedError); 2] = [
        (&[0x80, 0x80, 0x80, 0x80, 0x10], PackedError::NumberRange),
        (&[0x80], PackedError::Truncated),
    ];
    let mut refusals = 0u8;
    for (bytes, fault) in rows {
        for _ in 0..2 {
            match packed_error(&rt, bytes) {
                Some(PackedError::Memory) => refusals = refusals.saturating_add(1),
                error => expect_eq!(rt; error, Some(fault)),
            }
        }
    }
    expect!(rt; refusals < 2);
}

/// Numbers and their shortest spellings.
const SPELLED: [(u64, &[u8]); 10] = [
    (0, &[0x00]),
    (2, &[0x02]),
    (4096, &[0x80, 0x20]),
    (2147483648, &[0x80, 0x80, 0x80, 0x80, 0x08]),
    (4294967290, &[0xFA, 0xFF, 0xFF, 0xFF, 0x0F]),
    (4294967296, &[0x80, 0x80, 0x80, 0x80, 0x10]),
    (67108852, &[0xF4, 0xFF, 0xFF, 0x1F]),
    (67108859, &[0xFB, 0xFF, 0xFF, 0x1F]),
    (67108860, &[0xFC, 0xFF, 0xFF, 0x1F]),
    (
        18446744073709551615,
        &[0xFF, 0xFF, 0xFF, 0xFF, 0xFF, 0xFF, 0xFF, 0xFF, 0xFF, 0x01],
    ),
];

fn expect_spelled(rt: &impl Abort, out: &mut Vec<u8>, number: u64, bytes: &[u8]) {
    expect_eq!(rt; read_varint(bytes), Ok((number, bytes.len())));
    expect_eq!(rt; varint_len(number), bytes.len());
    out.clear();
    expect!(rt; put_varint(out, number).is_ok());
    expect_eq!(rt; out.as_slice(), bytes);
}

#[test]
fn spellings(rt: HostRuntime) {
    let mut out = Vec::new(rt.alloc());
    for (number, bytes) in SPELLED {
        expect_spelled(&rt, &mut out, number, bytes);
    }
    drop(out);
}
