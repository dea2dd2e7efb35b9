//! Packed numbers (Protocol Buffers, Encoding, "Packed Repeated Fields").
ghost use Rattle.std.specs.Prelude.{◌≡◌, ℕ, ◌+◌, ◌^◌, ◌<◌, ◌≤◌, List, [], ◌∷◌, ◌++◌, None, length, IfOk, IfErr, IfSome, IfNone, IsOk, IsTrue, OnOk, OnErr, vec_len, vec_capacity};
ghost use Rattle.mvt_base.specs.Reports.{Reports};
ghost use Rattle.mvt_base.specs.Rules.{first};
ghost use Rattle.mvt_wire.specs.Field.{bytes};
ghost use Rattle.mvt_wire.specs.Packed.{ArePacked, packed, packed_rules, fault_of};
ghost use Rattle.mvt_wire.specs.Spelling.{short_field, short_numbers};
ghost use Rattle.mvt_wire.specs.Varint.{short};
ghost use Rattle.mvt_base.specs.Related.{Extends};
ghost use Rattle.mvt_wire.specs.Inner.{error_of};

use crate::fault::WireCause;
use crate::varint::{put_varint, varint_at, varint_len};
use std::alloc::{AllocError, Global};
use std::error::Error;
use std::fmt;

/// Why packed numbers can't be read: out of memory, or else the first of the others that holds.
#[derive(Clone, Copy, Debug, PartialEq, Eq)]
pub enum PackedError {
    Memory,
    Truncated,
    VarintRange,
    /// A number of 2^32 or more.
    NumberRange,
}

impl From<AllocError> for PackedError {
    ghost use Rattle.std.specs.Prelude.{◌≡◌};
    ghost use Rattle.mvt_wire.specs.declared.packed.PackedError.TheVariants as errors;

    ghost from_gives = { λ e r. r ≡ errors.Memory };

    fn from(_: AllocError) -> Self {
        PackedError::Memory
    }
}

impl fmt::Display for PackedError {
    ghost use Rattle.std.specs.Prelude.{Some};
    ghost use Rattle.mvt_wire.specs.Texts.{packed_error_text};

    ghost output = { λ error. Some (packed_error_text error) };

    fn fmt<W: fmt::Write>(&self, f: &mut fmt::Formatter<W>) -> fmt::Result {
        match self {
            Self::Memory => f.write_str("out of memory"),
            Self::Truncated => f.write_str("Truncated"),
            Self::VarintRange => f.write_str("VarintRange"),
            Self::NumberRange => f.write_str("NumberRange"),
        }
    }
}

impl Error for PackedError {}

/// The numbers of a packed field.
///
/// # Errors
///
/// If the bytes don't spell numbers below 2^32, or memory runs out.
pub fn read_packed(alloc: Global, bytes: &[u8]) -> Result<Vec<u32>, PackedError>
    ensures ok { IfOk result (λ v. ArePacked bytes.now v.items) }
    ensures err { IfErr result (λ e. Reports (fault_of e) (first (packed_rules bytes.now))) }
{
    let mut numbers = Vec::new(alloc);
    append_packed(bytes, &mut numbers)?;
    Ok(numbers)
}

/// Appends the numbers of a packed field.
///
/// # Errors
///
/// As `read_packed`; the vector is then unchanged.
pub fn append_packed(bytes: &[u8], out: &mut Vec<u32>) -> Result<(), PackedError>
    ensures ok { OnOk result (first (packed_rules bytes.now) ≡ None) }
    ensures numbers { OnOk result (out.new.items ≡ out.old.items ++ (packed bytes.now).numbers) }
    ensures err { IfErr result (λ e. Reports (fault_of e) (first (packed_rules bytes.now))) }
    ensures same { OnErr result (out.new.items ≡ out.old.items) }
{
    let len = out.len();
    let done = append_numbers(bytes, out);
    if done.is_err() {
        out.truncate(len);
    }
    done
}

/// Appends the numbers, or the first of them.
fn append_numbers(bytes: &[u8], out: &mut Vec<u32>) -> Result<(), PackedError>
    ensures ok { OnOk result (first (packed_rules bytes.now) ≡ None) }
    ensures numbers { OnOk result (out.new.items ≡ out.old.items ++ (packed bytes.now).numbers) }
    ensures err { IfErr result (λ e. Reports (fault_of e) (first (packed_rules bytes.now))) }
    ensures front { OnErr result (Extends out.old.items out.new.items) }
{
    out.reserve(bytes.len())?;
    let mut rest = bytes;
    while !rest.is_empty() {
        match varint_at(rest) {
            Ok((number, size)) => {
                if number >= 1 << 32 {
                    return Err(PackedError::NumberRange);
                }
                out.push_reserved(number as u32);
                rest = &rest[size..];
            }
            Err(cause) => return Err(number_error(cause)),
        }
    }
    Ok(())
}

/// The first of the numbers of a packed field, and the bytes after it.
#[derive(Clone, Copy, Debug)]
pub struct PackedFront<'a> {
    pub number: u32,
    /// Whether no spelling of the number is shorter.
    pub is_short: bool,
    pub after: &'a [u8],
}

/// The front of a packed field. `None` if it spells no number below 2^32.
#[inline(always)]
pub fn spelled_front(bytes: &[u8]) -> Option<PackedFront<'_>>
    ensures number { IfSome result (λ front. (ns : List ℕ) → ArePacked front.after.now ns
        → ArePacked bytes.now (front.number ∷ ns)) }
    ensures short { IfSome result (λ front. IsTrue front.is_short
        → bytes.now ≡ short front.number ++ front.after.now) }
    ensures shorter { IfSome result (λ front. length front.after.now < length bytes.now) }
    ensures none { IfNone result ((ns : List ℕ) → ArePacked bytes.now ns → ns ≡ []) }
{
    match varint_at(bytes) {
        Ok((number, size)) => {
            if number >= 1 << 32 {
                return None;
            }
            Some(PackedFront {
                number: number as u32,
                is_short: size == 1 || bytes[size - 1] != 0,
                after: &bytes[size..],
            })
        }
        Err(_) => None,
    }
}

/// The first of the numbers of a packed field, and the bytes after it. `None` if the front spells
/// no number below 2^32.
#[inline(always)]
pub fn packed_front(bytes: &[u8]) -> Option<(u32, &[u8])>
    ensures number { IfSome result (λ found. (ns : List ℕ) → ArePacked found.1.now ns
        → ArePacked bytes.now (found.0 ∷ ns)) }
    ensures shorter { IfSome result (λ found. length found.1.now < length bytes.now) }
    ensures none { IfNone result ((ns : List ℕ) → ArePacked bytes.now ns → ns ≡ []) }
{
    let front = spelled_front(bytes)?;
    Some((front.number, front.after))
}

/// Whether no spelling of a number among these bytes is longer than need be: no byte of 0 ends one
/// of several bytes. All bytes are looked at, which is quick, many at once.
#[inline(never)]
pub fn are_short(bytes: &[u8]) -> bool
    ensures { IsTrue result → (numbers : List ℕ) → ArePacked bytes.now numbers
        → bytes.now ≡ short_numbers numbers }
{
    let mut is_long = false;
    for i in 1..bytes.len() {
        is_long |= (bytes[i] == 0) & (bytes[i - 1] >= 128);
    }
    !is_long
}

/// Why a number can't be read, as an error of packed numbers.
fn number_error(cause: WireCause) -> PackedError
    ensures { result ≡ error_of cause }
{
    match cause {
        WireCause::Truncated => PackedError::Truncated,
        WireCause::VarintRange | WireCause::FieldNumber | WireCause::WireType => {
            PackedError::VarintRange
        }
    }
}

/// How many bytes the shortest spellings of numbers have.
pub fn packed_len(numbers: &[u32]) -> u64
    ensures { result ≡ length (short_numbers numbers.now) }
{
    let mut len = numbers.len() as u64;
    for number in numbers {
        if *number >= 1 << 7 {
            len += varint_len(u64::from(*number)) as u64 - 1;
        }
    }
    len
}

/// Appends a packed field of the numbers, in its shortest spelling.
///
/// # Errors
///
/// When memory runs out.
pub fn put_packed(out: &mut Vec<u8>, number: u32, numbers: &[u32]) -> Result<(), AllocError>
    requires first { 1 ≤ number }
    requires last { number < 2 ^ 29 }
    ensures ok { OnOk result
        (out.new.items ≡ out.old.items ++ short_field number (bytes (short_numbers numbers.now))) }
    ensures err { OnErr result (out.new.items ≡ out.old.items) }
    ensures room { vec_len out.old + length (short_field number (bytes (short_numbers numbers.now)))
        ≤ vec_capacity out.old → IsOk result }
    ensures capacity { vec_capacity out.old ≤ vec_capacity out.new }
{
    let len = out.len();
    let done = put_packed_bytes(out, number, numbers);
    if done.is_err() {
        out.truncate(len);
    }
    done
}

/// Appends a packed field, or a front of it.
#[tactic(auto, unfolding(crate::specs::Spelling::short_field))]
fn put_packed_bytes(out: &mut Vec<u8>, number: u32, numbers: &[u32]) -> Result<(), AllocError>
    requires { number < 2 ^ 29 }
    ensures ok { OnOk result
        (out.new.items ≡ out.old.items ++ short_field number (bytes (short_numbers numbers.now))) }
    ensures err { OnErr result (Extends out.old.items out.new.items) }
    ensures room { vec_len out.old + length (short_field number (bytes (short_numbers numbers.now)))
        ≤ vec_capacity out.old → IsOk result }
    ensures capacity { vec_capacity out.old ≤ vec_capacity out.new }
{
    put_varint(out, 8 * u64::from(number) + 2)?;
    let len = packed_len(numbers);
    put_varint(out, len)?;
    out.reserve(len as usize)?;
    for number in numbers {
        put_varint(out, u64::from(*number))?;
    }
    Ok(())
}
