//! Varints (Protocol Buffers, Encoding, "Base 128 Varints").
ghost use Rattle.std.specs.Prelude.{◌≡◌, ◌≢◌, ℕ, ◌+◌, ◌≤◌, List, [], ◌∷◌, ◌++◌, length, take, Ok, Err, IfOk, IfErr, IsOk, OnOk, OnErr, vec_len, vec_capacity};
ghost use Rattle.mvt_wire.specs.Varint.{Spells, SpellsNone, spell_cause, short};
ghost use Rattle.mvt_wire.specs.Fronts.{number_at};

use crate::fault::{WireCause, WireFault};
use std::alloc::AllocError;

/// The number at the front of a slice, and how many bytes spell it. A spelling may be longer than
/// necessary.
///
/// # Errors
///
/// Truncated or VarintRange, at 0.
#[inline(always)]
pub fn read_varint(bytes: &[u8]) -> Result<(u64, usize), WireFault>
    ensures within { IfOk result (λ found. found.1 ≤ length bytes.now) }
    ensures number { IfOk result (λ found. Spells (take found.1 bytes.now) found.0) }
    ensures only { (front back : List ℕ) (n : ℕ) → bytes.now ≡ front ++ back → Spells front n
        → result ≡ Ok (n, length front) }
    ensures none { IfErr result (λ _. SpellsNone bytes.now) }
    ensures fault { IfErr result (λ e. e ≡ record { at = 0; cause = spell_cause bytes.now }) }
{
    match varint_at(bytes) {
        Ok(found) => Ok(found),
        Err(cause) => Err(WireFault { at: 0, cause }),
    }
}

/// The number at the front, with one and two bytes read at once.
#[inline(always)]
pub(crate) fn varint_at(bytes: &[u8]) -> Result<(u64, usize), WireCause>
    ensures number { result ≡ number_at bytes.now }
    ensures within { IfOk result (λ found. found.1 ≤ length bytes.now) }
{
    match bytes {
        [a, ..] if *a < 128 => Ok((u64::from(*a), 1)),
        [a, b, ..] if *b < 128 => Ok((u64::from(*a & 0x7f) | (u64::from(*b) << 7), 2)),
        _ => {
            let (number, size) = long_varint_at(bytes);
            if size == 0 {
                return Err(cause_of(bytes));
            }
            Ok((number, size))
        }
    }
}

/// The same for any spelling; the size is 0 if the bytes begin with no varint. A pair is handed out
/// in registers, so that short spellings don't pay for a place in memory.
#[inline(never)]
fn long_varint_at(bytes: &[u8]) -> (u64, usize)
    ensures found { result.1 ≢ 0 → number_at bytes.now ≡ Ok result }
    ensures none { result.1 ≡ 0 → number_at bytes.now ≡ Err (spell_cause bytes.now) }
    ensures within { result.1 ≤ length bytes.now }
{
    let mut value = 0u64;
    for (i, byte) in bytes.iter().enumerate() {
        if i == 9 && *byte > 1 {
            return (0, 0);
        }
        value |= u64::from(*byte & 0x7f) << (7 * i);
        if *byte < 128 {
            return (value, i + 1);
        }
    }
    (0, 0)
}

/// Why bytes begin with no varint.
fn cause_of(bytes: &[u8]) -> WireCause
    ensures { result ≡ spell_cause bytes.now }
{
    if bytes.len() < 10 {
        WireCause::Truncated
    } else {
        WireCause::VarintRange
    }
}

/// How many bytes the shortest spelling of a number has.
#[inline]
pub fn varint_len(number: u64) -> usize
    ensures len { result ≡ length (short number) }
    ensures some { 1 ≤ result }
    ensures most { result ≤ 10 }
{
    if number < 1 << 7 {
        return 1;
    }
    if number < 1 << 14 {
        return 2;
    }
    number.ilog2() as usize / 7 + 1
}

/// Appends the shortest spelling of a number.
///
/// # Errors
///
/// When memory runs out.
#[inline(always)]
pub fn put_varint(out: &mut Vec<u8>, number: u64) -> Result<(), AllocError>
    ensures ok { OnOk result (out.new.items ≡ out.old.items ++ short number) }
    ensures err { OnErr result (out.new.items ≡ out.old.items) }
    ensures room { vec_len out.old + length (short number) ≤ vec_capacity out.old → IsOk result }
    ensures capacity { vec_capacity out.old ≤ vec_capacity out.new }
{
    if number < 1 << 7 {
        return put_byte(out, number as u8);
    }
    if number < 1 << 14 {
        return put_two_bytes(out, (number % 128) as u8 + 128, (number / 128) as u8);
    }
    put_long_varint(out, number)
}

/// Appends a byte.
#[inline(always)]
fn put_byte(out: &mut Vec<u8>, byte: u8) -> Result<(), AllocError>
    ensures ok { OnOk result (out.new.items ≡ out.old.items ++ byte ∷ []) }
    ensures err { OnErr result (out.new.items ≡ out.old.items) }
    ensures room { vec_len out.old + 1 ≤ vec_capacity out.old → IsOk result }
    ensures capacity { vec_capacity out.old ≤ vec_capacity out.new }
{
    out.push(byte)?;
    Ok(())
}

/// Appends two bytes.
#[inline(always)]
fn put_two_bytes(out: &mut Vec<u8>, first: u8, second: u8) -> Result<(), AllocError>
    ensures ok { OnOk result (out.new.items ≡ out.old.items ++ first ∷ second ∷ []) }
    ensures err { OnErr result (out.new.items ≡ out.old.items) }
    ensures room { vec_len out.old + 2 ≤ vec_capacity out.old → IsOk result }
    ensures capacity { vec_capacity out.old ≤ vec_capacity out.new }
{
    out.reserve(2)?;
    out.push_reserved(first);
    out.push_reserved(second);
    Ok(())
}

/// The same, by the spelling in an array.
#[inline(never)]
fn put_long_varint(out: &mut Vec<u8>, number: u64) -> Result<(), AllocError>
    ensures ok { OnOk result (out.new.items ≡ out.old.items ++ short number) }
    ensures err { OnErr result (out.new.items ≡ out.old.items) }
    ensures room { vec_len out.old + length (short number) ≤ vec_capacity out.old → IsOk result }
    ensures capacity { vec_capacity out.old ≤ vec_capacity out.new }
{
    let (bytes, len) = short_bytes(number);
    out.extend_from_slice(&bytes[..len])
}

/// The shortest spelling of a number, and its length.
fn short_bytes(number: u64) -> ([u8; 10], usize)
    ensures within { result.1 ≤ 10 }
    ensures short { take result.1 result.0 ≡ short number }
{
    let mut bytes = [0u8; 10];
    let mut rest = number;
    let mut len = 0;
    while rest >= 128 {
        bytes[len] = (rest % 128) as u8 + 128;
        rest /= 128;
        len += 1;
    }
    bytes[len] = rest as u8;
    (bytes, len + 1)
}
