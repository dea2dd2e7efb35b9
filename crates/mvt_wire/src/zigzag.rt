//! Signed numbers as unsigned ones (Protocol Buffers, Encoding, "Signed Integers").
ghost use Rattle.std.specs.Prelude.{◌≡◌};
ghost use Rattle.mvt_wire.specs.Zigzag.{zig};

/// The zigzag code of a number.
#[inline]
pub fn zigzag32(number: i32) -> u32
    ensures { result ≡ zig number }
{
    let twice = number.cast_unsigned().wrapping_mul(2);
    if number >= 0 { twice } else { !twice }
}

/// The number that has this zigzag code.
#[inline]
pub fn unzigzag32(code: u32) -> i32
    ensures { zig result ≡ code }
{
    let half = (code / 2).cast_signed();
    if code % 2 == 0 { half } else { !half }
}

/// The zigzag code of a number.
#[inline]
pub fn zigzag64(signed: i64) -> u64
    ensures { result ≡ zig signed }
{
    let twice = signed.cast_unsigned().wrapping_mul(2);
    if signed >= 0 { twice } else { !twice }
}

/// The number that has this zigzag code.
#[inline]
pub fn unzigzag64(code: u64) -> i64
    ensures { zig result ≡ code }
{
    let magnitude = (code / 2).cast_signed();
    if code % 2 == 0 { magnitude } else { !magnitude }
}
