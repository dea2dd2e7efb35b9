//! Integers of a geometry (Protocol Buffers, Encoding, "Signed Integers").
ghost use Rattle.std.specs.Prelude.{◌≡◌};
ghost use Rattle.mvt_wire.specs.Zigzag.{zig};

/// A code keeps the sign of its number.
pub fn unzigzag32(code: u32) -> i32
    ensures { zig result ≡ code }
{
    mvt_wire::unzigzag32(code)
}
