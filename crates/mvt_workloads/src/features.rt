//! Features: an id, tags, a type and a geometry.

use crate::message::Message;
use crate::random::Random;
use mvt_wire::zigzag32;
use std::alloc::AllocError;

/// What a feature draws.
#[derive(Clone, Copy, PartialEq, Eq)]
pub enum Shape {
    Points,
    Line,
    /// A ring, and so many holes in it.
    Rings(u32),
}

impl Shape {
    /// The number of its type (4.3.4).
    pub fn number(self) -> u64 {
        match self {
            Shape::Points => 1,
            Shape::Line => 2,
            Shape::Rings(_) => 3,
        }
    }
}

fn put_delta(out: &mut Message, delta: i32) -> Result<(), AllocError> {
    out.put_number(u64::from(zigzag32(delta)))
}

fn small(random: &mut Random, most: u32) -> i32 {
    random.within(1, most % 65_536).cast_signed()
}

/// A position whose spelling has two bytes.
fn position(random: &mut Random) -> i32 {
    random.within(64, 4000).cast_signed()
}

/// A move of the pen to one point; the lower bits of its two parameters may change.
fn put_move(out: &mut Message, random: &mut Random) -> Result<(), AllocError> {
    out.put_number(9)?;
    for _ in 0..2 {
        out.mark(0x3e)?;
        put_delta(out, position(random))?;
    }
    Ok(())
}

/// A step to the right or to the left that wavers by a few units.
fn put_steps(
    out: &mut Message,
    random: &mut Random,
    count: u32,
    goes_left: bool,
) -> Result<(), AllocError> {
    for step in 0..count {
        let right = if random.one_in(6) {
            small(random, 900)
        } else {
            small(random, 60)
        };
        put_delta(
            out,
            if goes_left {
                right.wrapping_neg()
            } else {
                right
            },
        )?;
        put_delta(out, if step % 2 == 0 { 5 } else { -5 })?;
    }
    Ok(())
}

fn put_line(out: &mut Message, random: &mut Random, points: u32) -> Result<(), AllocError> {
    let steps = (points % (1 << 20)).saturating_sub(1).max(1);
    let goes_left = random.one_in(2);
    put_move(out, random)?;
    out.put_number(u64::from(steps) * 8 + 2)?;
    put_steps(out, random, steps, goes_left)
}

/// A ring of some points: along its upper side, down, and back along its lower side. A hole goes
/// the other way round.
fn put_ring(
    out: &mut Message,
    random: &mut Random,
    points: u32,
    is_hole: bool,
) -> Result<(), AllocError> {
    let half = (points % (1 << 20) / 2).saturating_sub(1).max(1);
    put_move(out, random)?;
    out.put_number(u64::from(2 * half + 1) * 8 + 2)?;
    put_steps(out, random, half, is_hole)?;
    put_delta(out, 0)?;
    put_delta(out, random.within(13, 52).cast_signed())?;
    put_steps(out, random, half, !is_hole)?;
    out.put_number(15)
}

fn put_points(out: &mut Message, random: &mut Random, points: u32) -> Result<(), AllocError> {
    let points = (points % (1 << 20)).max(1);
    out.put_number(u64::from(points) * 8 + 1)?;
    for _ in 0..points {
        out.mark(0x3e)?;
        put_delta(out, position(random))?;
        out.mark(0x3e)?;
        put_delta(out, position(random))?;
    }
    Ok(())
}

/// Appends a geometry's integers.
pub fn put_geometry(
    out: &mut Message,
    random: &mut Random,
    shape: Shape,
    points: u32,
) -> Result<(), AllocError> {
    match shape {
        Shape::Points => put_points(out, random, points),
        Shape::Line => put_line(out, random, points),
        Shape::Rings(holes) => {
            put_ring(out, random, points, false)?;
            for _ in 0..holes {
                put_ring(out, random, 8, true)?;
            }
            Ok(())
        }
    }
}
