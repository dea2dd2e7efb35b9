//! What the integers of a geometry draw, one after another, whatever they are (Mapbox Vector Tile
//! Specification 2.1, 4.3).
ghost use Rattle.std.specs.Prelude.{◌≡◌, ◌^◌, ◌<◌, ◌≢◌, ◌+ℤ◌, false, IfOk};
ghost use Rattle.mvt_wire.specs.Zigzag.{unzig};
ghost use Rattle.mvt_geometry.specs.Shape.{wide};
ghost use Rattle.mvt_geometry.specs.Table.{is_outside as is_beyond};
ghost use Rattle.mvt_places.specs.Pens as spec;
ghost use Rattle.mvt_places.specs.Pens.{before_all, begun as the_begun, commanded as the_commanded, drawn_steps, nothing as the_nothing, step_after, moved as the_moved};

use crate::integers::Integer;
use mvt_wire::unzigzag32;
use std::alloc::{AllocError, Global};

/// What an integer of a geometry is (4.3.1, 4.3.2).
#[derive(Clone, Copy, Debug, PartialEq, Eq)]
pub enum Role {
    /// It draws nothing: no command has its number, it has more than 32 bits, or it stands behind
    /// such an integer or behind a position out of range.
    Nothing,
    /// A command.
    MoveTo,
    LineTo,
    ClosePath,
    /// The first or second parameter of a pair: a step to the right, or down.
    MoveX,
    MoveY,
    LineX,
    LineY,
}

impl Role {
    /// Its number in `mvt.h`: that of the command, and for parameters 3 to 6.
    pub fn number(self) -> u32
        ensures { result ≡ spec.role_number self }
    {
        match self {
            Role::Nothing => 0,
            Role::MoveTo => 1,
            Role::LineTo => 2,
            Role::MoveX => 3,
            Role::MoveY => 4,
            Role::LineX => 5,
            Role::LineY => 6,
            Role::ClosePath => 7,
        }
    }
}

/// What an integer of a geometry is, and where the cursor then stands.
///
/// A `MoveX` and its `MoveY` begin a part, a `LineX` and its `LineY` go on with it, and a
/// `ClosePath` closes it.
#[derive(Clone, Copy, Debug, PartialEq, Eq)]
pub struct Step {
    pub role: Role,
    /// How many parameters of the command are still to come.
    pub left: u32,
    pub x: i64,
    pub y: i64,
}

/// What each of the integers of a geometry is.
pub(crate) fn steps(alloc: Global, integers: &[Integer]) -> Result<Vec<Step>, AllocError>
    ensures { IfOk result (λ steps. steps.items ≡ drawn_steps integers.now) }
{
    let mut steps = Vec::with_capacity(alloc, integers.len())?;
    let mut last = Step::before_all();
    for integer in integers {
        last = last.after(integer.value);
        steps.push(last)?;
    }
    Ok(steps)
}

impl Step {
    /// Before the first integer.
    fn before_all() -> Self
        ensures { result ≡ before_all }
    {
        Step {
            role: Role::ClosePath,
            left: 0,
            x: 0,
            y: 0,
        }
    }

    /// One integer more.
    fn after(self, integer: u64) -> Self
        ensures { result ≡ step_after self integer }
    {
        if self.is_ended() || integer >= 1 << 32 {
            return self.nothing();
        }
        let integer = integer as u32;
        if self.left == 0 {
            self.commanded(integer % 8, integer / 8)
        } else {
            self.moved(integer)
        }
    }

    /// An integer that draws nothing.
    fn nothing(self) -> Self
        ensures { result ≡ the_nothing self }
    {
        self.begun(Role::Nothing, 0)
    }

    /// A command, of which so many parameters follow.
    fn begun(self, role: Role, left: u32) -> Self
        ensures { result ≡ the_begun self role left }
    {
        Step { role, left, ..self }
    }

    /// Whether nothing more is drawn.
    fn is_ended(&self) -> bool
        ensures { result ≡ spec.is_ended self.now }
    {
        self.role == Role::Nothing
            || is_outside(self.y)
            || (self.left % 2 == 0 && is_outside(self.x))
    }

    /// A command by its number and count.
    fn commanded(self, id: u32, count: u32) -> Self
        requires { count < 2 ^ 29 }
        ensures { result ≡ the_commanded self id count }
    {
        match id {
            1 => self.begun(Role::MoveTo, 2 * count),
            2 => self.begun(Role::LineTo, 2 * count),
            7 => self.begun(Role::ClosePath, 0),
            _ => self.nothing(),
        }
    }

    /// A parameter of a command.
    fn moved(self, integer: u32) -> Self
        requires due { self.left ≢ 0 }
        requires going { spec.is_ended self ≡ false }
        ensures { result ≡ the_moved self integer }
    {
        let left = self.left - 1;
        if self.left % 2 == 0 {
            Step {
                role: x_role(self.role),
                left,
                x: moved_by(self.x, integer),
                ..self
            }
        } else {
            Step {
                role: y_role(self.role),
                left,
                y: moved_by(self.y, integer),
                ..self
            }
        }
    }
}

/// A coordinate moved by a parameter.
fn moved_by(from: i64, integer: u32) -> i64
    requires { is_beyond wide from ≡ false }
    ensures { result ≡ from +ℤ unzig integer }
{
    from + i64::from(unzigzag32(integer))
}

/// What the first parameter of a pair is, after a command or a pair.
fn x_role(before: Role) -> Role
    ensures { result ≡ spec.x_role before }
{
    match before {
        Role::LineTo | Role::LineY => Role::LineX,
        _ => Role::MoveX,
    }
}

/// What the second parameter of a pair is, after the first.
fn y_role(before: Role) -> Role
    ensures { result ≡ spec.y_role before }
{
    match before {
        Role::LineX => Role::LineY,
        _ => Role::MoveY,
    }
}

/// Whether a coordinate is out of the range of positions.
fn is_outside(coordinate: i64) -> bool
    ensures { result ≡ is_beyond wide coordinate }
{
    coordinate < -2_147_483_647 || coordinate > 2_147_483_647
}
