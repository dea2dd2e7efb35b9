//! Commands and the counts that they may have (sections 4.3.1 and 4.3.4).
ghost use Rattle.std.specs.Prelude.{◌≡◌, ◌+◌, ◌*◌, ◌/◌, ◌^◌, ◌<◌};
ghost use Rattle.mvt_geometry.specs.Commands.{id_of, is_allowed};
ghost use Rattle.mvt_geometry.specs.Table.{is_line_to};

use crate::shape::Kind;

#[derive(Clone, Copy, Debug, PartialEq, Eq)]
pub(crate) enum Command {
    MoveTo,
    LineTo,
    ClosePath,
}

impl Command {
    #[inline(always)]
    pub(crate) fn id(self) -> u32
        ensures { result ≡ id_of self }
    {
        match self {
            Command::MoveTo => 1,
            Command::LineTo => 2,
            Command::ClosePath => 7,
        }
    }

    /// The integer of this command with a count (4.3.1, CommandInteger).
    #[inline(always)]
    pub(crate) fn integer(self, count: u32) -> u32
        requires { count < 2 ^ 29 }
        ensures { result ≡ id_of self + 8 * count }
    {
        8 * count + self.id()
    }

    /// The count in the integer of a command (4.3.1).
    #[inline(always)]
    pub(crate) fn count_in(integer: u32) -> u32
        ensures { result ≡ integer / 8 }
    {
        integer / 8
    }

    /// Whether its pairs draw lines.
    #[inline(always)]
    pub(crate) fn is_line(self) -> bool
        ensures { result ≡ is_line_to (Some self) }
    {
        matches!(self, Command::LineTo)
    }

    /// Whether a geometry of this type may have the command with this count.
    #[inline(always)]
    pub(crate) fn allows(self, kind: Kind, count: u32) -> bool
        ensures { result ≡ is_allowed kind self count }
    {
        match (kind, self) {
            (Kind::Point, _) => count > 0,
            (Kind::LineString, Command::LineTo) => count > 0,
            (Kind::Polygon, Command::LineTo) => count > 1,
            _ => count == 1,
        }
    }
}
