//! Why a run ends before its output is complete.
ghost use Rattle.std.specs.Prelude.{◌≡◌, ◌<◌};
ghost use Rattle.mvt_tasks.specs.Failures.{status_of, line_of, failure_of};

use mvt_io::ReadError;
use mvt_view::ViewError;
use std::alloc::AllocError;

/// What went wrong around the tile, rather than in it.
#[derive(Clone, Copy, Debug, PartialEq, Eq)]
pub enum Failure {
    Read,
    Write,
    Memory,
}

impl Failure {
    /// The program's status.
    pub fn status(self) -> u8
        ensures status { result ≡ status_of self }
        ensures above { 2 < result }
        ensures below { result < 5 }
    {
        match self {
            Failure::Read | Failure::Write => 3,
            Failure::Memory => 4,
        }
    }

    /// The line that tells it, with its line feed.
    pub fn line(self) -> &'static str
        ensures { result.now ≡ line_of self }
    {
        match self {
            Failure::Read => "mvt: read failed\n",
            Failure::Write => "mvt: write failed\n",
            Failure::Memory => "mvt: out of memory\n",
        }
    }
}

impl From<AllocError> for Failure {
    ghost use Rattle.mvt_tasks.specs.declared.failure.Failure.TheVariants.{Memory};

    ghost from_gives = { λ _ failure. failure ≡ Memory };

    fn from(_: AllocError) -> Self {
        Failure::Memory
    }
}

impl From<ViewError> for Failure {
    ghost use Rattle.mvt_tasks.specs.declared.failure.Failure.TheVariants.{Memory};

    ghost from_gives = { λ _ failure. failure ≡ Memory };

    fn from(_: ViewError) -> Self {
        Failure::Memory
    }
}

impl From<ReadError> for Failure {
    ghost from_gives = { λ error failure. failure ≡ failure_of error };

    fn from(error: ReadError) -> Self {
        match error {
            ReadError::Read(_) => Failure::Read,
            ReadError::Memory => Failure::Memory,
        }
    }
}
