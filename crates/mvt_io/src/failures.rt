//! What readers and writers keep of their failed calls.
ghost use Rattle.std.specs.Prelude.{◌≡◌, None, false};
ghost use Rattle.mvt_io.specs.States.{failed, passed};

use std::io::ErrorKind;
use std::marker::Model;

/// How many calls failed, the kind of the last that did, and whether the last call did.
#[derive(Drop)]
pub(crate) struct Failures {
    count: u64,
    last: Option<ErrorKind>,
    ended: bool,
}

impl Model for Failures {
    ghost use Rattle.mvt_io.specs.States.{Faults};

    ghost Value = { Faults };

    ghost view = { λ f. record { count = f.count; last = f.last; ended = f.ended } };
}

impl Failures {
    pub(crate) fn none() -> Self
        ensures { result ≡ record { count = 0; last = None; ended = false } }
    {
        Failures {
            count: 0,
            last: None,
            ended: false,
        }
    }

    pub(crate) fn count(&self) -> u64
        ensures { result ≡ self.now.count }
    {
        self.count
    }

    pub(crate) fn add(&mut self, kind: ErrorKind)
        ensures { self.new ≡ failed kind self.old }
    {
        self.count = self.count.saturating_add(1);
        self.last = Some(kind);
        self.ended = true;
    }

    /// A call that didn't fail.
    pub(crate) fn pass(&mut self)
        ensures { self.new ≡ passed self.old }
    {
        self.ended = false;
    }
}
