//! Assertions as calls. An `assert_eq!` that is written out in a test is proved again for each way
//! that leads to it; a call has one way, and what it calls is proved once.
use std::fmt::{Debug, Display};
use std::process::Abort;

// As `assert_eq!`; the note of a failure is what was compared.
macro_rules! expect_eq {
    ($rt:expr; $found:expr, $expected:expr) => {
        crate::expect::equal(&$rt, $found, $expected, stringify!($found))
    };
    ($rt:expr; $found:expr, $expected:expr, $($note:tt)+) => {
        crate::expect::equal(&$rt, $found, $expected, format_args!($($note)+))
    };
}

// As `assert!`; the note of a failure is what should hold.
macro_rules! expect {
    ($rt:expr; $holds:expr) => {
        crate::expect::holds(&$rt, $holds, stringify!($holds))
    };
}

pub(crate) use expect;
pub(crate) use expect_eq;

pub(crate) fn equal<T: PartialEq + Debug + Drop, N: Display + Drop>(
    rt: &impl Abort,
    found: T,
    expected: T,
    note: N,
) {
    assert_eq!(rt; found, expected, "{note}");
}

pub(crate) fn holds(rt: &impl Abort, holds: bool, note: &str) {
    assert!(rt; holds, "{note}");
}
