//! The lines of changes, and that of why a tile isn't mended.
ghost use Rattle.std.specs.Prelude.{◌≡◌, ◌++◌, OnOk, IfOk, string_bytes};
ghost use Rattle.std.specs.List.{flat_map};
ghost use Rattle.mvt_mend.specs.ChangeLines.{change_line, unmended_line};

use crate::change::{Change, Unmended};
use std::alloc::{AllocError, Global};
use std::fmt::Write;

/// A line for each change, which ends in a line feed.
///
/// # Errors
///
/// When memory runs out.
pub fn change_text(alloc: Global, changes: &[Change]) -> Result<String, AllocError>
    ensures { IfOk result (λ text. string_bytes text ≡ flat_map change_line changes.now) }
{
    let mut text = String::new(alloc);
    for change in changes {
        push_change(&mut text, *change)?;
    }
    Ok(text)
}

#[tactic(auto, unfolding(crate::specs::ChangeLines::change_line))]
fn push_change(text: &mut String, change: Change) -> Result<(), AllocError>
    ensures { OnOk result (string_bytes text.new ≡ string_bytes text.old ++ change_line change) }
{
    match change {
        Change::TurnedRing(layer, feature, ring) => {
            writeln!(
                text,
                "mended layer {layer} feature {feature}: TurnedRing {ring}"
            )
        }
        Change::RepeatedPoint(layer, feature, part, count) => writeln!(
            text,
            "mended layer {layer} feature {feature}: RepeatedPoint {part} count {count}"
        ),
        Change::PartLeftOut(layer, feature, part, count) => writeln!(
            text,
            "mended layer {layer} feature {feature}: PartLeftOut {part} count {count}"
        ),
        Change::FeatureLeftOut(layer, feature, count) => writeln!(
            text,
            "mended layer {layer} feature {feature}: FeatureLeftOut count {count}"
        ),
        Change::MovedRing(layer, feature, ring, to) => writeln!(
            text,
            "mended layer {layer} feature {feature}: MovedRing {ring} to {to}"
        ),
    }
}

/// The line of why a tile isn't mended, which ends in a line feed.
///
/// # Errors
///
/// When memory runs out.
pub fn unmended_text(alloc: Global, cause: Unmended) -> Result<String, AllocError>
    ensures { IfOk result (λ text. string_bytes text ≡ unmended_line cause) }
{
    let mut text = String::new(alloc);
    push_unmended(&mut text, cause)?;
    Ok(text)
}

#[tactic(auto, unfolding(crate::specs::ChangeLines::unmended_line))]
fn push_unmended(text: &mut String, cause: Unmended) -> Result<(), AllocError>
    ensures { OnOk result (string_bytes text.new ≡ string_bytes text.old ++ unmended_line cause) }
{
    match cause {
        Unmended::RingsCross(layer, feature, crossing) => push_crossing(
            text,
            layer,
            feature,
            crossing.outer,
            crossing.inner,
        ),
        Unmended::TooManySteps => writeln!(
            text,
            "mvt: not mended: rings take more than 1073741824 steps"
        ),
        Unmended::AnotherRule => writeln!(text, "mvt: not mended: another rule is broken"),
    }
}

#[tactic(auto, unfolding(crate::specs::ChangeLines::unmended_line))]
fn push_crossing(
    text: &mut String,
    layer: usize,
    feature: usize,
    outer: usize,
    inner: usize,
) -> Result<(), AllocError>
    ensures { OnOk result (string_bytes text.new ≡ string_bytes text.old
        ++ unmended_line
        (Unmended.RingsCross layer feature (record { outer = outer; inner = inner }))) }
{
    writeln!(
        text,
        "mvt: not mended: layer {layer} feature {feature}: rings {outer} and {inner} cross"
    )
}
