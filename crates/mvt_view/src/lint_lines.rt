//! The lines of findings.
ghost use Rattle.std.specs.Prelude.{◌≡◌, ◌++◌, OnOk, IfOk, string_bytes};
ghost use Rattle.std.specs.List.{flat_map};
ghost use Rattle.mvt_view.specs.LintLines.{finding_line};

use crate::view_error::ViewError;
use mvt_tile::Finding;
use std::alloc::{AllocError, Global};
use std::fmt::Write;

/// A line for each finding, which ends in a line feed.
///
/// # Errors
///
/// When memory runs out.
pub fn lint_text(alloc: Global, findings: &[Finding]) -> Result<String, ViewError>
    ensures { IfOk result (λ text. string_bytes text ≡ flat_map finding_line findings.now) }
{
    let mut text = String::new(alloc);
    for finding in findings {
        push_finding(&mut text, *finding)?;
    }
    Ok(text)
}

#[tactic(auto, unfolding(crate::specs::LintLines::finding_line))]
fn push_finding(text: &mut String, finding: Finding) -> Result<(), AllocError>
    ensures { OnOk result (string_bytes text.new ≡ string_bytes text.old ++ finding_line finding) }
{
    match finding {
        Finding::ZeroExtent(layer) => writeln!(text, "lint ZeroExtent layer {layer}"),
        Finding::NoGeometry(layer, feature) => {
            writeln!(text, "lint NoGeometry layer {layer} feature {feature}")
        }
        Finding::UnknownGeometry(layer, feature) => {
            writeln!(text, "lint UnknownGeometry layer {layer} feature {feature}")
        }
        Finding::FarPoint(layer, feature, x, y) => writeln!(
            text,
            "lint FarPoint layer {layer} feature {feature} position {x} {y}"
        ),
        Finding::LargeId(layer, feature) => {
            writeln!(text, "lint LargeId layer {layer} feature {feature}")
        }
        Finding::LargeNumber(layer, feature, attribute) => writeln!(
            text,
            "lint LargeNumber layer {layer} feature {feature} attribute {attribute}"
        ),
    }
}
