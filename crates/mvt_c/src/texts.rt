//! The calls that make texts of a tile's bytes.
ghost use Rattle.std.specs.Prelude.{◌≡◌, ◌≤◌, IfOk, IfErr};
ghost use Rattle.mvt_view.specs.LintLines.{lint_lines};
ghost use Rattle.mvt_view.specs.Svg.{svg};
ghost use Rattle.mvt_c.specs.Calls.{IsTextOf, NotShown, json_line};
ghost use Rattle.mvt_c.specs.Texts.{IsShown, report_of};

use crate::fault::Fault;
use crate::lent::Bytes;
use crate::refusal::{Refusal, hand_out};
use mvt_tile::{decode, lint_bytes, survey_tile};
use mvt_view::{json_text, lint_text, survey_text, svg_text};
use std::alloc::Global;

/// A tile as JSON, in one line (`mvt_json`).
#[unsafe(no_mangle)]
pub extern "C" fn mvt_json(alloc: Global, bytes: &[u8], out: &mut Bytes, fault: &mut Fault) -> u32
    ensures { IsShown json_line bytes.now result out.old out.new fault.old fault.new }
{
    hand_out(json(alloc, bytes), out, fault)
}

fn json(alloc: Global, bytes: &[u8]) -> Result<Vec<u8>, Refusal>
    ensures done { IfOk result (λ made. IsTextOf json_line bytes.now made.items) }
    ensures refused { IfErr result (NotShown bytes.now) }
{
    let tile = decode(alloc, bytes)?;
    Ok(json_text(alloc, &tile)?.into_bytes())
}

/// A picture of a tile (`mvt_svg`).
#[unsafe(no_mangle)]
pub extern "C" fn mvt_svg(alloc: Global, bytes: &[u8], out: &mut Bytes, fault: &mut Fault) -> u32
    ensures { IsShown svg bytes.now result out.old out.new fault.old fault.new }
{
    hand_out(picture(alloc, bytes), out, fault)
}

fn picture(alloc: Global, bytes: &[u8]) -> Result<Vec<u8>, Refusal>
    ensures done { IfOk result (λ made. IsTextOf svg bytes.now made.items) }
    ensures refused { IfErr result (NotShown bytes.now) }
{
    let tile = decode(alloc, bytes)?;
    Ok(svg_text(alloc, &tile)?.into_bytes())
}

/// What `mvt check` says of a tile that is accepted (`mvt_report`).
#[unsafe(no_mangle)]
pub extern "C" fn mvt_report(alloc: Global, bytes: &[u8], out: &mut Bytes, fault: &mut Fault) -> u32
    ensures { IsShown (report_of bytes.now) bytes.now result out.old out.new fault.old fault.new }
{
    hand_out(report(alloc, bytes), out, fault)
}

/// Reads one layer at a time.
fn report(alloc: Global, bytes: &[u8]) -> Result<Vec<u8>, Refusal>
    ensures done { IfOk result (λ made. IsTextOf (report_of bytes.now) bytes.now made.items) }
    ensures refused { IfErr result (NotShown bytes.now) }
{
    let survey = survey_tile(alloc, bytes)?;
    Ok(survey_text(alloc, &survey)?.into_bytes())
}

/// What `mvt lint` says of a tile that is accepted (`mvt_lint`).
#[unsafe(no_mangle)]
pub extern "C" fn mvt_lint(alloc: Global, bytes: &[u8], out: &mut Bytes, fault: &mut Fault) -> u32
    ensures { IsShown lint_lines bytes.now result out.old out.new fault.old fault.new }
{
    hand_out(findings(alloc, bytes), out, fault)
}

/// Reads one feature at a time.
fn findings(alloc: Global, bytes: &[u8]) -> Result<Vec<u8>, Refusal>
    ensures done { IfOk result (λ made. IsTextOf lint_lines bytes.now made.items) }
    ensures refused { IfErr result (NotShown bytes.now) }
{
    let found = lint_bytes(alloc, bytes)?;
    Ok(lint_text(alloc, found.as_slice())?.into_bytes())
}
