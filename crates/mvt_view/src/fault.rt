//! The line of a fault.
ghost use Rattle.std.specs.Prelude.{◌≡◌, ◌++◌, OnOk, IfOk, string_bytes};
ghost use Rattle.mvt_view.specs.FaultLines.{fault_line, index_text};

use crate::view_error::ViewError;
use mvt_tile::Fault;
use std::alloc::{AllocError, Global};
use std::fmt::Write;

/// The line of a fault, without a line end: `layer L feature F at A: N Name`.
///
/// # Errors
///
/// When memory runs out.
#[tactic(auto, unfolding(crate::specs::FaultLines::fault_line))]
pub fn fault_text(alloc: Global, fault: &Fault) -> Result<String, ViewError>
    ensures { IfOk result (λ text. string_bytes text ≡ fault_line fault.now) }
{
    let mut text = String::new(alloc);
    text.push_str("layer ")?;
    push_index(&mut text, fault.layer)?;
    text.push_str(" feature ")?;
    push_index(&mut text, fault.feature)?;
    let at = fault.at;
    let number = fault.cause.number();
    let name = fault.cause.name();
    write!(text, " at {at}: {number} {name}")?;
    Ok(text)
}

/// Appends an index, or a hyphen if there is none.
fn push_index(text: &mut String, index: Option<u32>) -> Result<(), AllocError>
    ensures { OnOk result (string_bytes text.new ≡ string_bytes text.old ++ index_text index) }
{
    match index {
        Some(index) => write!(text, "{index}"),
        None => text.push_str("-"),
    }
}
