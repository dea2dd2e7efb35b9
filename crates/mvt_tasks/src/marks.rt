//! Texts whose lines say of which file they speak.
ghost use Rattle.std.specs.Prelude.{◌≡◌, [], ◌++◌, true, codes, IfOk, OnOk, if◌then◌else◌};
ghost use Rattle.mvt_tasks.specs.Checks.{marked as marked_from};

use std::alloc::{AllocError, Global};

/// The lines of a text, each after a file's name.
pub(crate) fn named(alloc: Global, name: &str, text: &[u8]) -> Result<Vec<u8>, AllocError>
    ensures { IfOk result (λ bytes. bytes.items
        ≡ marked_from (name.now ++ codes ": ") true text.now) }
{
    let mark = format!(in alloc; "{name}: ")?;
    marked(alloc, mark.as_bytes(), text)
}

/// A text with a mark before each of its lines.
fn marked(alloc: Global, mark: &[u8], text: &[u8]) -> Result<Vec<u8>, AllocError>
    ensures { IfOk result (λ bytes. bytes.items ≡ marked_from mark.now true text.now) }
{
    let mut bytes = Vec::new(alloc);
    let mut is_start = true;
    for byte in text {
        push_if(&mut bytes, is_start, mark)?;
        bytes.push(*byte)?;
        is_start = *byte == b'\n';
    }
    Ok(bytes)
}

fn push_if(bytes: &mut Vec<u8>, test: bool, more: &[u8]) -> Result<(), AllocError>
    ensures { OnOk result (bytes.new.items ≡ bytes.old.items ++ (if test then more.now else [])) }
{
    if test {
        bytes.extend_from_slice(more)?;
    }
    Ok(())
}
