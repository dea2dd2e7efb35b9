//! Whether an input begins with the canonical bytes of items.
ghost use Rattle.std.specs.Prelude.{◌≡◌, ◌++◌, ℕ, List, length, IfOk};
ghost use Rattle.mvt_wire.specs.Field.{bytes as in_bytes};
ghost use Rattle.mvt_wire.specs.Spelling.{short_field};
ghost use Rattle.mvt_tile_value.specs.declared.numbers.tile.TheConstants.{LAYERS};
ghost use Rattle.mvt_tile_value.specs.Comparing.{IsAfter};

use crate::numbers::tile;
use mvt_base::LIMIT;
use mvt_wire::put_field_head;
use std::alloc::{AllocError, Global};

/// What stands after one item more, whose canonical payload is a head, the fields of features and a
/// tail.
pub(crate) fn after_item<'b>(
    alloc: Global,
    head: &[u8],
    features: &[u8],
    tail: &[u8],
    left: Option<&'b [u8]>,
) -> Result<Option<&'b [u8]>, AllocError>
    ensures { (input front : List ℕ) → IsAfter input front left.entry
        → IfOk result (IsAfter input (front ++ short_field LAYERS
        (in_bytes (head.now ++ (features.now ++ tail.now))))) }
{
    let field = field_head(alloc, len_of(head, features, tail)?)?;
    let from_head = after(field.as_slice(), left);
    let from_features = after(head, from_head);
    let from_tail = after(features, from_features);
    Ok(after(tail, from_tail))
}

/// The number of an item's bytes. More than can be counted don't fit into any memory.
fn len_of(head: &[u8], features: &[u8], tail: &[u8]) -> Result<usize, AllocError>
    ensures { IfOk result (λ len. len ≡ length (head.now ++ (features.now ++ tail.now))) }
{
    let left = features.len().checked_add(tail.len()).ok_or(AllocError)?;
    head.len().checked_add(left).ok_or(AllocError)
}

/// What stands after some bytes more.
fn after<'b>(part: &[u8], left: Option<&'b [u8]>) -> Option<&'b [u8]>
    ensures { (input front : List ℕ) → IsAfter input front left.entry
        → IsAfter input (front ++ part.now) result }
{
    match left {
        Some(rest) => rest.strip_prefix(part),
        None => None,
    }
}

/// The tag and the length of an item's field.
fn field_head(alloc: Global, len: usize) -> Result<Vec<u8>, AllocError>
    ensures { IfOk result (λ head. (d : List ℕ) → length d ≡ len
        → short_field LAYERS (in_bytes d) ≡ head.items ++ d) }
{
    let mut head = Vec::new(alloc);
    put_field_head(&mut head, tile::LAYERS, len as u64)?;
    Ok(head)
}
