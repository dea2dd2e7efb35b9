//! An item made canonical from its payload: no value of it stands in memory (Mapbox Vector Tile
//! Specification 2.1, 4.1).
ghost use Rattle.std.specs.Prelude.{◌≡◌, ◌+◌, ◌^◌, ◌<◌, ◌≤◌, ◌∷◌, ◌++◌, length, None, IfOk, IfErr, OnErr, OnOk};
ghost use Rattle.mvt_base.specs.Related.{Extends};
ghost use Rattle.std.specs.Option.{option_copied, option_to_list};
ghost use Rattle.mvt_base.specs.Reports.{Reports};
ghost use Rattle.mvt_feature.specs.Faults.{fault_of};
ghost use Rattle.mvt_message.specs.declared.item.Item.{Item};
ghost use Rattle.mvt_wire.specs.Spelling.{spelled};
ghost use Rattle.mvt_message.specs.CanonicalItems.{canonical_item, head_fields};
ghost use Rattle.mvt_message.specs.Copying.{copied_payload};
ghost use Rattle.mvt_message.specs.ItemRules.{item_fault};
ghost use Rattle.mvt_message.specs.Items.{IsItem, names_in};
ghost use Rattle.mvt_message.specs.Rewriting.{tail_of};
ghost use Rattle.mvt_message.specs.ValidItems.{ValidItem};

use crate::layer_copying::{CopiedLayer, copied_layer};
use crate::layer_rewriting::{LayerRewriter, Rewritten, RewrittenLayer};
use crate::layer_writer::{put_extent, put_head};
use crate::reading::judge_item;
use crate::version::early_version;
use crate::visiting::visit_version_2;
use mvt_base::LIMIT;
use mvt_feature::{MessageError, Unsure};
use mvt_geometry::Ignore;
use std::alloc::{AllocError, Global};

/// Appends the canonical payload of the item that a payload is, and answers the name of the layer.
/// It may be longer than the limit.
///
/// A layer whose features, keys and values are canonical is copied. Of any other, feature by
/// feature is judged and written; so its keys and values may be searched for twice. They are found
/// by their hashes, and if others have these too, in order: the time grows as sorting the payload,
/// whatever its texts are. It holds the layer's keys and values and the fields of its features.
///
/// # Errors
///
/// As [`read_item`](crate::read_item), and the list is then unchanged or longer.
pub fn rewrite_item<'a>(
    alloc: Global,
    payload: &'a [u8],
    payload_at: u64,
    tag_at: u64,
    out: &mut Vec<u8>,
) -> Result<Option<&'a str>, MessageError>
    requires small { length payload.now ≤ LIMIT }
    requires fits { payload_at + length payload.now < 2 ^ 64 }
    ensures ok { OnOk result (item_fault payload.now payload_at tag_at ≡ None) }
    ensures item { IfOk result (λ name. (item : Item) × IsItem payload.now item × ValidItem item
        × (option_to_list (option_copied name) ≡ names_in item)
        × (out.new.items ≡ out.old.items ++ canonical_item item)) }
    ensures fault { IfErr result (λ error. Reports (fault_of error)
        (item_fault payload.now payload_at tag_at)) }
    ensures left { OnErr result (Extends out.old.items out.new.items) }
{
    if let Some(_) = early_version(payload, payload_at, tag_at) {
        out.extend_from_slice(payload)?;
        return Ok(None);
    }
    match copied_layer(alloc, payload) {
        Ok(layer) => {
            append_copied(out, &layer, payload.len())?;
            Ok(Some(layer.name))
        }
        Err(Unsure::Memory) => Err(MessageError::Memory),
        Err(Unsure::SeemsBroken) => {
            // Judging tells the fault in less time than rewriting up to it.
            judge_item(alloc, payload, payload_at, tag_at)?;
            rewrite_anew(alloc, payload, payload_at, tag_at, out)
        }
        Err(Unsure::Undecided) => rewrite_anew(alloc, payload, payload_at, tag_at, out),
    }
}

/// Appends a layer whose features, keys and values are copied as they stand.
fn append_copied(out: &mut Vec<u8>, layer: &CopiedLayer<'_>, bytes: usize) -> Result<(), AllocError>
    ensures ok { OnOk result (out.new.items ≡ out.old.items ++ copied_payload layer.now) }
    ensures left { OnErr result (Extends out.old.items out.new.items) }
{
    out.reserve(bytes)?;
    put_head(out, layer.name)?;
    out.extend_from_slice(layer.front)?;
    out.extend_from_slice(layer.values)?;
    put_extent(out, layer.extent)
}

/// Appends the canonical parts of a layer, which rarely are more bytes than its payload has.
fn append_written(
    out: &mut Vec<u8>,
    layer: &RewrittenLayer<'_, Ignore>,
    bytes: usize,
) -> Result<(), AllocError>
    ensures ok { OnOk result (out.new.items ≡ out.old.items
        ++ (spelled (head_fields layer.now.name.now) ++ (layer.now.writer.features.items
        ++ tail_of layer.now.writer.uses layer.now.extent))) }
    ensures left { OnErr result (Extends out.old.items out.new.items) }
{
    out.reserve(bytes)?;
    layer.writer.append_layer(out, layer.name, layer.extent)
}

/// The same for any item, field by field.
fn rewrite_anew<'a>(
    alloc: Global,
    payload: &'a [u8],
    payload_at: u64,
    tag_at: u64,
    out: &mut Vec<u8>,
) -> Result<Option<&'a str>, MessageError>
    requires small { length payload.now ≤ LIMIT }
    requires fits { payload_at + length payload.now < 2 ^ 64 }
    ensures ok { OnOk result (item_fault payload.now payload_at tag_at ≡ None) }
    ensures item { IfOk result (λ name. (item : Item) × IsItem payload.now item × ValidItem item
        × (option_to_list (option_copied name) ≡ names_in item)
        × (out.new.items ≡ out.old.items ++ canonical_item item)) }
    ensures fault { IfErr result (λ error. Reports (fault_of error)
        (item_fault payload.now payload_at tag_at)) }
    ensures left { OnErr result (Extends out.old.items out.new.items) }
{
    let mut rewriter = LayerRewriter::new(alloc, Ignore, payload.len())?;
    let visited = visit_version_2(alloc, &mut rewriter, payload, payload_at, tag_at)?;
    match rewriter.finish(visited) {
        Rewritten::Layer(layer) => {
            append_written(out, &layer, payload.len())?;
            Ok(Some(layer.name))
        }
        Rewritten::Foreign(_) => {
            out.extend_from_slice(payload)?;
            Ok(None)
        }
    }
}
