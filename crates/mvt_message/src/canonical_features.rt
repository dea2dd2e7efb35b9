//! Features that are canonical and use the entries of their layer in order (sections 4.2 to 4.4).
ghost use Rattle.std.specs.Prelude.{◌≡◌, ◌≤◌, ◌<◌, ℕ, List, [], length, IfOk};
ghost use Rattle.mvt_attrs.specs.Values.{Value as AValue};
ghost use Rattle.mvt_attrs.specs.FirstUses.{lent};
ghost use Rattle.mvt_feature.specs.Copying.{AreReady};
ghost use Rattle.mvt_message.specs.declared.item.Item.{Item};
ghost use Rattle.mvt_message.specs.Copying.{AreFeaturesFrom};

use crate::feature_visitor::FeatureVisitor;
use crate::layer_frame::Front;
use crate::numbers::layer;
use mvt_attrs::LayerKeys;
use mvt_feature::{Unsure, judge_canonical};
use mvt_wire::short_bytes_at;
use std::alloc::Global;

/// Judges whether canonical features stand from an offset up to the keys of this front, and use its
/// entries in their order, and answers how many they use. A visitor is told them.
pub(crate) fn judge_features<V: FeatureVisitor>(
    alloc: Global,
    visitor: &mut V,
    body: &[u8],
    start: usize,
    front: &Front<'_>,
) -> Result<(usize, usize), Unsure>
    requires { start ≤ length body.now }
    ensures features { (items : List Item) → V.has_features items visitor.old [] → IfOk result
        (λ used. (held : List AValue) → length held ≡ length front.now.values.items
        → AreReady (lent front.now.keys.items) held (0, 0)
        → AreFeaturesFrom (V.has_features items visitor.new) body.now start
        (lent front.now.keys.items) held front.now.keys_at used) }
    ensures within { IfOk result (λ used. (used.0 ≤ length front.now.keys.items)
        × (used.1 ≤ length front.now.values.items)) }
{
    let values = front.values.len();
    let mut layer_keys = LayerKeys::new(alloc, &front.keys);
    let mut used = (0, 0);
    let mut at = start;
    while at < front.keys_at {
        let (after, more) = take_feature(alloc, visitor, body, at, &mut layer_keys, values, used)?;
        at = after;
        used = more;
    }
    if at != front.keys_at || used.0 > front.keys.len() || used.1 > values {
        return Err(Unsure::Undecided);
    }
    Ok(used)
}

/// The offset after the feature at one, and how many keys and values are used then. A visitor is
/// told the feature.
fn take_feature<V: FeatureVisitor>(
    alloc: Global,
    visitor: &mut V,
    body: &[u8],
    at: usize,
    keys: &mut LayerKeys<'_>,
    values: usize,
    used: (usize, usize),
) -> Result<(usize, (usize, usize)), Unsure>
    requires { at ≤ length body.now }
    ensures feature { IfOk result (λ f. (items : List Item) (start : ℕ) (held : List AValue)
        → length held ≡ values
        → AreFeaturesFrom (V.has_features items visitor.old) body.now start keys.old held at used
        → AreFeaturesFrom (V.has_features items visitor.new) body.now start keys.old held f.0 f.1) }
    ensures within { IfOk result (λ f. (at < f.0) × (f.0 ≤ length body.now)) }
    ensures same { keys.new ≡ keys.old }
{
    let Some((payload, after)) = short_bytes_at(body, at, layer::FEATURES) else {
        return Err(Unsure::Undecided);
    };
    let known = judge_canonical(alloc, visitor, payload, keys, values, used)?;
    visitor.end_feature(alloc, &known.fields)?;
    Ok((after, known.used))
}
