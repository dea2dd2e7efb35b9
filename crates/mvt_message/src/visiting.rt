//! The one walk over an item (Mapbox Vector Tile Specification 2.1, 4.1): a visitor receives the
//! values, the keys and the features of a layer.
ghost use Rattle.std.specs.Prelude.{◌≡◌, ◌+◌, ◌^◌, ◌<◌, ◌≤◌, ℕ, List, [], ◌∷◌, ◌++◌, length, Some, None, IfOk, IfErr, OnOk};
ghost use Rattle.mvt_base.specs.Reports.{Reports};
ghost use Rattle.mvt_attrs.specs.Values.{Value};
ghost use Rattle.mvt_attrs.specs.FirstUses.{lent};
ghost use Rattle.mvt_wire.specs.Split.{split};
ghost use Rattle.mvt_feature.specs.declared.feature.Feature.{Feature as AFeature};
ghost use Rattle.mvt_feature.specs.Faults.{fault_of};
ghost use Rattle.mvt_feature.specs.FeatureRules.{feature_fault};
ghost use Rattle.mvt_feature.specs.Features.{IsFeatureOf};
ghost use Rattle.mvt_feature.specs.ValueRules.{value_fault};
ghost use Rattle.mvt_feature.specs.Values.{IsValueOf};
ghost use Rattle.mvt_message.specs.declared.item.Item.{Item};
ghost use Rattle.mvt_message.specs.declared.item.Item.TheVariants.{Foreign};
ghost use Rattle.mvt_message.specs.declared.item.Layer.{Layer as ALayer};
ghost use Rattle.mvt_message.specs.Items.{IsItem, IsLayer};
ghost use Rattle.mvt_message.specs.ItemRules.{item_fault};
ghost use Rattle.mvt_message.specs.ValidItems.{ValidItem};
ghost use Rattle.mvt_message.specs.Inner.{layer_fault, IsLayerFields, IsBroken};
ghost use Rattle.mvt_message.specs.Visiting.{HasLayer, IsVisited};

use crate::features::visit_features;
use crate::layer_fields::{LayerFault, LayerFields, header_fault_before, read_layer_fields};
use crate::numbers::VERSION_2;
use crate::version::{early_version, read_version};
use mvt_attrs::LayerKeys;
use mvt_base::LIMIT;
use mvt_feature::{Cause, MessageError, Scratch, fault_at};
use std::alloc::{AllocError, Global};

/// An object that receives values, keys and features as a layer is read, where payloads and keys
/// lie in its bytes: first all values, then all
/// keys, then the features, each in the layer's order. It judges a value or a feature as it takes
/// it.
pub trait LayerVisitor<'a>: Drop {
    // What it was given beside the layer.
    ghost Given: { Type 0 };

    // What it has of that, whatever it took of this layer's values.
    ghost has_given: { Given → Self → Type 0 };

    // And of this layer's values so far.
    ghost has_values: { Given → Self → List Value → Type 0 };

    // And of the features so far and their payloads, in a layer with these keys and values.
    ghost has_features: { Given → List (List ℕ) → List Value → Self → List (List ℕ)
        → List AFeature → Type 0 };

    /// Takes the value of a payload. The payload's first byte and the tag of its field stand at
    /// these places.
    ///
    /// # Errors
    ///
    /// As [`read_value`](crate::read_value).
    fn visit_value(
        &mut self,
        alloc: Global,
        payload: &'a [u8],
        payload_at: u64,
        tag_at: u64,
    ) -> Result<(), MessageError>
        requires { payload_at + length payload.now < 2 ^ 64 }
        ensures ok { OnOk result (value_fault payload.now payload_at tag_at ≡ None) }
        ensures value { (given : Given) (values : List Value) → has_values given self.old values
            → OnOk result
            ((value : Value) × IsValueOf payload.now value
            × has_values given self.new (values ++ value ∷ [])) }
        // Also after an error: then it may have more of this layer's values.
        ensures kept { (given : Given) (values : List Value) → has_values given self.old values
            → has_given given self.new }
        ensures err { IfErr result (λ error. Reports (fault_of error)
            (value_fault payload.now payload_at tag_at)) };

    /// Takes the keys, when it has all values. The number of features is only a hint.
    ///
    /// # Errors
    ///
    /// When memory runs out.
    fn visit_keys(
        &mut self,
        alloc: Global,
        keys: &[&'a str],
        features: usize,
    ) -> Result<(), AllocError>
        ensures { (given : Given) (values : List Value) → has_values given self.old values
            → OnOk result (has_features given (lent keys.now) values self.new [] []) };

    /// Takes the feature of a payload, in a layer with these keys and this number of values.
    ///
    /// # Errors
    ///
    /// As [`read_feature`](crate::read_feature).
    fn visit_feature(
        &mut self,
        alloc: Global,
        payload: &[u8],
        payload_at: u64,
        keys: &mut LayerKeys<'_>,
        values: usize,
        scratch: &mut Scratch,
    ) -> Result<(), MessageError>
        requires { payload_at + length payload.now < 2 ^ 64 }
        ensures ok { (given : Given) (held : List Value) (payloads : List (List ℕ))
            (features : List AFeature)
            → length held ≡ values
            → has_features given keys.old held self.old payloads features
            → OnOk result (feature_fault payload.now payload_at keys.old held ≡ None) }
        ensures feature { (given : Given) (held : List Value) (payloads : List (List ℕ))
            (features : List AFeature)
            → length held ≡ values
            → has_features given keys.old held self.old payloads features
            → OnOk result ((feature : AFeature)
            × IsFeatureOf payload.now keys.old held feature
            × has_features given keys.old held self.new
            (payloads ++ payload.now ∷ []) (features ++ feature ∷ [])) }
        ensures err { (given : Given) (held : List Value) (payloads : List (List ℕ))
            (features : List AFeature)
            → length held ≡ values
            → has_features given keys.old held self.old payloads features → IfErr result
            (λ error. Reports (fault_of error)
            (feature_fault payload.now payload_at keys.old held)) }
        ensures same { keys.new ≡ keys.old };
}

/// What a visitor doesn't receive of an item.
#[derive(Clone, Copy, Debug)]
pub enum Visited<'a> {
    Layer { name: &'a str, extent: u32 },
    /// A layer of another version, of whose parts the visitor knows nothing.
    Foreign { version: u32 },
}

/// Goes over the item of a payload whose first byte stands at `payload_at`, and the tag of its
/// field at `tag_at`.
///
/// # Errors
///
/// As [`read_item`](crate::read_item).
pub fn visit_layer<'a, V: LayerVisitor<'a>>(
    alloc: Global,
    visitor: &mut V,
    payload: &'a [u8],
    payload_at: u64,
    tag_at: u64,
) -> Result<Visited<'a>, MessageError>
    requires small { length payload.now ≤ LIMIT }
    requires fits { payload_at + length payload.now < 2 ^ 64 }
    requires start { (given : V.Given) × V.has_values given visitor.old [] }
    ensures ok { OnOk result (item_fault payload.now payload_at tag_at ≡ None) }
    ensures item { (given : V.Given) → V.has_values given visitor.old []
        → V.has_given given visitor.old
        → IfOk result (λ visited. (item : Item) × IsItem payload.now item × ValidItem item
        × IsVisited (V.has_given given) (V.has_features given) payload.now visitor.new visited
        item) }
    ensures fault { IfErr result (λ error. Reports (fault_of error)
        (item_fault payload.now payload_at tag_at)) }
{
    let front = match read_layer_fields(alloc, visitor, payload, payload_at) {
        Ok(front) => front,
        Err(fault) => {
            let version = foreign_version(alloc, payload, payload_at, tag_at, fault)?;
            return Ok(Visited::Foreign { version });
        }
    };
    let version = match front.header.version {
        Some(version) => version,
        None => return Err(fault_at(tag_at, Cause::NoVersion)),
    };
    if version == VERSION_2 {
        return visit_parts(alloc, visitor, payload, payload_at, tag_at, front);
    }
    Ok(Visited::Foreign { version })
}

/// The same for a visitor that has no use for the values of a layer of another version: it receives
/// none of these if the ends of the payload show the version.
///
/// # Errors
///
/// As [`read_item`](crate::read_item).
pub fn visit_version_2<'a, V: LayerVisitor<'a>>(
    alloc: Global,
    visitor: &mut V,
    payload: &'a [u8],
    payload_at: u64,
    tag_at: u64,
) -> Result<Visited<'a>, MessageError>
    requires small { length payload.now ≤ LIMIT }
    requires fits { payload_at + length payload.now < 2 ^ 64 }
    requires start { (given : V.Given) × V.has_values given visitor.old [] }
    ensures ok { OnOk result (item_fault payload.now payload_at tag_at ≡ None) }
    ensures item { (given : V.Given) → V.has_values given visitor.old []
        → V.has_given given visitor.old
        → IfOk result (λ visited. (item : Item) × IsItem payload.now item × ValidItem item
        × IsVisited (V.has_given given) (V.has_features given) payload.now visitor.new visited
        item) }
    ensures fault { IfErr result (λ error. Reports (fault_of error)
        (item_fault payload.now payload_at tag_at)) }
{
    if let Some(version) = early_version(payload, payload_at, tag_at) {
        return Ok(Visited::Foreign { version });
    }
    visit_layer(alloc, visitor, payload, payload_at, tag_at)
}

/// The version of a foreign item, of whose fields a walk met this fault.
///
/// # Errors
///
/// The first broken rule of an item that isn't foreign.
fn foreign_version(
    alloc: Global,
    payload: &[u8],
    payload_at: u64,
    tag_at: u64,
    fault: LayerFault,
) -> Result<u32, MessageError>
    requires small { length payload.now < 2 ^ 32 }
    requires fits { payload_at + length payload.now < 2 ^ 64 }
    requires broken { (split payload.now).rest ≡ []
        → IsBroken payload_at (split payload.now).fields fault }
    ensures ok { OnOk result (item_fault payload.now payload_at tag_at ≡ None) }
    ensures foreign { IfOk result (λ version. IsItem payload.now (Foreign version payload.now)) }
    ensures fault { IfErr result (λ error. Reports (fault_of error)
        (item_fault payload.now payload_at tag_at)) }
{
    let version = read_version(payload, payload_at, tag_at)?;
    if version != VERSION_2 {
        return Ok(version);
    }
    match fault {
        LayerFault::Field(error) => Err(error),
        LayerFault::Value(error) => Err(header_fault_before(
            alloc, payload, payload_at, tag_at, error,
        )),
    }
}

/// Goes over the keys and the features of a layer that splits into fields and has version 2, whose
/// front was read.
fn visit_parts<'a, V: LayerVisitor<'a>>(
    alloc: Global,
    visitor: &mut V,
    payload: &'a [u8],
    payload_at: u64,
    tag_at: u64,
    front: LayerFields<'a>,
) -> Result<Visited<'a>, MessageError>
    requires small { length payload.now ≤ LIMIT }
    requires fits { payload_at + length payload.now < 2 ^ 64 }
    requires whole { (split payload.now).rest ≡ [] }
    requires front { (given : V.Given)
        × IsLayerFields (V.has_values given visitor.old) payload_at (split payload.now).fields
        front }
    ensures ok { OnOk result (layer_fault payload_at tag_at (split payload.now).fields ≡ None) }
    ensures layer { (given : V.Given)
        → IsLayerFields (V.has_values given visitor.old) payload_at (split payload.now).fields
        front.entry → IfOk result (λ visited. (layer : ALayer)
        × IsLayer (split payload.now).fields layer
        × HasLayer (V.has_features given) (split payload.now).fields visitor.new visited layer) }
    ensures fault { IfErr result (λ error. Reports (fault_of error)
        (layer_fault payload_at tag_at (split payload.now).fields)) }
{
    let LayerFields { header, values } = front;
    let name = match header.name {
        Some(name) => name,
        None => return Err(fault_at(tag_at, Cause::NoName)),
    };
    visitor.visit_keys(alloc, &header.keys, header.features)?;
    let keys = &header.keys;
    let features = header.features;
    visit_features(alloc, visitor, payload, payload_at, keys, values, features)?;
    Ok(Visited::Layer {
        name,
        extent: header.extent,
    })
}
