//! What a person wants to see round a fault.
ghost use Rattle.std.specs.Prelude.{◌≡◌, ◌-◌, ◌^◌, [], IfOk, IfSome};
ghost use Rattle.std.specs.Option.{option_and_then, option_map, option_map_or};
ghost use Rattle.mvt_places.specs.Around as spec;
ghost use Rattle.mvt_places.specs.Around.{IsAround, message_in};
ghost use Rattle.mvt_places.specs.Messages.{Ends, message_of};
ghost use Rattle.mvt_places.specs.Places.{AreWithin, holders_of, messages_of, target_of as the_target};

use crate::field_rows::{Bounds, FieldRow, field_rows, keys_of};
use crate::integers::{Integer, integers_of};
use crate::locating::Holders;
use crate::message::{Form, Message, last_field};
use crate::pen::{Step, steps};
use crate::target::{Target, target_of};
use mvt_base::LIMIT;
use mvt_tile::Fault;
use mvt_tile_value::numbers::{feature, layer};
use mvt_wire::Payload;
use std::alloc::{AllocError, Global};

/// What there is round a fault of refused bytes. What can't be read isn't there.
#[derive(Debug, Drop)]
pub struct Around {
    /// The bytes of the fault's layer (4.1).
    pub layer: Option<Bounds>,
    /// Its extent, as the last field says that can be read.
    pub extent: Option<u64>,
    /// The keys of the layer, in order.
    pub keys: Vec<Bounds>,
    /// The bytes of the fault's feature (4.2).
    pub feature: Option<Bounds>,
    /// Its type, as the last field says that can be read.
    pub kind: Option<u64>,
    /// The integers of its tags.
    pub tags: Vec<Integer>,
    /// The integers of its geometry (4.3), and what each of them is.
    pub geometry: Vec<Integer>,
    pub steps: Vec<Step>,
    /// The number of the feature's field whose integers the fault's `at` counts: 2 for tags, 4 for
    /// the geometry; none if it is an offset.
    pub list: Option<u32>,
    /// The bytes of the innermost message in which the fault is.
    pub message: Bounds,
    /// The fields of this message, up to the first bytes that are none.
    pub fields: Vec<FieldRow>,
}

/// What there is round a fault of any bytes. It has a row for each field and each integer, so its
/// size grows with that of the layer, or of the bytes if the fault lies in no layer.
///
/// # Errors
///
/// A growth was refused memory.
pub fn look_around(alloc: Global, bytes: &[u8], fault: &Fault) -> Result<Around, AllocError>
    ensures { IfOk result (IsAround LIMIT bytes.now fault.now) }
{
    around_within(alloc, LIMIT as usize, bytes, fault)
}

/// The same for any limit.
fn around_within(
    alloc: Global,
    limit: usize,
    bytes: &[u8],
    fault: &Fault,
) -> Result<Around, AllocError>
    ensures { IfOk result (IsAround limit bytes.now fault.now) }
{
    let holders = Holders::of(limit, bytes, fault);
    let target = target_of(fault.cause);
    let message = message_in(&holders, target, fault.at);
    let keys = layer_keys(alloc, &holders.layer)?;
    let tags = feature_integers(alloc, &holders.feature, feature::TAGS)?;
    let geometry = feature_integers(alloc, &holders.feature, feature::GEOMETRY)?;
    let steps = steps(alloc, geometry.as_slice())?;
    let fields = field_rows(alloc, &message)?;
    Ok(Around {
        layer: bounds_of(&holders.layer),
        extent: number_of(&holders.layer, layer::EXTENT),
        keys,
        feature: bounds_of(&holders.feature),
        kind: number_of(&holders.feature, feature::TYPE),
        tags,
        geometry,
        steps,
        list: list_of(target),
        message: Bounds::of(&message),
        fields,
    })
}

/// The message in which a fault is; the input if the layer or the feature isn't there.
fn message_in<'a>(holders: &Holders<'a>, target: Target, place: u64) -> Message<'a>
    requires { AreWithin (holders_of holders.now) }
    ensures is { message_of result ≡ message_in target place (holders_of holders.now) }
    ensures ends { Ends holders.now.end (message_of result) }
{
    match target {
        Target::Field => {
            let most = holders.input.payload.len() as u64;
            holders.holder(place.min(most))
        }
        Target::Name => holders.layer.unwrap_or(holders.input),
        Target::Rest => holders.input,
        Target::Tag | Target::Tags | Target::Integer | Target::Integers => {
            holders.feature.unwrap_or(holders.input)
        }
    }
}

/// The field whose integers a place counts.
fn list_of(target: Target) -> Option<u32>
    ensures { result ≡ spec.list_of target }
{
    match target {
        Target::Tag | Target::Tags => Some(feature::TAGS),
        Target::Integer | Target::Integers => Some(feature::GEOMETRY),
        Target::Field | Target::Name | Target::Rest => None,
    }
}

fn bounds_of(message: &Option<Message<'_>>) -> Option<Bounds>
    ensures { result ≡ option_map spec.bounds_of (messages_of message.now) }
{
    match message {
        Some(message) => Some(Bounds::of(message)),
        None => None,
    }
}

/// The number of a message that counts.
fn number_of(message: &Option<Message<'_>>, number: u32) -> Option<u64>
    ensures { result ≡ option_and_then (spec.number_of number) (messages_of message.now) }
{
    let Some(message) = message else { return None };
    let field = last_field(message.payload, number, Form::Varint)?;
    match field.payload {
        Payload::Varint(value) => Some(value),
        Payload::Len(_) | Payload::I64(_) | Payload::I32(_) => None,
    }
}

fn layer_keys(alloc: Global, layer: &Option<Message<'_>>) -> Result<Vec<Bounds>, AllocError>
    requires { IfSome (messages_of layer.now) (Ends (2 ^ 64 - 1)) }
    ensures { IfOk result (λ keys. keys.items
        ≡ option_map_or spec.keys_of (messages_of layer.now) []) }
{
    match layer {
        Some(layer) => keys_of(alloc, layer),
        None => Ok(Vec::new(alloc)),
    }
}

fn feature_integers(
    alloc: Global,
    feature: &Option<Message<'_>>,
    number: u32,
) -> Result<Vec<Integer>, AllocError>
    requires { IfSome (messages_of feature.now) (Ends (2 ^ 64 - 1)) }
    ensures { IfOk result (λ integers. integers.items
        ≡ option_map_or (spec.integers_of number) (messages_of feature.now) []) }
{
    match feature {
        Some(feature) => integers_of(alloc, feature, number),
        None => Ok(Vec::new(alloc)),
    }
}
