//! Where the features, the keys and the values of a layer stand whose features stand in front of
//! its keys, and these in front of its values (Mapbox Vector Tile Specification 2.1, 4.1).
ghost use Rattle.std.specs.Prelude.{◌≡◌, ◌≤◌, ◌<◌, ◌++◌, length, drop, IfOk, IfSome, IsTrue, IsUtf8};
ghost use Rattle.std.specs.List.{AllByRecursion};
ghost use Rattle.mvt_attrs.specs.Values.{Value as AValue};
ghost use Rattle.mvt_attrs.specs.FirstUse.{AreDistinct};
ghost use Rattle.mvt_attrs.specs.FirstUses.{lent};
ghost use Rattle.mvt_wire.specs.Field.{bytes};
ghost use Rattle.mvt_wire.specs.Spelling.{short_field};
ghost use Rattle.mvt_feature.specs.Copying.{IsCanonicalValue};
ghost use Rattle.mvt_message.specs.declared.numbers.layer.TheConstants.{KEYS, VALUES};
ghost use Rattle.mvt_message.specs.Copying.{ArePayloadsFrom, AreValuesFrom, IsFrameOf, IsFrontOf};
ghost use Rattle.mvt_message.specs.Around.{IsHead};

use crate::around::{Around, around_from, may_be_whole, whole_of};
use crate::looking::{Counts, counts_from, may_begin_in_order};
use crate::numbers::layer;
use mvt_attrs::are_distinct;
use mvt_feature::{Unsure, is_canonical_value};
use mvt_wire::short_bytes_at;
use std::alloc::{AllocError, Global};
use std::str;

/// A layer whose features haven't been looked at: its name and its extent, and where they and the
/// keys and values stand.
#[derive(Drop)]
pub(crate) struct Frame<'a> {
    pub(crate) name: &'a str,
    pub(crate) extent: u32,
    pub(crate) features_at: usize,
    pub(crate) front: Front<'a>,
}

/// The keys and the values of a layer, and where they stand.
#[derive(Drop)]
pub(crate) struct Front<'a> {
    /// Whether no key and no value stands twice, as far as is known.
    pub(crate) is_apart: bool,
    pub(crate) keys_at: usize,
    pub(crate) keys: Vec<&'a str>,
    pub(crate) values_at: usize,
    pub(crate) values: Vec<&'a [u8]>,
    /// The offset after the values.
    pub(crate) end_at: usize,
}

/// Where the features, the keys and the values of a layer stand.
pub(crate) fn bounds_of(frame: &Frame<'_>) -> (usize, usize)
    ensures { result ≡ (frame.now.features_at, frame.now.front.end_at) }
{
    (frame.features_at, frame.front.end_at)
}

/// The offset after the values.
pub(crate) fn end_of(front: &Front<'_>) -> usize
    ensures { result ≡ front.now.end_at }
{
    front.end_at
}

/// What stands in front of the features, keys and values of a layer, and the offset after it.
#[inline(always)]
pub(crate) fn head_of(body: &[u8]) -> Result<(Around<'_>, usize), Unsure>
    ensures head { IfOk result (λ f. IsHead body.now f.0 f.1) }
    ensures within { IfOk result (λ f. f.1 ≤ length body.now) }
{
    let nothing = Around {
        has_version: false,
        name: None,
        extent: None,
    };
    let (head, start) = around_from(body, 0, &nothing);
    if !may_be_whole(body, &head) {
        return Err(Unsure::Undecided);
    }
    Ok((head, start))
}

/// The frame of a layer whose version, name and extent stand in front of the others or behind them,
/// in any order.
#[inline(always)]
pub(crate) fn frame_of<'a>(
    alloc: Global,
    body: &'a [u8],
    features_at: usize,
    head: &Around<'a>,
) -> Result<Frame<'a>, Unsure>
    requires within { features_at ≤ length body.now }
    requires head { IsHead body.now head.now features_at }
    ensures { IfOk result (IsFrameOf body.now) }
{
    if !may_begin_in_order(body, features_at) {
        return Err(Unsure::Undecided);
    }
    let front = front_of(alloc, body, features_at)?;
    let (around, end) = around_from(body, end_of(&front), head);
    if end != body.len() {
        return Err(Unsure::Undecided);
    }
    let Some((name, extent)) = whole_of(&around) else {
        return Err(Unsure::Undecided);
    };
    Ok(Frame {
        name,
        extent,
        features_at,
        front,
    })
}

/// The front of a layer whose features begin at an offset. It costs little where the fields stand
/// in another order.
#[inline(always)]
pub(crate) fn front_of(alloc: Global, body: &[u8], features_at: usize) -> Result<Front<'_>, Unsure>
    requires { features_at ≤ length body.now }
    ensures front { IfOk result (IsFrontOf body.now) }
    ensures behind { IfOk result (λ front. features_at ≤ front.keys_at) }
{
    let keys_at = after_features(body, features_at);
    let Some(counts) = counts_from(alloc, body, keys_at)? else {
        return Err(Unsure::Undecided);
    };
    front_from(alloc, body, keys_at, &counts)
}

/// The front of a layer whose keys begin at an offset. There is room for so many at first.
#[inline(always)]
fn front_from<'a>(
    alloc: Global,
    body: &'a [u8],
    keys_at: usize,
    counts: &Counts,
) -> Result<Front<'a>, Unsure>
    requires { keys_at ≤ length body.now }
    ensures front { IfOk result (IsFrontOf body.now) }
    ensures at { IfOk result (λ front. front.keys_at ≡ keys_at) }
{
    let (keys, values_at) = keys_from(alloc, body, keys_at, counts.keys)?;
    let (values, end_at) = values_from(alloc, body, values_at, counts.values)?;
    Ok(Front {
        is_apart: are_apart(alloc, &keys, &values)?,
        keys_at,
        keys,
        values_at,
        values,
        end_at,
    })
}

/// The offset after the features, whatever they are.
fn after_features(body: &[u8], start: usize) -> usize
    requires { start ≤ length body.now }
    ensures within { result ≤ length body.now }
    ensures behind { start ≤ result }
{
    let mut at = start;
    while let Some((_, after)) = short_bytes_at(body, at, layer::FEATURES) {
        at = after;
    }
    at
}

/// The keys, and the offset after them. There is room for so many at first.
fn keys_from(
    alloc: Global,
    body: &[u8],
    start: usize,
    room: usize,
) -> Result<(Vec<&str>, usize), AllocError>
    requires { start ≤ length body.now }
    ensures fields { IfOk result (λ f. ArePayloadsFrom body.now start KEYS f.0.items f.1) }
    ensures texts { IfOk result (λ f. AllByRecursion IsUtf8 (lent f.0.items)) }
{
    let mut keys = Vec::with_capacity(alloc, room)?;
    let mut at = start;
    while let Some((key, after)) = key_from(body, at) {
        keys.push(key)?;
        at = after;
    }
    Ok((keys, at))
}

fn key_from(body: &[u8], at: usize) -> Option<(&str, usize)>
    requires { at ≤ length body.now }
    ensures field { IfSome result (λ f. drop at body.now
        ≡ short_field KEYS (bytes f.0.now) ++ drop f.1 body.now) }
    ensures text { IfSome result (λ f. IsUtf8 f.0.now) }
    ensures within { IfSome result (λ f. (at < f.1) × (f.1 ≤ length body.now)) }
{
    let (key, after) = short_bytes_at(body, at, layer::KEYS)?;
    match str::from_utf8(key) {
        Ok(text) => Some((text, after)),
        Err(_) => None,
    }
}

/// The payloads of the values, and the offset after them. There is room for so many at first.
fn values_from(
    alloc: Global,
    body: &[u8],
    start: usize,
    room: usize,
) -> Result<(Vec<&[u8]>, usize), AllocError>
    requires { start ≤ length body.now }
    ensures { IfOk result (λ f. AreValuesFrom body.now start f.0.items f.1) }
{
    let mut values = Vec::with_capacity(alloc, room)?;
    let mut at = start;
    while let Some((value, after)) = value_from(body, at) {
        values.push(value)?;
        at = after;
    }
    Ok((values, at))
}

fn value_from(body: &[u8], at: usize) -> Option<(&[u8], usize)>
    requires { at ≤ length body.now }
    ensures field { IfSome result (λ f. drop at body.now
        ≡ short_field VALUES (bytes f.0.now) ++ drop f.1 body.now) }
    ensures value { IfSome result (λ f. (value : AValue) × IsCanonicalValue f.0.now value) }
    ensures within { IfSome result (λ f. (at < f.1) × (f.1 ≤ length body.now)) }
{
    let (value, after) = short_bytes_at(body, at, layer::VALUES)?;
    if !is_canonical_value(value) {
        return None;
    }
    Some((value, after))
}

/// Whether no key and no value stands twice. It may also say no for want of time.
fn are_apart(alloc: Global, keys: &[&str], values: &[&[u8]]) -> Result<bool, AllocError>
    ensures keys { IfOk result (λ apart. IsTrue apart → AreDistinct (lent keys.now)) }
    ensures values { IfOk result (λ apart. IsTrue apart → AreDistinct (lent values.now)) }
{
    if !are_distinct(alloc, keys)? {
        return Ok(false);
    }
    are_distinct(alloc, values)
}
