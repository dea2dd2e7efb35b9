//! Attributes by their tags and back, and the pools.
use crate::expect::{expect, expect_eq};
use mvt_attrs::*;
use mvt_base::Text;
use std::alloc::{AllocError, Global};
use std::process::Abort;

// A text that isn't kept in place, so that it wants memory.
const LONG: &str = "a key that is long";

fn attribute(alloc: Global, key: &str, value: Value) -> Result<Attribute, AllocError> {
    let key = Text::from_str(alloc, key)?;
    Ok(Attribute { key, value })
}

pub(crate) fn text(rt: &(impl Abort + AllocGlobal), text: &str) -> Text {
    Text::from_str(rt.alloc(), text).expect(rt, "a text")
}

// The fault of tags over these keys and the value 5.
fn fault_over(rt: &(impl Abort + AllocGlobal), keys: &[Text], tags: &[u32]) -> Option<TagError> {
    resolve(rt.alloc(), keys, &[Value::Uint(5)], tags).err()
}

// The same where they are only judged.
fn judged_over(rt: &(impl Abort + AllocGlobal), keys: &[Text], tags: &[u32]) -> Option<TagError> {
    let lent = lend_texts(rt.alloc(), keys).expect(rt, "memory");
    let mut layer = LayerKeys::new(rt.alloc(), &lent);
    let judged = judge_tags(rt.alloc(), &mut layer, 1, tags).err();
    drop(layer);
    drop(lent);
    judged
}

pub(crate) fn fault(index: usize, cause: TagCause) -> Option<TagError> {
    Some(TagError::Fault { index, cause })
}

// Tags over the keys `k` and `m` have this fault; where they are only judged, it is the same.
fn expect_fault(rt: &(impl Abort + AllocGlobal), tags: &[u32], expected: Option<TagError>) {
    let keys = [text(rt, "k"), text(rt, "m")];
    expect_eq!(rt; &fault_over(rt, &keys, tags), &expected);
    expect_eq!(rt; &judged_over(rt, &keys, tags), &expected);
    drop(keys);
}

#[test]
fn resolves_tags(rt: HostRuntime) {
    expect_fault(&rt, &[0, 0, 0], fault(3, TagCause::OddTags));
    expect_fault(&rt, &[2, 0], fault(0, TagCause::KeyIndex));
    expect_fault(&rt, &[0, 1], fault(1, TagCause::ValueIndex));
    expect_fault(&rt, &[0, 0, 1, 0, 0, 0], fault(4, TagCause::RepeatedKey));
    expect_fault(&rt, &[0, 0, 1, 0], None);
}

// The attributes of tags over these keys and the value 5.
fn expect_attributes(
    rt: &(impl Abort + AllocGlobal),
    keys: &[Text],
    tags: &[u32],
    expected: &[Attribute],
) {
    let found = resolve(rt.alloc(), keys, &[Value::Uint(5)], tags).expect(rt, "attributes");
    expect!(rt; found.as_slice() == expected);
    drop(found);
}

#[test]
fn resolves_repeated_keys(rt: HostRuntime) {
    let repeated = [text(&rt, "k"), text(&rt, "k")];
    let found = fault_over(&rt, &repeated, &[0, 0, 1, 0]);
    expect_eq!(rt; found, fault(2, TagCause::RepeatedKey));
    let expected = [attribute(rt.alloc(), "k", Value::Uint(5)).expect(&rt, "an attribute")];
    expect_attributes(&rt, &repeated, &[1, 0], &expected);
    drop(expected);
    drop(repeated);
    let none = resolve(rt.alloc(), &[], &[], &[]).expect(&rt, "attributes");
    expect!(rt; none.is_empty());
    drop(none);
}

// So many keys, each another, and tags with each of them.
pub(crate) fn numbered_keys(alloc: Global, count: u32) -> Result<Vec<Text>, AllocError> {
    let mut keys = Vec::new(alloc);
    for number in 0..count {
        keys.push(Text::from_string(format!(in alloc; "{number}")?)?)?;
    }
    Ok(keys)
}

fn numbered_tags(alloc: Global, count: u32) -> Result<Vec<u32>, AllocError> {
    let mut tags = Vec::new(alloc);
    for index in 0..count {
        tags.extend_from_slice(&[index, 0])?;
    }
    Ok(tags)
}

// So many attributes come of tags, which have no fault.
fn expect_count(rt: &(impl Abort + AllocGlobal), keys: &[Text], tags: &[u32], count: usize) {
    let found = resolve(rt.alloc(), keys, &[Value::Bool(true)], tags).expect(rt, "attributes");
    expect_eq!(rt; found.len(), count);
    drop(found);
    expect_eq!(rt; judged_over(rt, keys, tags), None);
}

// None, one and two, around the number up to which keys are compared one by one, and many.
#[test]
fn resolves_any_number_of_tags(rt: HostRuntime) {
    for count in [0, 1, 2, 8, 9, 15, 16, 17, 33, 49, 100, 1000] {
        let keys = numbered_keys(rt.alloc(), count).expect(&rt, "keys");
        let tags = numbered_tags(rt.alloc(), count).expect(&rt, "tags");
        expect_count(&rt, &keys, &tags, count as usize);
        drop(tags);
        drop(keys);
    }
}

// Features of one layer, one after the other.
fn expect_features(rt: &(impl Abort + AllocGlobal), keys: &[Text], tags: &[u32]) {
    let values = [Value::Bool(true)];
    let lent = lend_texts(rt.alloc(), keys).expect(rt, "memory");
    let mut layer = LayerKeys::new(rt.alloc(), &lent);
    for _feature in 0..3 {
        expect!(rt; resolve_in(rt.alloc(), &mut layer, &values, tags).is_ok());
        let twice = resolve_in(rt.alloc(), &mut layer, &values, &[19, 0, 0, 0]).err();
        expect_eq!(rt; twice, fault(2, TagCause::RepeatedKey));
    }
    drop(layer);
    drop(lent);
}

// Twenty keys, the last of which is the first again.
#[test]
fn resolves_many_tags(rt: HostRuntime) {
    let mut keys = numbered_keys(rt.alloc(), 19).expect(&rt, "keys");
    keys.push(text(&rt, "0")).expect(&rt, "keys");
    let mut tags = numbered_tags(rt.alloc(), 20).expect(&rt, "tags");
    let error = resolve(rt.alloc(), &keys, &[Value::Bool(true)], &tags).err();
    expect_eq!(rt; error, fault(38, TagCause::RepeatedKey));
    tags.truncate(38);
    expect_count(&rt, &keys, &tags, 19);
    expect_features(&rt, &keys, &tags);
    drop(tags);
    drop(keys);
}

#[test]
fn places_keys(rt: HostRuntime) {
    let mut keys = KeyPool::new(rt.alloc());
    expect!(rt; keys.is_empty());
    for (key, place) in [("k", 0), ("m", 1), ("k", 0)] {
        expect_eq!(rt; keys.place(&TextRef::of(key)), Ok(place));
    }
    expect_eq!(rt; keys.len(), 2);
    expect_eq!(rt; keys.get(1), Some("m"));
    drop(keys);
}

#[test]
fn places_values(rt: HostRuntime) {
    let mut values = ValuePool::new(rt.alloc());
    let int = ValueRef::Int(5);
    let numbers = [int, ValueRef::Uint(5), ValueRef::Sint(5), ValueRef::Int(5)];
    for (index, number) in numbers.iter().enumerate() {
        expect_eq!(rt; values.place(number), Ok(index as u32 % 3));
    }
    drop(numbers);
    expect_eq!(rt; values.len(), 3);
    expect!(rt; values.get(2) == Some(&ValueRef::Sint(5)));
    expect!(rt; values.get(3).is_none());
    drop(values);
}

fn expect_copy(rt: &(impl Abort + AllocGlobal), value: &Value) {
    let copy = value.copy(rt.alloc()).expect(rt, "a copy");
    expect!(rt; copy == *value);
    drop(copy);
    let lent = value.lent();
    expect!(rt; lent.again() == lent);
    let kept = lent.kept(rt.alloc()).expect(rt, "a copy");
    drop(lent);
    expect!(rt; kept == *value);
    drop(kept);
}

#[test]
fn copies_values(rt: HostRuntime) {
    for short_or_long in ["k", LONG] {
        let value = Value::Text(text(&rt, short_or_long));
        expect_copy(&rt, &value);
        drop(value);
    }
}

fn expect_shown(rt: &(impl Abort + AllocGlobal), text: &str, expected: &str) {
    let text = Text::from_str(rt.alloc(), text).expect(rt, "a text");
    let shown = format!(in rt.alloc(); "{text:?}").expect(rt, "what is shown");
    drop(text);
    expect_eq!(rt; shown.as_str(), expected);
    drop(shown);
}

// A text is shown as a `str` is, wherever its bytes lie.
#[test]
fn shows_texts(rt: HostRuntime) {
    expect_shown(&rt, "", "\"\"");
    expect_shown(&rt, "a \"b\"", "\"a \\\"b\\\"\"");
    expect_shown(&rt, LONG, "\"a key that is long\"");
}

// Of an attribute, and of none, over pools that may have its key and value.
fn expect_tags<'a>(
    rt: &(impl Abort + AllocGlobal),
    attributes: &'a [Attribute],
    keys: &mut KeyPool<'a>,
    values: &mut ValuePool<'a>,
    expected: &[u32],
) {
    let tags = tags_of(rt.alloc(), attributes, keys, values).expect(rt, "tags");
    expect_eq!(rt; tags.as_slice(), expected);
    drop(tags);
}

#[test]
fn places_attributes(rt: HostRuntime) {
    let attributes = [
        attribute(rt.alloc(), "k", Value::Uint(5)).expect(&rt, "an attribute"),
        attribute(rt.alloc(), "k", Value::Int(5)).expect(&rt, "an attribute"),
    ];
    let mut keys = KeyPool::new(rt.alloc());
    let mut values = ValuePool::new(rt.alloc());
    for (index, one) in attributes.chunks(1).enumerate() {
        expect_tags(&rt, one, &mut keys, &mut values, &[0, index as u32]);
    }
    expect_tags(&rt, &[], &mut keys, &mut values, &[]);
    expect_eq!(rt; keys.len() + values.len(), 3);
    drop(values);
    drop(keys);
    drop(attributes);
}

fn digits(rt: &(impl Abort + AllocGlobal), number: u32) -> Text {
    let digits = format!(in rt.alloc(); "{number}").expect(rt, "digits");
    Text::from_string(digits).expect(rt, "a key")
}

#[test]
fn places_many_texts(rt: HostRuntime) {
    let mut texts = Vec::new(rt.alloc());
    for number in 0..10_000u32 {
        texts.push(digits(&rt, number)).expect(&rt, "texts");
    }
    let mut keys = KeyPool::new(rt.alloc());
    for _turn in 0..2 {
        for (place, key) in (0..10_000u32).zip(texts.iter()) {
            expect_eq!(rt; keys.place(&TextRef::of(key.as_str())), Ok(place));
        }
    }
    expect_eq!(rt; keys.len(), 10_000);
    drop(keys);
    drop(texts);
}

// The tests of refused growths pass too where one allocation, whichever, is refused: each call has
// two turns, of which one at most may want memory.

// How often a key was refused, which is then at this place.
pub(crate) fn key_refusals<'a>(
    rt: &impl Abort,
    keys: &mut KeyPool<'a>,
    key: &TextRef<'a>,
    place: u32,
) -> u8 {
    for refused in 0..2u8 {
        if keys.place(key) == Ok(place) {
            return refused;
        }
        expect_eq!(rt; keys.len(), place as usize);
    }
    2
}

fn refusals_of_keys(rt: &(impl Abort + AllocGlobal), first: &Text, second: &Text) -> u8 {
    let mut keys = KeyPool::new(rt.alloc());
    let first = TextRef::of(first.as_str());
    let refused_first = key_refusals(rt, &mut keys, &first, 0);
    let refused_second = key_refusals(rt, &mut keys, &TextRef::of(second.as_str()), 1);
    // A key that is there takes no memory.
    expect_eq!(rt; keys.place(&first), Ok(0));
    expect_eq!(rt; keys.get(1), Some("m"));
    drop(keys);
    refused_first.saturating_add(refused_second)
}

#[test]
fn refused_keys(rt: HostRuntime) {
    let mut refused = 0u8;
    for _turn in 0..2 {
        let first = Text::from_str(rt.alloc(), LONG);
        let second = Text::from_str(rt.alloc(), "m");
        refused = refused.saturating_add(match (&first, &second) {
            (Ok(first), Ok(second)) => refusals_of_keys(&rt, first, second),
            _ => 1,
        });
        drop(second);
        drop(first);
    }
    expect!(rt; refused < 2);
}

// How often a value was refused, which is then at this place.
pub(crate) fn value_refusals<'a>(
    rt: &impl Abort,
    values: &mut ValuePool<'a>,
    value: &ValueRef<'a>,
    place: u32,
) -> u8 {
    for refused in 0..2u8 {
        if values.place(value) == Ok(place) {
            return refused;
        }
        expect_eq!(rt; values.len(), place as usize);
    }
    2
}

fn refusals_of_values(rt: &(impl Abort + AllocGlobal), first: &Value, second: &Value) -> u8 {
    let mut values = ValuePool::new(rt.alloc());
    let (first, second) = (first.lent(), second.lent());
    let refused_first = value_refusals(rt, &mut values, &first, 0);
    let refused_second = value_refusals(rt, &mut values, &second, 1);
    // A value that is there takes no memory.
    expect_eq!(rt; values.place(&first), Ok(0));
    expect!(rt; values.get(1) == Some(&second));
    drop(values);
    refused_first.saturating_add(refused_second)
}

fn refused_text(rt: &(impl Abort + AllocGlobal)) -> u8 {
    match Text::from_str(rt.alloc(), LONG) {
        Ok(text) => {
            let value = Value::Text(text);
            let refused = refusals_of_values(rt, &Value::Int(5), &value);
            drop(value);
            refused
        }
        Err(AllocError) => 1,
    }
}

#[test]
fn refused_values(rt: HostRuntime) {
    let first = refused_text(&rt);
    let second = refused_text(&rt);
    expect!(rt; first.saturating_add(second) < 2);
}

// What pools have that were refused to grow.
fn expect_no_more(rt: &impl Abort, keys: &KeyPool<'_>, values: &ValuePool<'_>) {
    expect!(rt; keys.is_empty() || keys.get(0) == Some(LONG));
    expect!(rt; values.is_empty() || values.get(0) == Some(&ValueRef::Uint(5)));
}

fn is_refused_into<'a>(
    rt: &(impl Abort + AllocGlobal),
    used: &'a [Attribute],
    keys: &mut KeyPool<'a>,
    values: &mut ValuePool<'a>,
) -> bool {
    match tags_of(rt.alloc(), used, keys, values) {
        Ok(tags) => {
            expect_eq!(rt; tags.as_slice(), [0, 0].as_slice());
            drop(tags);
            false
        }
        Err(error) => {
            expect_eq!(rt; error, PoolError::Memory);
            expect_no_more(rt, keys, values);
            true
        }
    }
}

fn are_tags_refused(rt: &(impl Abort + AllocGlobal)) -> bool {
    let Ok(used) = attribute(rt.alloc(), LONG, Value::Uint(5)) else {
        return true;
    };
    let used = [used];
    let mut keys = KeyPool::new(rt.alloc());
    let mut values = ValuePool::new(rt.alloc());
    let is_refused = is_refused_into(rt, &used, &mut keys, &mut values);
    drop(values);
    drop(keys);
    drop(used);
    is_refused
}

#[test]
fn refused_tags(rt: HostRuntime) {
    let first = are_tags_refused(&rt);
    let second = are_tags_refused(&rt);
    expect!(rt; !(first && second));
}

// Where tags have no fault, their attributes are all of this key and the value 5.
fn expect_all(rt: &impl Abort, found: &[Attribute], key: Option<&Text>) {
    for attribute in found {
        expect!(rt; Some(&attribute.key) == key && attribute.value == Value::Uint(5));
    }
}

// Whether tags over keys and the value 5 are refused memory; if not, they have this fault.
fn is_refused_over(
    rt: &(impl Abort + AllocGlobal),
    keys: &[Text],
    tags: &[u32],
    answer: &Option<TagError>,
) -> bool {
    match resolve(rt.alloc(), keys, &[Value::Uint(5)], tags) {
        Ok(found) => {
            expect!(rt; answer.is_none() && found.len() == tags.len() / 2);
            expect_all(rt, &found, keys.first());
            drop(found);
            false
        }
        Err(TagError::Memory) => true,
        Err(error) => {
            expect_eq!(rt; &Some(error), answer);
            false
        }
    }
}

fn is_refused(rt: &(impl Abort + AllocGlobal), tags: &[u32], answer: &Option<TagError>) -> bool {
    let Ok(key) = Text::from_str(rt.alloc(), LONG) else {
        return true;
    };
    let keys = [key];
    let is_refused = is_refused_over(rt, &keys, tags, answer);
    drop(keys);
    is_refused
}

#[test]
fn refused_attributes(rt: HostRuntime) {
    let rows: [(&[u32], Option<TagError>); 5] = [
        (&[0, 0, 0], fault(3, TagCause::OddTags)),
        (&[1, 0], fault(0, TagCause::KeyIndex)),
        (&[0, 1], fault(1, TagCause::ValueIndex)),
        (&[0, 0], None),
        (&[], None),
    ];
    let mut refused = 0u8;
    for (tags, answer) in &rows {
        for _turn in 0..2 {
            refused = refused.saturating_add(u8::from(is_refused(&rt, tags, answer)));
        }
    }
    expect!(rt; refused < 2);
}

fn is_repeated_key_refused(rt: &(impl Abort + AllocGlobal)) -> bool {
    let first = Text::from_str(rt.alloc(), LONG);
    let (Ok(first), Ok(second)) = (first, Text::from_str(rt.alloc(), LONG)) else {
        return true;
    };
    let keys = [first, second];
    let repeated = fault(2, TagCause::RepeatedKey);
    let is_refused = is_refused_over(rt, &keys, &[0, 0, 1, 0], &repeated);
    drop(keys);
    is_refused
}

#[test]
fn refused_repeated_keys(rt: HostRuntime) {
    let first = is_repeated_key_refused(&rt);
    let second = is_repeated_key_refused(&rt);
    expect!(rt; !(first && second));
}

fn is_copy_refused(rt: &(impl Abort + AllocGlobal), value: &Value) -> bool {
    match value.copy(rt.alloc()) {
        Ok(copy) => {
            expect!(rt; copy == *value);
            drop(copy);
            false
        }
        Err(AllocError) => true,
    }
}

fn is_text_refused(rt: &(impl Abort + AllocGlobal), text: &str) -> bool {
    let Ok(text) = Text::from_str(rt.alloc(), text) else {
        return true;
    };
    let value = Value::Text(text);
    let is_refused = is_copy_refused(rt, &value);
    drop(value);
    is_refused
}

#[test]
fn refused_copies(rt: HostRuntime) {
    let mut refused = 0u8;
    for text in ["k", LONG] {
        for _turn in 0..2 {
            refused = refused.saturating_add(u8::from(is_text_refused(&rt, text)));
        }
    }
    expect!(rt; refused < 2);
}
