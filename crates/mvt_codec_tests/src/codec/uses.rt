//! The uses of entries that are added at once, beside those of the same entries added one by one.
use crate::expect::expect_eq;
use mvt_attrs::*;
use mvt_base::Text;
use std::alloc::{AllocError, Global};

// How entries are added.
#[derive(Clone, Copy, Drop)]
enum Way {
    OneByOne,
    All,
    Taken,
}

// A short text, a long one, or one of those that the kit's FoldHasher doesn't tell apart: see
// bench/one_hash.hpp.
fn key_of(alloc: Global, number: u32) -> Result<Text, AllocError> {
    let number = u64::from(number) + 10_000_000;
    let text = match number % 3 {
        0 => format!(in alloc; "{number}")?,
        1 => format!(in alloc; "aaaaaaaa10000297\x13-.\x0ebG\x02b{number}0123456789abcdef")?,
        _ => format!(in alloc; "a key of more than fourteen bytes {number}")?,
    };
    Text::from_string(text)
}

fn value_of(alloc: Global, number: u32) -> Result<Value, AllocError> {
    match number % 4 {
        0 => Ok(Value::Uint(u64::from(number / 4))),
        1 => Ok(Value::Sint(i64::from(number / 4))),
        2 => Ok(Value::Double(u64::from(number / 4))),
        _ => Ok(Value::Text(key_of(alloc, number)?)),
    }
}

// So many keys, of which so many are different.
fn keys(alloc: Global, size: u16, different: u16) -> Result<Vec<Text>, AllocError> {
    let mut keys = Vec::new(alloc);
    for index in 0..size {
        keys.push(key_of(alloc, u32::from(index % different.max(1)))?)?;
    }
    Ok(keys)
}

// The same of values.
fn values(alloc: Global, size: u16, different: u16) -> Result<Vec<Value>, AllocError> {
    let mut values = Vec::new(alloc);
    for index in 0..size {
        values.push(value_of(alloc, u32::from(index % different.max(1)))?)?;
    }
    Ok(values)
}

fn lent_keys<'a>(alloc: Global, texts: &'a [Text]) -> Result<Vec<TextRef<'a>>, AllocError> {
    let mut keys = Vec::new(alloc);
    for text in texts {
        keys.push(TextRef::of(text.as_str()))?;
    }
    Ok(keys)
}

fn lent_values<'a>(alloc: Global, values: &'a [Value]) -> Result<Vec<ValueRef<'a>>, AllocError> {
    let mut lent = Vec::new(alloc);
    for value in values {
        lent.push(value.lent())?;
    }
    Ok(lent)
}

fn add<T: Entry>(uses: &mut UsedEntries<T>, entries: Vec<T>, way: Way) -> Result<(), AllocError> {
    match way {
        Way::OneByOne => {
            for entry in &entries {
                uses.add(entry)?;
            }
            Ok(())
        }
        Way::All => uses.add_all(&entries),
        Way::Taken => uses.take_all(entries),
    }
}

// Tags that name some of so many entries, in an order of their own, some of them twice.
fn tags(alloc: Global, count: u32) -> Result<Vec<u32>, AllocError> {
    let mut tags = Vec::new(alloc);
    for index in 0..count {
        let index = u64::from(index);
        let count = u64::from(count);
        tags.push((index * 7 % 5 * index % count) as u32)?;
        tags.push((index * 3 % count) as u32)?;
    }
    Ok(tags)
}

// The keys and the values of a layer.
#[derive(Drop)]
struct Made {
    keys: Vec<Text>,
    values: Vec<Value>,
}

fn make(alloc: Global, size: u16, different: u16) -> Result<Made, AllocError> {
    Ok(Made {
        keys: keys(alloc, size, different)?,
        values: values(alloc, size, different)?,
    })
}

// The entries of a layer, and which of them tags use.
#[derive(Drop)]
struct MadeUses<'a> {
    uses: LayerEntries<'a>,
    tags: Vec<u32>,
}

fn add_made<'a>(
    alloc: Global,
    uses: &mut LayerEntries<'a>,
    made: &'a Made,
    way: Way,
) -> Result<(), AllocError> {
    add(&mut uses.keys, lent_keys(alloc, &made.keys)?, way)?;
    add(&mut uses.values, lent_values(alloc, &made.values)?, way)
}

// These entries, then more; and tags.
fn make_uses<'a>(
    alloc: Global,
    first: &'a Made,
    more: &'a Made,
    way: Way,
) -> Result<MadeUses<'a>, AllocError> {
    let mut uses = LayerEntries::new(alloc);
    add_made(alloc, &mut uses, first, way)?;
    add_made(alloc, &mut uses, more, way)?;
    let mut found = Vec::new(alloc);
    let count = u32::try_from(uses.keys.len()).unwrap_or(0);
    uses.append_used(&tags(alloc, count)?, &mut found)?;
    Ok(MadeUses { uses, tags: found })
}

// Whether lists of any entries are the same.
pub(crate) fn are_equal<T: PartialEq>(one: &[T], other: &[T]) -> bool {
    one == other
}

fn are_same(one: &MadeUses<'_>, other: &MadeUses<'_>) -> bool {
    one.tags == other.tags
        && are_equal(one.uses.keys.used(), other.uses.keys.used())
        && are_equal(one.uses.values.used(), other.uses.values.used())
        && one.uses.keys.len() == other.uses.keys.len()
        && one.uses.values.len() == other.uses.values.len()
}

// How many keys are used of so many entries, the first of which stand again behind them with a new
// one, where all ways agree.
fn used_in_all_ways(alloc: Global, size: u16, different: u16) -> Option<usize> {
    let first = make(alloc, size, different).ok()?;
    let count = different.saturating_add(1);
    let more = make(alloc, count, count).ok()?;
    let one = make_uses(alloc, &first, &more, Way::OneByOne).ok()?;
    let all = make_uses(alloc, &first, &more, Way::All).ok()?;
    let taken = make_uses(alloc, &first, &more, Way::Taken).ok()?;
    if are_same(&one, &all) && are_same(&one, &taken) {
        Some(one.uses.keys.used().len())
    } else {
        None
    }
}

// How many entries there are, how many of them are different, and how many keys are used then.
const CASES: [(u16, u16, usize); 12] = [
    (0, 0, 1),
    (1, 1, 2),
    (7, 7, 6),
    (8, 8, 7),
    (8, 7, 6),
    (9, 9, 7),
    (9, 8, 7),
    (33, 33, 27),
    (40, 3, 4),
    (100, 100, 72),
    (100, 99, 41),
    (300, 300, 191),
];

#[test]
fn uses_are_the_same_in_all_ways(rt: HostRuntime) {
    for (size, different, count) in CASES {
        let found = used_in_all_ways(rt.alloc(), size, different);
        expect_eq!(rt; found, Some(count), "of {size}, {different} different");
    }
}
