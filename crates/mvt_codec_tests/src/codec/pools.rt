//! Pools of few, of more and of many entries.
use super::attrs::{key_refusals, value_refusals};
use crate::expect::{expect, expect_eq};
use mvt_attrs::*;
use mvt_base::Text;
use std::alloc::{AllocError, Global};
use std::hash::{DefaultHasher, FoldHasher, Hash, Hasher};
use std::process::Abort;

// More entries than are hashed.
const LETTERS: [&str; 40] = [
    "a", "b", "c", "d", "e", "f", "g", "h", "i", "j", "k", "l", "m", "n", "o", "p", "q", "r", "s",
    "t", "u", "v", "w", "x", "y", "z", "A", "B", "C", "D", "E", "F", "G", "H", "I", "J", "K", "L",
    "M", "N",
];

// A front after which the kit's FoldHasher forgets 8 bytes, in a text of 48 bytes: see
// bench/one_hash.hpp.
const FRONT: &str = "aaaaaaaa10000297\x13-.\x0ebG\x02b";

fn hashes_alike(rt: &(impl Abort + AllocGlobal), number: u32) -> Text {
    let number = u64::from(number) + 10_000_000;
    let text = format!(in rt.alloc(); "{FRONT}{number}0123456789abcdef").expect(rt, "a text");
    Text::from_string(text).expect(rt, "a text")
}

// Where a key is placed, and that it stands there.
fn expect_place<'a>(rt: &impl Abort, keys: &mut KeyPool<'a>, key: &'a Text, place: u32) {
    expect_eq!(rt; keys.place(&TextRef::of(key.as_str())), Ok(place));
    expect_eq!(rt; keys.get(place), Some(key.as_str()));
}

#[test]
fn places_keys_of_one_hash(rt: HostRuntime) {
    let mut texts = Vec::new(rt.alloc());
    for number in 0..300u32 {
        texts.push(hashes_alike(&rt, number)).expect(&rt, "texts");
    }
    let mut keys = KeyPool::new(rt.alloc());
    for _turn in 0..2 {
        for (place, text) in (0..300u32).zip(texts.iter()) {
            expect_place(&rt, &mut keys, text, place);
        }
    }
    expect_eq!(rt; keys.len(), 300);
    drop(keys);
    drop(texts);
}

// The last 20 bits of a text's hash, which name its first slot.
fn first_end(text: &Text) -> u64 {
    let mut state = FoldHasher::default();
    text.hash(&mut state);
    state.finish() % (1 << 20)
}

// The same of the hash that names its second slot.
fn second_end(text: &Text) -> u64 {
    let mut state = DefaultHasher::new();
    text.hash(&mut state);
    state.finish() % (1 << 20)
}

// Three texts that meet in their first slot, of which the last two meet in their second one too,
// and the places that they get after the letters.
const MEETING: [(u32, u32); 3] = [(0, 40), (988, 41), (2_066, 42)];

fn expect_meeting(rt: &(impl Abort + AllocGlobal), number: u32, last: &Text) {
    let text = hashes_alike(rt, number);
    expect_eq!(rt; first_end(&text), first_end(last));
    expect_eq!(rt; second_end(&text) == second_end(last), number > 0);
    drop(text);
}

#[test]
fn slots_meet(rt: HostRuntime) {
    let last = hashes_alike(&rt, 2_066);
    for (number, _) in MEETING {
        expect_meeting(&rt, number, &last);
    }
    drop(last);
}

#[test]
fn places_keys_that_meet_twice(rt: HostRuntime) {
    let mut texts = Vec::new(rt.alloc());
    for (number, _) in MEETING {
        texts.push(hashes_alike(&rt, number)).expect(&rt, "texts");
    }
    let mut keys = KeyPool::new(rt.alloc());
    for letter in LETTERS {
        expect!(rt; keys.place(&TextRef::of(letter)).is_ok());
    }
    for _turn in 0..2 {
        for (text, (_, place)) in texts.iter().zip(MEETING) {
            expect_place(&rt, &mut keys, text, place);
        }
    }
    drop(keys);
    drop(texts);
}

#[test]
fn places_many_values(rt: HostRuntime) {
    let mut made = Vec::new(rt.alloc());
    for number in 0..1_000u32 {
        made.push(Value::Uint(u64::from(number)))
            .expect(&rt, "values");
        let text = Value::Text(hashes_alike(&rt, number));
        made.push(text).expect(&rt, "values");
    }
    let mut values = ValuePool::new(rt.alloc());
    for _turn in 0..2 {
        for (place, value) in (0..2_000u32).zip(made.iter()) {
            expect_eq!(rt; values.place(&value.lent()), Ok(place));
        }
    }
    expect_eq!(rt; values.len(), 2_000);
    expect!(rt; values.get(1_998) == Some(&ValueRef::Uint(999)));
    drop(values);
    drop(made);
}

fn letters(alloc: Global) -> Result<Vec<Attribute>, AllocError> {
    let mut attributes = Vec::new(alloc);
    for (letter, number) in [("a", 1), ("b", 2)] {
        let key = Text::from_str(alloc, letter)?;
        let value = Value::Uint(number);
        attributes.push(Attribute { key, value })?;
    }
    Ok(attributes)
}

// The tags of these attributes, whatever is guessed.
fn expect_tags<'a>(
    rt: &(impl Abort + AllocGlobal),
    attributes: &'a [Attribute],
    uses: &mut LayerEntries<'a>,
    last: &[u32],
) {
    let mut tags = Vec::new(rt.alloc());
    let done = uses.append_attributes(attributes, last, &mut tags);
    expect!(rt; done.is_ok());
    expect_eq!(rt; tags.as_slice(), [0, 0, 1, 1].as_slice());
    drop(tags);
}

// A guess is compared, whatever it is.
#[test]
fn guesses_are_compared(rt: HostRuntime) {
    let attributes = letters(rt.alloc()).expect(&rt, "attributes");
    let mut uses = LayerEntries::new(rt.alloc());
    let guesses: [&[u32]; 5] = [&[], &[0, 0, 1, 1], &[1, 1, 0, 0], &[7], &[0, 1, 2, 3, 4]];
    for last in guesses {
        expect_tags(&rt, &attributes, &mut uses, last);
    }
    expect_eq!(rt; uses.keys.used().len() + uses.values.used().len(), 4);
    drop(uses);
    drop(attributes);
}

// Entries that are added after attributes leave those used that these brought.
#[test]
fn brought_entries_stay_used(rt: HostRuntime) {
    let attributes = letters(rt.alloc()).expect(&rt, "attributes");
    let mut uses = LayerEntries::new(rt.alloc());
    expect_tags(&rt, &attributes, &mut uses, &[]);
    let second = attributes.get(1).expect(&rt, "two attributes");
    expect!(rt; uses.keys.add(&TextRef::of(second.key.as_str())).is_ok());
    expect!(rt; uses.values.add(&ValueRef::Uint(3)).is_ok());
    expect_eq!(rt; uses.keys.used().len() + uses.values.used().len(), 4);
    let mut tags = Vec::new(rt.alloc());
    let done = uses.append_used(&[0, 0], &mut tags);
    expect!(rt; done.is_ok());
    expect_eq!(rt; tags.as_slice(), [1, 2].as_slice());
    drop(tags);
    drop(uses);
    drop(attributes);
}

// Places each letter as a key. Answers how many growths were refused.
fn refused_letters<'a>(rt: &impl Abort, keys: &mut KeyPool<'a>) -> u8 {
    let mut refused = 0u8;
    for (index, letter) in LETTERS.iter().enumerate() {
        let more = key_refusals(rt, keys, &TextRef::of(letter), index as u32);
        refused = refused.saturating_add(more);
    }
    refused
}

#[test]
fn refused_forms_of_keys(rt: HostRuntime) {
    let mut keys = KeyPool::new(rt.alloc());
    let refused = refused_letters(&rt, &mut keys);
    expect_eq!(rt; keys.len(), 40);
    for (index, letter) in LETTERS.iter().enumerate() {
        expect_eq!(rt; keys.get(index as u32), Some(*letter));
    }
    // Keys that are there take no memory.
    expect_eq!(rt; refused_letters(&rt, &mut keys), 0);
    expect!(rt; refused < 2);
    drop(keys);
}

#[test]
fn refused_forms_of_values(rt: HostRuntime) {
    let mut refused = 0u8;
    let mut values = ValuePool::new(rt.alloc());
    for number in 0..40u32 {
        let value = ValueRef::Sint(i64::from(number));
        refused = refused.saturating_add(value_refusals(&rt, &mut values, &value, number));
    }
    for number in 0..40u32 {
        expect_eq!(rt; values.place(&ValueRef::Sint(i64::from(number))), Ok(number));
    }
    expect!(rt; refused < 2);
    drop(values);
}
