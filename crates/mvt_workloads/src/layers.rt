//! Layers as producers write them: features first, then keys and values in order of first use, then
//! the extent, and the version last.

use crate::features::{Shape, put_geometry};
use crate::message::Message;
use crate::random::Random;
use std::alloc::{AllocError, Global};

/// What the values of a key are.
#[derive(Clone, Copy)]
pub enum Content {
    Text,
    Number,
    Double,
    Bool,
}

/// A key, and how many values it takes; 0 where each feature has one of its own.
#[derive(Clone, Copy)]
pub struct Key {
    pub name: &'static str,
    pub content: Content,
    pub values: u32,
}

/// How a layer is made: each number of features and of points is up to this one, and half of it or
/// more.
#[derive(Clone, Copy)]
pub struct Form {
    pub name: &'static str,
    pub shape: Shape,
    pub features: u32,
    pub points: u32,
    pub keys: &'static [Key],
}

/// Keys or values so far: their fields, and the index and 1 that each has which is used again.
#[derive(Drop)]
struct Entries {
    fields: Message,
    count: u32,
    indices: Vec<u32>,
}

const MOST_SHARED: usize = 4096;

impl Entries {
    fn new(alloc: Global) -> Result<Self, AllocError> {
        Ok(Entries {
            fields: Message::new(alloc),
            count: 0,
            indices: Vec::from_elem(alloc, 0, MOST_SHARED)?,
        })
    }

    /// The index of the entry of this slot, and whether it is new. Without a slot it is.
    fn place(&mut self, slot: Option<usize>) -> (u32, bool) {
        let next = self.count;
        if let Some(index) = slot.and_then(|slot| self.indices.get_mut(slot)) {
            if *index > 0 {
                return (*index - 1, false);
            }
            *index = next.wrapping_add(1);
        }
        self.count = next.wrapping_add(1);
        (next, true)
    }
}

/// A layer in the making.
#[derive(Drop)]
struct LayerMaker {
    layer: Message,
    keys: Entries,
    values: Entries,
    feature: Message,
    part: Message,
}

const FIELD_KEYS: u32 = 3;

const FIELD_VALUES: u32 = 4;

impl LayerMaker {
    fn new(alloc: Global) -> Result<Self, AllocError> {
        Ok(LayerMaker {
            layer: Message::new(alloc),
            keys: Entries::new(alloc)?,
            values: Entries::new(alloc)?,
            feature: Message::new(alloc),
            part: Message::new(alloc),
        })
    }

    fn add_key(&mut self, number: usize, key: Key) -> Result<u32, AllocError> {
        let (index, is_new) = self.keys.place(Some(number));
        if is_new {
            self.keys.fields.put_bytes(FIELD_KEYS, key.name.as_bytes())?;
        }
        Ok(index)
    }

    fn add_value(
        &mut self,
        random: &mut Random,
        number: usize,
        key: Key,
    ) -> Result<u32, AllocError> {
        let slot = if key.values == 0 {
            None
        } else {
            let choice = random.within(1, key.values) as usize;
            Some((number % 16) * 256 + choice % 256)
        };
        let (index, is_new) = self.values.place(slot);
        if is_new {
            self.part.clear();
            put_content(&mut self.part, random, key.content)?;
            self.values.fields.put_message(FIELD_VALUES, &self.part)?;
        }
        Ok(index)
    }

    /// The tags of a feature: mostly all keys.
    fn put_tags(&mut self, random: &mut Random, keys: &[Key]) -> Result<Message, AllocError> {
        let mut tags = self.part.fresh();
        for (number, key) in keys.iter().enumerate() {
            if number > 0 && random.one_in(8) {
                continue;
            }
            let name = self.add_key(number, *key)?;
            let value = self.add_value(random, number, *key)?;
            tags.put_number(u64::from(name))?;
            tags.put_number(u64::from(value))?;
        }
        Ok(tags)
    }

    /// Begins a feature. Half of them have an id.
    fn begin_feature(&mut self, random: &mut Random) -> Result<(), AllocError> {
        self.feature.clear();
        if random.one_in(2) {
            let id = random.within(1 << 14, 1 << 20);
            self.feature.put_uint(1, u64::from(id))?;
        }
        Ok(())
    }

    /// Begins a feature whose id changes from round to round.
    fn begin_changing_feature(&mut self, random: &mut Random) -> Result<(), AllocError> {
        self.feature.clear();
        let id = random.within(1 << 28, u32::MAX);
        self.feature.put_changing(1, u64::from(id))
    }

    /// Ends a feature with its tags, its type and its geometry.
    fn end_feature(&mut self, random: &mut Random, form: Form) -> Result<(), AllocError> {
        let tags = self.put_tags(random, form.keys)?;
        self.feature.put_message(2, &tags)?;
        self.feature.put_uint(3, form.shape.number())?;
        self.part.clear();
        let points = random.within(form.points / 2, form.points);
        put_geometry(&mut self.part, random, form.shape, points)?;
        self.feature.put_message(4, &self.part)
    }

    fn add_feature(&mut self, random: &mut Random, form: Form) -> Result<(), AllocError> {
        self.begin_feature(random)?;
        self.end_feature(random, form)?;
        self.layer.put_message(2, &self.feature)
    }

    /// Adds so many features, of which the first two have ids that change. Of one that is lost the
    /// keys and values alone are added.
    fn add_cached_features(
        &mut self,
        random: &mut Random,
        form: Form,
        count: u32,
        lost: Option<u32>,
    ) -> Result<(), AllocError> {
        for number in 0..count {
            if number < 2 {
                self.begin_changing_feature(random)?;
            } else {
                self.begin_feature(random)?;
            }
            self.end_feature(random, form)?;
            if lost != Some(number) {
                self.layer.put_message(2, &self.feature)?;
            }
        }
        Ok(())
    }

    /// Ends the layer with its keys and values and its extent.
    fn finish(self) -> Result<Message, AllocError> {
        let LayerMaker {
            mut layer,
            keys,
            values,
            ..
        } = self;
        layer.put_fields(&keys.fields)?;
        layer.put_fields(&values.fields)?;
        layer.put_uint(5, 4096)?;
        Ok(layer)
    }
}

/// Appends a text of some letters, which may change, and of a letter of two bytes now and then.
fn put_text(out: &mut Message, random: &mut Random, letters: u32) -> Result<(), AllocError> {
    let mut text = out.fresh();
    for _ in 0..letters {
        if random.one_in(20) {
            text.put_raw(&[0xc3, 0xa9])?;
        } else {
            text.mark(3)?;
            text.put_raw(&[random.letter()])?;
        }
    }
    out.put_message(1, &text)
}

fn put_content(out: &mut Message, random: &mut Random, content: Content) -> Result<(), AllocError> {
    match content {
        Content::Text => {
            let letters = random.within(4, 18);
            put_text(out, random, letters)
        }
        Content::Number => out.put_uint(5, u64::from(random.within(0, 100_000))),
        Content::Double => out.put_double(3, random.next() >> 2),
        Content::Bool => out.put_uint(7, u64::from(random.within(0, 1))),
    }
}

/// A layer of this form. One of sixteen has a key first that no feature uses.
pub fn make_layer(alloc: Global, random: &mut Random, form: Form) -> Result<Message, AllocError> {
    let mut maker = LayerMaker::new(alloc)?;
    maker.layer.put_bytes(1, form.name.as_bytes())?;
    if random.one_in(16) {
        maker.keys.place(None);
        maker.keys.fields.put_bytes(FIELD_KEYS, b"unused")?;
    }
    for _ in 0..random.within(form.features / 2, form.features) {
        maker.add_feature(random, form)?;
    }
    let mut layer = maker.finish()?;
    layer.put_uint(15, 2)?;
    Ok(layer)
}

/// What a layer of a cache went through.
#[derive(Clone, Copy)]
pub enum Past {
    /// It was rewritten, and is canonical.
    Rewritten,
    /// It has version 1.
    Old,
    /// It was filtered: one of its features is gone, but for the keys and values that it used.
    Filtered,
}

/// A layer of this form, as a cache has it, with a feature at least.
pub fn make_cached_layer(
    alloc: Global,
    random: &mut Random,
    form: Form,
    past: Past,
) -> Result<Message, AllocError> {
    let mut maker = LayerMaker::new(alloc)?;
    if let Past::Rewritten = past {
        maker.layer.put_uint(15, 2)?;
    }
    maker.layer.put_bytes(1, form.name.as_bytes())?;
    let count = random.within(form.features / 2, form.features);
    if let Past::Filtered = past {
        let count = count.max(2);
        let lost = random.within(0, count.saturating_sub(1));
        maker.add_cached_features(random, form, count, Some(lost))?;
    } else {
        maker.add_cached_features(random, form, count.max(1), None)?;
    }
    let mut layer = maker.finish()?;
    match past {
        Past::Rewritten => {}
        Past::Old => layer.put_uint(15, 1)?,
        Past::Filtered => layer.put_uint(15, 2)?,
    }
    Ok(layer)
}
