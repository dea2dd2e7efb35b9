//! A message in the making, with the places of bits that may change.

use crate::random::Random;
use mvt_wire::{Payload, put_field, put_varint};
use std::alloc::{AllocError, Global};

/// A byte, and those of its bits that may change without a rule being broken.
#[derive(Clone, Copy)]
struct Place {
    at: usize,
    bits: u8,
}

/// The bytes of a message so far, and the places in them that change from round to round.
#[derive(Drop)]
pub struct Message {
    bytes: Vec<u8>,
    places: Vec<Place>,
}

impl Message {
    pub fn new(alloc: Global) -> Self {
        Message {
            bytes: Vec::new(alloc),
            places: Vec::new(alloc),
        }
    }

    pub fn bytes(&self) -> &[u8] {
        &self.bytes
    }

    /// An empty message of the same allocator.
    pub fn fresh(&self) -> Message {
        Message::new(*self.bytes.allocator())
    }

    pub fn clear(&mut self) {
        self.bytes.clear();
        self.places.clear();
    }

    /// Changes the bits that may change.
    pub fn vary(&mut self, random: &mut Random) {
        for place in &self.places {
            let byte = (random.next() % 256) as u8;
            if let Some(old) = self.bytes.get_mut(place.at) {
                *old ^= byte & place.bits;
            }
        }
    }

    /// Notes that these bits of the byte that comes next may change.
    pub fn mark(&mut self, bits: u8) -> Result<(), AllocError> {
        let at = self.bytes.len();
        self.places.push(Place { at, bits })?;
        Ok(())
    }

    /// Appends a number by itself, as it stands in a packed field.
    pub fn put_number(&mut self, number: u64) -> Result<(), AllocError> {
        put_varint(&mut self.bytes, number)
    }

    /// Appends a number of less than 128 that is spelled in two bytes.
    pub fn put_long_number(&mut self, number: u8) -> Result<(), AllocError> {
        self.bytes.push(number | 128)?;
        self.bytes.push(0)?;
        Ok(())
    }

    /// Appends bytes as they are.
    pub fn put_raw(&mut self, bytes: &[u8]) -> Result<(), AllocError> {
        self.bytes.extend_from_slice(bytes)
    }

    pub fn put_uint(&mut self, field: u32, number: u64) -> Result<(), AllocError> {
        self.put(field, &Payload::Varint(number))
    }

    /// Appends a number that is spelled in five bytes, of which the lower 28 bits may change.
    pub fn put_changing(&mut self, field: u32, number: u64) -> Result<(), AllocError> {
        self.put_uint(field, number)?;
        let end = self.bytes.len();
        for back in 2..6 {
            let at = end.wrapping_sub(back);
            self.places.push(Place { at, bits: 0x7f })?;
        }
        Ok(())
    }

    pub fn put_double(&mut self, field: u32, bits: u64) -> Result<(), AllocError> {
        self.put(field, &Payload::I64(bits))
    }

    pub fn put_bytes(&mut self, field: u32, bytes: &[u8]) -> Result<(), AllocError> {
        self.put(field, &Payload::Len(bytes))
    }

    /// Appends a message with its places.
    pub fn put_message(&mut self, field: u32, message: &Message) -> Result<(), AllocError> {
        self.put(field, &Payload::Len(&message.bytes))?;
        self.take_places(message)
    }

    /// Appends the fields of another message.
    pub fn put_fields(&mut self, message: &Message) -> Result<(), AllocError> {
        self.bytes.extend_from_slice(&message.bytes)?;
        self.take_places(message)
    }

    /// Takes over the places of what was appended last.
    fn take_places(&mut self, message: &Message) -> Result<(), AllocError> {
        let start = self.bytes.len().wrapping_sub(message.bytes.len());
        for place in &message.places {
            self.places.push(Place {
                at: place.at.wrapping_add(start),
                bits: place.bits,
            })?;
        }
        Ok(())
    }

    fn put(&mut self, field: u32, payload: &Payload<'_>) -> Result<(), AllocError> {
        put_field(&mut self.bytes, field.clamp(1, 100), payload)
    }
}
