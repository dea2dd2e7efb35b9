//! A digest of results.

use byteorder::{ByteOrder, LittleEndian};
use mvt_tile::{DecodeError, Fault};

const FACTOR: u64 = 0x9e37_79b9_7f4a_7c15;

/// The number that eight bytes spell, or fewer.
fn number_of(chunk: &[u8]) -> u64 {
    if chunk.len() >= 8 {
        return LittleEndian::read_u64(chunk);
    }
    let mut number = 0u64;
    for byte in chunk {
        number = number.wrapping_mul(256) ^ u64::from(*byte);
    }
    number
}

/// What was mixed in so far.
#[derive(Drop)]
pub struct Digest {
    state: u64,
}

impl Digest {
    pub fn new() -> Self {
        Digest { state: 1 }
    }

    pub fn value(&self) -> u64 {
        self.state
    }

    pub fn add_number(&mut self, number: u64) {
        let mixed = (self.state ^ number).wrapping_mul(FACTOR);
        self.state = mixed ^ (mixed >> 29);
    }

    /// Mixes in each eight bytes as a number, the bytes that are left over as one, and how many
    /// there were.
    pub fn add_bytes(&mut self, bytes: &[u8]) {
        for chunk in bytes.chunks(8) {
            self.add_number(number_of(chunk));
        }
        self.add_number(bytes.len() as u64);
    }

    pub fn add_error(&mut self, error: DecodeError) {
        match error {
            DecodeError::Fault(fault) => self.add_fault(fault),
            DecodeError::Memory => self.add_number(2),
            DecodeError::Read(_) => self.add_number(3),
        }
    }

    fn add_fault(&mut self, fault: Fault) {
        self.add_number(fault.layer.map_or(1 << 32, u64::from));
        self.add_number(fault.feature.map_or(1 << 32, u64::from));
        self.add_number(fault.at);
        self.add_number(u64::from(fault.cause.number()));
    }
}
