//! What the five servers of a replay work over.
use crate::outcome::Checksum;
use replay::answer_of;
use session::replay_over_five;
use std::alloc::{AllocError, Global};
use std::fmt;

// What every byte of a memory and of a listing is at first.
pub const FILLER: u8 = 170;

// How many bytes each data server has, and the parity server.
#[derive(Clone, Copy, PartialEq, Eq)]
pub struct Sizes {
    pub data: usize,
    pub parity: usize,
}

pub const USUAL: Sizes = Sizes {
    data: 8192,
    parity: 8192,
};

impl fmt::Display for Sizes {
    fn fmt<W: fmt::Write>(&self, f: &mut fmt::Formatter<W>) -> fmt::Result {
        let Sizes { data, parity } = *self;
        write!(f, "memories of {data} bytes, parity of {parity}")
    }
}

#[derive(Drop)]
pub struct Memories {
    a: Vec<u8>,
    b: Vec<u8>,
    c: Vec<u8>,
    d: Vec<u8>,
    parity: Vec<u8>,
}

impl Memories {
    pub fn new(alloc: Global, sizes: Sizes) -> Result<Memories, AllocError> {
        let Sizes { data, parity } = sizes;
        Ok(Memories {
            a: vec![in alloc; FILLER; data]?,
            b: vec![in alloc; FILLER; data]?,
            c: vec![in alloc; FILLER; data]?,
            d: vec![in alloc; FILLER; data]?,
            parity: vec![in alloc; FILLER; parity]?,
        })
    }

    pub fn replay(&mut self, script: &[u8], listing: &mut [u8]) -> i64 {
        let outcome = replay_over_five(
            script,
            &mut self.a,
            &mut self.b,
            &mut self.c,
            &mut self.d,
            &mut self.parity,
            listing,
        );
        answer_of(outcome)
    }

    // The checksum of all five, one after the other.
    pub fn checksum(&self) -> Checksum {
        let Memories { a, b, c, d, parity } = self;
        Checksum::of(&[a, b, c, d, parity])
    }
}
