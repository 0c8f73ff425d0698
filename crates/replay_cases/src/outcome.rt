//! What a replay came to.
use crate::memories::{FILLER, Memories};
use md5::{Digest, Md5};
use std::fmt;

// The first four bytes of the MD5 digest.
#[derive(Clone, Copy, PartialEq, Eq)]
pub struct Checksum(u32);

impl Checksum {
    // The checksum of these bytes, one after the other.
    pub fn of(parts: &[&[u8]]) -> Checksum {
        let mut hasher = Md5::new();
        for part in parts {
            hasher.update(*part);
        }
        let [a, b, c, d, ..] = hasher.finalize();
        Checksum(u32::from_be_bytes([a, b, c, d]))
    }
}

impl fmt::Display for Checksum {
    fn fmt<W: fmt::Write>(&self, f: &mut fmt::Formatter<W>) -> fmt::Result {
        write!(f, "{:08x}", self.0)
    }
}

#[derive(PartialEq, Eq, Drop)]
pub struct Outcome {
    answer: i64,
    // the bytes that were written
    listing: Vec<u8>,
    // whether the bytes behind them are as they were
    kept: bool,
    memories: Checksum,
}

// How many bytes were written, by a replay's answer.
fn count_of(answer: i64) -> usize {
    if answer < 0 {
        (-1 - answer) as usize
    } else {
        answer as usize
    }
}

impl Outcome {
    pub fn of(answer: i64, mut listing: Vec<u8>, memories: &Memories) -> Outcome {
        let count = count_of(answer);
        let kept = listing.iter().skip(count).all(|byte| *byte == FILLER);
        listing.truncate(count);
        Outcome {
            answer,
            listing,
            kept,
            memories: memories.checksum(),
        }
    }

    // How many bytes were written.
    pub fn written(&self) -> usize {
        self.listing.len()
    }

    fn text(&self) -> &str {
        str::from_utf8(&self.listing).unwrap_or("no text")
    }
}

impl fmt::Display for Outcome {
    fn fmt<W: fmt::Write>(&self, f: &mut fmt::Formatter<W>) -> fmt::Result {
        let lines = self.text().lines().count();
        let last = self.text().lines().last().unwrap_or("none");
        let rest = if self.kept { "kept" } else { "changed" };
        let listing = Checksum::of(&[&self.listing]);
        write!(f, "answer {}, lines {lines}, last {last}; ", self.answer)?;
        write!(
            f,
            "rest {rest}, listing {listing}, memories {}",
            self.memories
        )
    }
}
