// A checksum that costs little beside the calls that it is taken over.
use page::PAGE_SIZE;
use std::fmt;

const MULTIPLIER: u64 = 6364136223846793005;

// A sum over words that knows their order: each word multiplies all that came before it once more.
#[derive(Clone, Copy)]
pub struct Checksum(u64);

impl Checksum {
    pub fn new() -> Checksum {
        Checksum(1)
    }

    pub fn add(&mut self, word: u64) {
        self.0 = self.0.wrapping_mul(MULTIPLIER).wrapping_add(word);
    }

    // A page as words of eight bytes, the lowest byte first.
    pub fn add_page(&mut self, page: &[u8; PAGE_SIZE]) {
        let (words, _) = page.as_chunks::<8>();
        for word in words {
            self.add(u64::from_le_bytes(*word));
        }
    }
}

impl fmt::Display for Checksum {
    fn fmt<W: fmt::Write>(&self, f: &mut fmt::Formatter<W>) -> fmt::Result {
        write!(f, "{:016x}", self.0)
    }
}
