//! A replay to be made: a script, and what it has to run over.
use crate::memories::{FILLER, Memories, Sizes, USUAL};
use crate::outcome::Outcome;
use std::alloc::{AllocError, Global};
use std::fmt;

// How many bytes a listing mostly has room for.
const LISTING: usize = 8192;

#[derive(Clone, Copy)]
pub struct Case<'a> {
    pub name: &'a str,
    pub script: &'a [u8],
    pub sizes: Sizes,
    // how many bytes the listing has room for
    pub length: usize,
}

impl<'a> Case<'a> {
    pub fn usual(name: &'a str, script: &'a [u8]) -> Case<'a> {
        Case {
            name,
            script,
            sizes: USUAL,
            length: LISTING,
        }
    }

    // Replays it over these memories.
    pub fn replay_over(
        self,
        alloc: Global,
        memories: &mut Memories,
    ) -> Result<Outcome, AllocError> {
        let mut listing = vec![in alloc; FILLER; self.length]?;
        let answer = memories.replay(self.script, &mut listing);
        Ok(Outcome::of(answer, listing, memories))
    }

    // Replays it over memories of its own.
    pub fn replay(self, alloc: Global) -> Result<Outcome, AllocError> {
        self.replay_over(alloc, &mut Memories::new(alloc, self.sizes)?)
    }
}

impl fmt::Display for Case<'_> {
    fn fmt<W: fmt::Write>(&self, f: &mut fmt::Formatter<W>) -> fmt::Result {
        f.write_str(self.name)?;
        if self.sizes != USUAL {
            write!(f, ", {}", self.sizes)?;
        }
        if self.length != LISTING {
            write!(f, ", listing of {} bytes", self.length)?;
        }
        Ok(())
    }
}
