//! A page server that loses pages inside calls, by a fixed sequence of draws.
#![tactic(auto)]

mod draws;
mod mishaps;

ghost use Rattle.fickle.specs.Laws.{fickle_laws};
ghost use Rattle.fickle.specs.Outliving.{PassesOn};
ghost use Rattle.fickle.specs.Rule.{Befalls, BroughtBack, Fallen, Stepped, Strikes, Undrawn, with_losses};
ghost use Rattle.std.specs.Prelude.{◌≡◌};

pub use draws::Draws;
pub use mishaps::Odds;
use mishaps::{Mishap, Strike};
use page::{Fault, PAGE_SIZE};
use server::{PageServer, Pullable};

// A server over another, of which it loses pages, or which it makes fall, before calls. The losses are counted in its era.
#[derive(Drop)]
pub struct Fickle<S> {
    below: S,
    losses: u32,
    draws: Draws,
    odds: Odds,
}

impl<S: Pullable> Fickle<S> {
    // The server as it is, before any loss.
    pub fn new(below: S, seed: u32, odds: Odds) -> Fickle<S>
        ensures below { result.below ≡ below }
        ensures losses { result.losses ≡ 0 }
        ensures draws { (result.draws.seed ≡ seed) × (result.odds ≡ odds) }
    {
        Fickle {
            below,
            losses: 0,
            draws: Draws::new(seed),
            odds,
        }
    }

    // Loses the page at the slot, if one is there: only a server that is up holds one, and what is down must stay as it is.
    fn suffer(&mut self, strike: Strike)
        ensures strikes { Strikes S.PageServer.meaning S.PageServer.steps S.Pullable.falls strike self.old self.new }
        ensures undrawn { Undrawn self.old self.new }
    {
        if self.losses == u32::MAX {
            return;
        }
        let mut page = [0; PAGE_SIZE];
        let Ok(()) = self.below.get(strike.slot, &mut page) else {
            return;
        };
        self.losses += 1;
        match strike.mishap {
            Mishap::Page => {
                let _ = self.below.free(strike.slot);
            }
            Mishap::Fall => self.below.fall(),
        }
    }

    // What comes before a call on this slot, by the draws.
    fn befall(&mut self, slot: usize, length: usize)
        ensures { Befalls S.PageServer.meaning S.PageServer.steps S.Pullable.falls self.old length slot self.new }
    {
        let size = self.size();
        if length != PAGE_SIZE || slot >= size {
            return;
        }
        let odds = self.odds;
        if let Some(strike) = odds.strike(&mut self.draws, slot, size) {
            self.suffer(strike);
        }
    }
}

impl<S: Pullable> PageServer for Fickle<S> {
    ghost meaning = { λ s. with_losses s.losses (S.PageServer.meaning s.below) };

    ghost steps = { Stepped S.PageServer.meaning S.PageServer.steps S.Pullable.falls };

    ghost laws = { fickle_laws S.Pullable.falls S.PageServer.laws };

    fn size(&self) -> usize {
        self.below.size()
    }

    fn put(&mut self, slot: usize, page: &[u8]) -> Result<(), Fault> {
        self.befall(slot, page.len());
        self.below.put(slot, page)
    }

    fn get(&mut self, slot: usize, buffer: &mut [u8]) -> Result<(), Fault> {
        self.befall(slot, buffer.len());
        self.below.get(slot, buffer)
    }

    fn free(&mut self, slot: usize) -> Result<(), Fault> {
        self.befall(slot, PAGE_SIZE);
        self.below.free(slot)
    }
}

impl<S: Pullable> Pullable for Fickle<S> {
    ghost falls = { Fallen S.Pullable.falls };

    ghost backs = { BroughtBack S.Pullable.backs };

    fn fall(&mut self) {
        self.below.fall();
    }

    fn back(&mut self) -> Result<(), Fault> {
        self.below.back()
    }
}

/// A loss or a return of the server below, between calls, is one of the fickle server.
pub fn fickle_stands()
    ensures passes { PassesOn }
{}
