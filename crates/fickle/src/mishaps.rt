ghost use Rattle.std.specs.Prelude.{◌≡◌, ◌<◌};
ghost use Rattle.fickle.specs.Drawing.{drawn_strike, mishap_by, next, victim};

use crate::draws::Draws;

// What is lost: one page, or all by a fall.
#[derive(Clone, Copy)]
pub enum Mishap {
    Page,
    Fall,
}

// A mishap, and the slot that has to hold a page for it.
#[derive(Clone, Copy)]
pub struct Strike {
    pub mishap: Mishap,
    pub slot: usize,
}

// Of 1024 calls, how many may lose a page and how many may make the server fall.
#[derive(Clone, Copy, PartialEq, Eq, Debug)]
pub struct Odds {
    pub pages: u32,
    pub falls: u32,
}

// The named slot, so that puts and gets lose their own page too, or any other.
fn victim(draw: u32, slot: usize, size: usize) -> usize
    requires { slot < size }
    ensures { result ≡ victim draw slot size }
{
    if draw % 4 == 0 {
        slot
    } else {
        (draw / 4) as usize % size
    }
}

impl Odds {
    // What two draws bring a call on this slot.
    pub(crate) fn strike(self, draws: &mut Draws, slot: usize, size: usize) -> Option<Strike>
        requires { slot < size }
        ensures strike { result ≡ drawn_strike self draws.old.seed slot size }
        ensures draws { draws.new.seed ≡ next (next draws.old.seed) }
    {
        let draw = draws.below(1024);
        let slot = victim(draws.below(65536), slot, size);
        let mishap = self.mishap(draw)?;
        Some(Strike { mishap, slot })
    }

    fn mishap(self, draw: u32) -> Option<Mishap>
        ensures { result ≡ mishap_by self draw }
    {
        if draw < self.pages {
            Some(Mishap::Page)
        } else if draw - self.pages < self.falls {
            Some(Mishap::Fall)
        } else {
            None
        }
    }
}
