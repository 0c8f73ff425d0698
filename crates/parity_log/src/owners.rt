ghost use Rattle.std.specs.Prelude.{◌≡◌, ◌<◌, replicate, None as Nobody};
ghost use Rattle.parity_log.specs.Owners.{Fits, Renamed, Rows, owner_at};

use crate::records::{MOST_GROUPS, MOST_SERVERS, PageState};

// The page that is out at each position: the page table read the other way.
#[derive(Clone, Copy)]
pub struct Owners {
    places: [[Option<usize>; MOST_SERVERS]; MOST_GROUPS],
    ghost rows: { Rows places },
}

impl Owners {
    pub fn none() -> Owners
        ensures { result.places ≡ replicate 32 (replicate 8 Nobody) }
    {
        Owners {
            places: [[None; MOST_SERVERS]; MOST_GROUPS],
        }
    }

    pub fn at(&self, group: usize, position: usize) -> Option<usize>
        requires group { group < 32 }
        requires position { position < 8 }
        ensures { result ≡ owner_at self.now.places group position }
    {
        self.places[group][position]
    }

    // Gives the position of this state, where it has one, to another owner.
    pub fn rename(&mut self, state: PageState, owner: Option<usize>)
        requires { Fits state }
        ensures { Renamed self.old.places state owner self.new.places }
    {
        match state {
            PageState::Out { group, position } => self.places[group][position] = owner,
            PageState::NotOut | PageState::Lost { .. } => {}
        }
    }
}
