ghost use Rattle.std.specs.Prelude.{◌≡◌, ◌+◌, ◌%◌, ◌<◌, ◌≤◌, Some as Chosen};
ghost use Rattle.parity_log.specs.Choices.{LastWithin, fewest_live, free_count, next_free, open_group, start};
ghost use Rattle.parity_log.specs.Linked.{Linked};
ghost use Rattle.parity_log.specs.Tables.{is_closed, is_free, live, state_of};

use crate::ledger::Ledger;
use crate::records::{GroupState, Tables};

// A number less than twice round, brought back into the round.
fn round(at: usize, groups: usize) -> usize
    requires { at < groups + groups }
    ensures { result ≡ at % groups }
{
    if at < groups { at } else { at - groups }
}

impl Tables {
    // The open group, if one is.
    pub fn open_group(&self) -> Option<usize>
        requires { LastWithin self.now.last }
        ensures { result ≡ open_group self.now }
    {
        self.last
            .filter(|group| self.states[*group] == GroupState::Open)
    }

    pub fn free_count(&self) -> usize
        requires { self.now.shape.groups ≤ 32 }
        ensures { result ≡ free_count self.now }
    {
        let mut free = 0;
        for group in 0..self.shape.groups {
            free += usize::from(self.is_free(group));
        }
        free
    }

    pub fn is_free(&self, group: usize) -> bool
        requires { group < 32 }
        ensures { result ≡ is_free (state_of self.now group) }
    {
        self.states[group] == GroupState::Free
    }

    pub fn is_closed(&self, group: usize) -> bool
        requires { group < 32 }
        ensures { result ≡ is_closed (state_of self.now group) }
    {
        self.states[group] == GroupState::Closed
    }

    // Where a search for a free group begins.
    fn start(&self) -> usize
        requires groups { 0 < self.now.shape.groups }
        requires last { LastWithin self.now.last }
        ensures { result ≡ start self.now.last self.now.shape.groups }
    {
        self.last.map_or(0, |group| (group + 1) % self.shape.groups)
    }

    // The first free group met going up, round from the group after the one opened last; one is free.
    pub fn next_free(&self) -> usize
        requires groups { self.now.shape.groups ≤ 32 }
        requires last { LastWithin self.now.last }
        requires spare { 1 ≤ free_count self.now }
        ensures { next_free self.now ≡ Chosen result }
    {
        let groups = self.shape.groups;
        let start = self.start();
        let mut far = 0;
        let next = loop {
            let group = round(start + far, groups);
            if self.is_free(group) {
                break group;
            }
            far += 1;
        };
        next
    }
}

impl Ledger {
    // The closed group with the fewest live positions, the lowest number among equals.
    pub fn fewest_live(&self) -> Option<usize>
        requires groups { self.now.tables.shape.groups ≤ 32 }
        requires servers { self.now.tables.shape.servers ≤ 8 }
        requires linked { Linked self.now }
        ensures { result ≡ fewest_live self.now.tables }
    {
        (0..self.tables.shape.groups)
            .filter(|group| self.tables.is_closed(*group))
            .min_by_key(|group| self.live(*group))
    }
}
