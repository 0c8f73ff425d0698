ghost use Rattle.std.specs.Prelude.{◌≡◌, ◌<◌};
ghost use Rattle.parity_log.specs.Order.{Limited};
ghost use Rattle.parity_log.specs.Tables.{group_of, member_count_of, state_of};

use crate::records::{GroupState, PageState, Tables};

impl PageState {
    // The group that a page is out at.
    pub fn group(self) -> Option<usize>
        ensures { result ≡ group_of self }
    {
        match self {
            PageState::Out { group, .. } => Some(group),
            PageState::NotOut | PageState::Lost { .. } => None,
        }
    }
}

impl Tables {
    // The members of a group on servers are on the first so many.
    pub fn member_count(&self, group: usize) -> usize
        requires group { group < 32 }
        requires limited { Limited self.now }
        ensures { result ≡ member_count_of (state_of self.now group) self.now.shape.servers self.now.filled }
    {
        match self.states[group] {
            GroupState::Free => 0,
            GroupState::Open => self.filled,
            GroupState::Closed => self.shape.servers + 1,
        }
    }
}
