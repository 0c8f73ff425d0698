ghost use Rattle.std.specs.Prelude.{◌≡◌, ◌<◌, ◌≤◌};
ghost use Rattle.parity_log.specs.Linked.{Linked};
ghost use Rattle.parity_log.specs.Owners.{Changes};
ghost use Rattle.parity_log.specs.Paging.{grown, opened, shut, unused};
ghost use Rattle.parity_log.specs.Tables.{initial, live, page_at, with_page, with_state};
ghost use Rattle.parity_log.specs.declared.records.GroupState.TheVariants.{Free};

use crate::owners::Owners;
use crate::records::{GroupState, MOST_GROUPS, MOST_PAGES, PageState, Shape, Tables};

// The tables, and beside them who is out at each position, which the tables of a linked ledger say too.
#[derive(Clone, Copy)]
pub struct Ledger {
    pub tables: Tables,
    owners: Owners,
}

impl Ledger {
    // The tables of a pager just made.
    pub fn new(shape: Shape) -> Ledger
        ensures tables { result.tables ≡ initial shape }
        ensures linked { Linked result }
    {
        let tables = Tables {
            shape,
            pages: [PageState::NotOut; MOST_PAGES],
            states: [GroupState::Free; MOST_GROUPS],
            last: None,
            filled: 0,
        };
        Ledger {
            tables,
            owners: Owners::none(),
        }
    }

    // The page that is out at a position.
    pub fn page_at(&self, group: usize, position: usize) -> Option<usize>
        requires group { group < 32 }
        requires position { position < 8 }
        requires linked { Linked self.now }
        ensures { result ≡ page_at self.now.tables.pages group position }
    {
        self.owners.at(group, position)
    }

    // Changes where a page is; its new position is nobody else's.
    pub fn set_page(&mut self, page: usize, state: PageState)
        requires changes { Changes self.old.tables page state }
        requires linked { Linked self.old }
        ensures tables { self.new.tables ≡ with_page self.old.tables page state }
        ensures linked { Linked self.new }
    {
        let old = self.tables.pages[page];
        self.owners.rename(old, None);
        self.owners.rename(state, Some(page));
        self.tables.pages[page] = state;
    }

    // How many positions of a group are live.
    pub fn live(&self, group: usize) -> usize
        requires group { group < 32 }
        requires servers { self.now.tables.shape.servers ≤ 8 }
        requires linked { Linked self.now }
        ensures { result ≡ live self.now.tables group }
    {
        let mut live = 0;
        for position in 0..self.tables.shape.servers {
            live += usize::from(self.page_at(group, position).is_some());
        }
        live
    }
}

// The changes of the tables that leave the pages where they are.
impl Ledger {
    // A closed group in which no position is live.
    pub fn unused(&self, group: usize) -> bool
        requires group { group < 32 }
        requires servers { self.now.tables.shape.servers ≤ 8 }
        requires linked { Linked self.now }
        ensures { result ≡ unused self.now.tables group }
    {
        self.tables.is_closed(group) && self.live(group) == 0
    }

    pub fn free_group(&mut self, group: usize)
        requires { group < 32 }
        ensures tables { self.new.tables ≡ with_state self.old.tables group Free }
        ensures linked { Linked self.old → Linked self.new }
    {
        self.tables.states[group] = GroupState::Free;
    }

    pub fn open(&mut self, group: usize)
        requires { group < 32 }
        ensures tables { self.new.tables ≡ opened self.old.tables group }
        ensures linked { Linked self.old → Linked self.new }
    {
        self.tables.states[group] = GroupState::Open;
        self.tables.last = Some(group);
    }

    // The open group is closed.
    pub fn shut(&mut self, group: usize)
        requires { group < 32 }
        ensures tables { self.new.tables ≡ shut self.old.tables group }
        ensures linked { Linked self.old → Linked self.new }
    {
        self.tables.states[group] = GroupState::Closed;
        self.tables.filled = 0;
    }

    // One position more of the open group is filled.
    pub fn fill_next(&mut self)
        requires { self.old.tables.filled < 8 }
        ensures tables { self.new.tables ≡ grown self.old.tables }
        ensures linked { Linked self.old → Linked self.new }
    {
        self.tables.filled += 1;
    }
}
