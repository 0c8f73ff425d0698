pub const MOST_SERVERS: usize = 8;

pub const MOST_GROUPS: usize = 32;

pub const MOST_PAGES: usize = 240;

// How many data servers, groups and spare groups a pager has. The parity server is beside the data servers.
#[derive(Clone, Copy, PartialEq, Eq, Debug)]
pub struct Shape {
    pub servers: usize,
    pub groups: usize,
    pub spares: usize,
}

// Where a page is. A lost one keeps the group, and the set of members that were missing there.
#[derive(Clone, Copy, PartialEq, Eq, Debug)]
pub enum PageState {
    NotOut,
    Out { group: usize, position: usize },
    Lost { group: usize, missing: u16 },
}

#[derive(Clone, Copy, PartialEq, Eq, Debug)]
pub enum GroupState {
    Free,
    Open,
    Closed,
}

// The log's tables, at the size of the largest shape.
// They hold no page's bytes. `last` is the group opened last, which is the open one if any is; `filled` of its positions are filled.
#[derive(Clone, Copy)]
pub struct Tables {
    pub shape: Shape,
    pub pages: [PageState; MOST_PAGES],
    pub states: [GroupState; MOST_GROUPS],
    pub last: Option<usize>,
    pub filled: usize,
}

// How far a rebuild of a server has come: the group it is at, what it counted, and the numbers of data servers and groups of the pager that it was begun on.
#[derive(Clone, Copy, PartialEq, Eq, Debug)]
pub struct Progress {
    pub server: usize,
    pub group: usize,
    pub rebuilt: usize,
    pub failed: usize,
    pub servers: usize,
    pub groups: usize,
}

// What a rebuild found at a group: nothing to do, a member that it put back, or one that it could not.
#[derive(Clone, Copy, PartialEq, Eq, Debug)]
pub enum Visit {
    Intact,
    Rebuilt,
    Failed,
}

// What a rebuild came to, in groups.
#[derive(Clone, Copy, PartialEq, Eq, Debug)]
pub struct Counts {
    pub rebuilt: usize,
    pub failed: usize,
    pub unvisited: usize,
}
