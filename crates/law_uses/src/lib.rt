//! What callers of a pager draw from its law: a page that is written and read back, a server that is brought back and rebuilt.
#![tactic(auto)]

mod reading_back;
mod restoring;

pub use reading_back::write_then_read;
pub use restoring::{Pageout, Restoration, restore};
