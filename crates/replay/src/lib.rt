//! A script of calls, run on anything that runs calls, and the listing of what each call came to.
#![tactic(auto)]

mod listing;
mod parts;
mod replaying;
mod script;

ghost use Rattle.replay.specs.Worked.{NumbersAreRead, NumbersHaveOneSpelling, WorkedCalls, WorkedLines, WorkedListing, WorkedUnread};

pub use listing::{Detail, Entry, Halt, answer_of, write_entry, write_header};
pub use parts::Parts;
pub use replaying::{Runner, replay};
pub use script::{Call, call_lines};

// What was worked out by hand of scripts and listings holds, and each number has one spelling.
pub fn replay_stands()
    ensures read { NumbersAreRead }
    ensures spelled { NumbersHaveOneSpelling }
    ensures lines { WorkedLines }
    ensures calls { WorkedCalls }
    ensures unread { WorkedUnread }
    ensures listing { WorkedListing }
{}
