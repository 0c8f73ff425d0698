//! A script's calls run on a pager over memory servers.
#![tactic(auto)]

mod memories;
mod running;

ghost use Rattle.session.specs.ListingLaws.{ListingLaws};
ghost use Rattle.session.specs.ReadsBack.{ReadsBack};
ghost use Rattle.session.specs.ShapeLaws.{ShapeLaws};
ghost use Rattle.session.specs.Worked.{WorkedMissing, WorkedOrder, WorkedReplays};

pub use memories::replay_over_five;
pub use running::Session;

// Only a making makes a pager, and only once. Every listing has the first lines of the one transcript of its script, and what an `in` shows there was last written. And two scripts come to what was worked out by hand: the listings, the members that are missing, and what servers are asked in which order.
pub fn session_stands()
    ensures shape { ShapeLaws }
    ensures listings { ListingLaws }
    ensures reads { ReadsBack }
    ensures worked { WorkedReplays }
    ensures missing { WorkedMissing }
    ensures order { WorkedOrder }
{}
