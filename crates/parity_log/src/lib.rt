//! The parity log: its tables, and the rules of what is asked of the servers.
#![tactic(auto)]

mod choices;
mod ledger;
mod members;
mod owners;
mod records;
mod shapes;

ghost use Rattle.parity_log.specs.Pigeonhole.{Pigeonhole};
ghost use Rattle.parity_log.specs.Worked.{WorkedFacts};

pub use ledger::Ledger;
pub use records::{
    Counts, GroupState, MOST_GROUPS, MOST_PAGES, MOST_SERVERS, PageState, Progress, Shape, Tables,
    Visit,
};

// The facts of the rules that were worked out by hand, and the bound on a cleaning, hold.
pub fn rules_stand()
    ensures worked { WorkedFacts }
    ensures pigeonhole { Pigeonhole }
{}
