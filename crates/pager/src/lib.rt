//! A pager over any bank of page servers.
#![tactic(auto)]

mod cleaning;
mod job;
mod log;
mod making;
mod pagein;
mod pageout;
mod placing;
mod pulling;
mod reading;
mod visiting;

ghost use Rattle.pager.specs.Order.{Ordered};

use bank::Bank;
pub use job::RebuildJob;
use log::Log;

// A parity log between calls.
#[derive(Drop)]
pub struct Pager<B: Bank> {
    log: Log<B>,
    pub ghost ordered: { Ordered B.Bank.count B.Bank.means log },
}
