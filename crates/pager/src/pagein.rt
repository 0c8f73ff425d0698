ghost use Rattle.law.specs.Runs.{pages_in};
ghost use Rattle.parity_log.specs.Faults.{lost_page};
ghost use Rattle.parity_log.specs.Reading.{pagein as pagein_rule};
ghost use Rattle.parity_log.specs.Rule.{Ends};
ghost use Rattle.pager.specs.Admitted.{Admitted};
ghost use Rattle.pager.specs.Moments.{Turns, log_state, moment_of};
ghost use Rattle.pager.specs.Order.{Ordered};
ghost use Rattle.server.specs.Calls.{Left, filled};
ghost use Rattle.std.specs.Prelude.{◌≡◌, length};

use crate::Pager;
use crate::log::Log;
use bank::Bank;
use page::{Fault, Layer, Refusal};
use parity_log::PageState;

// The fault of a page that is lost, with the members that were missing in its group.
pub fn lost(page: usize, group: usize, missing: u16) -> Fault
    ensures { result ≡ lost_page page group missing }
{
    Fault::new(Layer::Log, Refusal::Lost)
        .of_page(page)
        .in_group(group, missing)
}

impl<B: Bank> Log<B> {
    // The call, once nothing is objected to.
    fn pagein_admitted(&mut self, page: usize, buffer: &mut [u8]) -> Result<(), Fault>
        requires order { Ordered B.Bank.count B.Bank.means self.old }
        requires admitted { Admitted self.old.ledger.tables page (length buffer.old) }
        ensures order { Ordered B.Bank.count B.Bank.means self.new }
        ensures ran { Ends B.Bank.steps (pagein_rule (log_state self.old) page (length buffer.old)) self.old.bank (filled result buffer.new) self.new.bank }
        ensures tables { self.new.ledger ≡ self.old.ledger }
        ensures running { self.new.running ≡ self.old.running }
        ensures left { Left result buffer.old buffer.new }
        ensures turn { Turns (moment_of B.Bank.count B.Bank.means self.old) (λ fs. pages_in page (length buffer.old) (filled result buffer.new) fs) (moment_of B.Bank.count B.Bank.means self.new) }
    {
        let state = self.ledger.tables.pages[page];
        match state {
            PageState::NotOut => Err(Fault::new(Layer::Log, Refusal::None).of_page(page)),
            PageState::Lost { group, missing } => Err(lost(page, group, missing)),
            PageState::Out { group, position } => self
                .read(group, position, buffer)
                .map_err(|missing| lost(page, group, missing)),
        }
    }
}

impl<B: Bank> Pager<B> {
    // Reads a page into the buffer. A page that can't be read now stays out: its servers may come back.
    pub fn pagein(&mut self, page: usize, buffer: &mut [u8]) -> Result<(), Fault>
        ensures ran { Ends B.Bank.steps (pagein_rule (log_state self.old.log) page (length buffer.old)) self.old.log.bank (filled result buffer.new) self.new.log.bank }
        ensures tables { self.new.log.ledger ≡ self.old.log.ledger }
        ensures running { self.new.log.running ≡ self.old.log.running }
        ensures left { Left result buffer.old buffer.new }
        ensures turn { Turns (moment_of B.Bank.count B.Bank.means self.old.log) (λ fs. pages_in page (length buffer.old) (filled result buffer.new) fs) (moment_of B.Bank.count B.Bank.means self.new.log) }
    {
        self.log.ledger.tables.admit(page, buffer.len())?;
        self.log.pagein_admitted(page, buffer)
    }
}
