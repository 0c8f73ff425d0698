ghost use Rattle.std.specs.Prelude.{◌≡◌, ◌<◌, false, length, Ok as Done};
ghost use Rattle.law.specs.Runs.{frees, pages_out};
ghost use Rattle.parity_log.specs.Order.{SettledLog};
ghost use Rattle.parity_log.specs.Paging.{ending, free as free_rule, pageout, steps as steps_rule, told};
ghost use Rattle.parity_log.specs.Rule.{Ends};
ghost use Rattle.parity_log.specs.Tables.{capacity, page_state};
ghost use Rattle.parity_log.specs.declared.records.PageState.TheVariants.{Out};
ghost use Rattle.pager.specs.Admitted.{Admitted};
ghost use Rattle.pager.specs.Moments.{Turns, log_state, moment_of};
ghost use Rattle.pager.specs.Order.{Ordered};

use crate::Pager;
use crate::log::Log;
use crate::pagein::lost;
use bank::Bank;
use page::{Fault, Layer, PAGE_SIZE, Refusal};
use parity_log::PageState;

impl<B: Bank> Log<B> {
    // After a refused put, the page stays out only if all other members deliver.
    fn judge(&mut self, group: usize, position: usize, page: usize) -> Result<(), Fault>
        requires settled { SettledLog (log_state self.old) }
        requires page { page < capacity self.old.ledger.tables.shape }
        requires there { page_state self.old.ledger.tables page ≡ Out group position }
        ensures settled { SettledLog (log_state self.new) }
        ensures shape { self.new.ledger.tables.shape ≡ self.old.ledger.tables.shape }
        ensures ran { Ends B.Bank.steps (ending (log_state self.old) page group position false) self.old.bank (told result (log_state self.new)) self.new.bank }
    {
        let Err(others) = self.gather(group, position) else {
            return Ok(());
        };
        let missing = others + self.ledger.tables.shape.weight(position);
        self.ledger
            .set_page(page, PageState::Lost { group, missing });
        self.release_old(Some(group));
        Err(lost(page, group, missing))
    }

    // The steps of a pageout, once nothing is wrong with the call.
    fn page_out(&mut self, page: usize, bytes: &[u8; PAGE_SIZE]) -> Result<(), Fault>
        requires settled { SettledLog (log_state self.old) }
        requires page { page < capacity self.old.ledger.tables.shape }
        ensures settled { SettledLog (log_state self.new) }
        ensures shape { self.new.ledger.tables.shape ≡ self.old.ledger.tables.shape }
        ensures ran { Ends B.Bank.steps (steps_rule (log_state self.old) page bytes.now) self.old.bank (told result (log_state self.new)) self.new.bank }
    {
        let group = self.ready();
        let position = self.ledger.tables.filled;
        let state = self.ledger.tables.pages[page];
        let done = self.place(group, page, bytes);
        self.release_old(state.group());
        self.close_full(group);
        if done {
            return Ok(());
        }
        self.judge(group, position, page)
    }
}

// The calls, once nothing is objected to.
impl<B: Bank> Log<B> {
    fn pageout_admitted(&mut self, page: usize, bytes: &[u8]) -> Result<(), Fault>
        requires order { Ordered B.Bank.count B.Bank.means self.old }
        requires admitted { Admitted self.old.ledger.tables page (length bytes.now) }
        ensures order { Ordered B.Bank.count B.Bank.means self.new }
        ensures ran { Ends B.Bank.steps (pageout (log_state self.old) page bytes.now) self.old.bank (told result (log_state self.new)) self.new.bank }
        ensures turn { Turns (moment_of B.Bank.count B.Bank.means self.old) (λ fs. pages_out page bytes.now result fs) (moment_of B.Bank.count B.Bank.means self.new) }
    {
        match <&[u8; PAGE_SIZE]>::try_from(bytes) {
            Ok(whole) => self.page_out(page, whole),
            Err(_) => Err(Fault::new(Layer::Log, Refusal::Length).of_page(page)),
        }
    }

    fn free_admitted(&mut self, page: usize)
        requires order { Ordered B.Bank.count B.Bank.means self.old }
        requires admitted { Admitted self.old.ledger.tables page 512 }
        ensures order { Ordered B.Bank.count B.Bank.means self.new }
        ensures ran { Ends B.Bank.steps (free_rule (log_state self.old) page) self.old.bank (told (Done tt) (log_state self.new)) self.new.bank }
        ensures turn { Turns (moment_of B.Bank.count B.Bank.means self.old) (λ fs. frees page (Done tt) fs) (moment_of B.Bank.count B.Bank.means self.new) }
    {
        let state = self.ledger.tables.pages[page];
        self.ledger.set_page(page, PageState::NotOut);
        self.release_old(state.group());
    }
}

impl<B: Bank> Pager<B> {
    // Puts a page out: into the open group, or one that is opened for it. A page whose put was refused, and that can't be restored, is lost.
    pub fn pageout(&mut self, page: usize, bytes: &[u8]) -> Result<(), Fault>
        ensures ran { Ends B.Bank.steps (pageout (log_state self.old.log) page bytes.now) self.old.log.bank (told result (log_state self.new.log)) self.new.log.bank }
        ensures turn { Turns (moment_of B.Bank.count B.Bank.means self.old.log) (λ fs. pages_out page bytes.now result fs) (moment_of B.Bank.count B.Bank.means self.new.log) }
    {
        self.log.ledger.tables.admit(page, bytes.len())?;
        self.log.pageout_admitted(page, bytes)
    }

    // Lets a page go, whatever it was.
    pub fn free(&mut self, page: usize) -> Result<(), Fault>
        ensures ran { Ends B.Bank.steps (free_rule (log_state self.old.log) page) self.old.log.bank (told result (log_state self.new.log)) self.new.log.bank }
        ensures turn { Turns (moment_of B.Bank.count B.Bank.means self.old.log) (λ fs. frees page result fs) (moment_of B.Bank.count B.Bank.means self.new.log) }
    {
        self.log.ledger.tables.admit(page, PAGE_SIZE)?;
        self.log.free_admitted(page);
        Ok(())
    }
}
