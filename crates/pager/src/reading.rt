ghost use Rattle.std.specs.Prelude.{◌≡◌, ◌<◌, length, IfErr, Err as Denied};
ghost use Rattle.page.specs.declared.faults.Fault.{Fault as Refused};
ghost use Rattle.parity_log.specs.Reading.{Gathered, gather as gather_rule, kept, or_restored, read as read_rule};
ghost use Rattle.parity_log.specs.Rule.{Ends};
ghost use Rattle.pager.specs.Reads.{AskedOne, Gathers, Unread, reading_of};
ghost use Rattle.pager.specs.Moments.{log_state};

use crate::log::Log;
use bank::Bank;
use page::Page;
use parity_log::{GroupState, Shape};

// Asks one member: adds what it delivers, or answers its weight.
fn ask_member<B: Bank>(
    bank: &mut B,
    shape: Shape,
    group: usize,
    server: usize,
    sum: &mut Page,
) -> u16
    requires { server < 16 }
    ensures { AskedOne B.Bank.steps shape.servers group server bank.old sum.old.0 result bank.new sum.new.0 }
{
    let mut page = Page::zero();
    match bank.get(server, group, &mut page.0) {
        Ok(_) => {
            sum.add(&page.0);
            0
        }
        Err(_) => shape.weight(server),
    }
}

impl<B: Bank> Log<B> {
    // The member that is asked of nobody: the running parity of an open group.
    fn kept_page(&self, group: usize) -> Page
        requires { group < 32 }
        ensures { result.0 ≡ kept (log_state self.now) group }
    {
        match self.ledger.tables.states[group] {
            GroupState::Open => self.running,
            GroupState::Free | GroupState::Closed => Page::zero(),
        }
    }

    // Asks every member of a group but one, whatever the others answer: their sum and the kept page, or else the set of those that refused.
    pub(crate) fn gather(&mut self, group: usize, but: usize) -> Result<Page, u16>
        requires { group < 32 }
        ensures tables { self.new.ledger ≡ self.old.ledger }
        ensures running { self.new.running ≡ self.old.running }
        ensures few { IfErr result (λ missing. missing < 512) }
        ensures ran { (q : Gathered) × Ends B.Bank.steps (gather_rule (log_state self.old) group but) self.old.bank q self.new.bank × Gathers q result }
    {
        let shape = self.ledger.tables.shape;
        let count = self.ledger.tables.member_count(group);
        let mut sum = self.kept_page(group);
        let mut missing = 0;
        for server in 0..count {
            if server != but {
                missing += ask_member(&mut self.bank, shape, group, server, &mut sum);
            }
        }
        if missing == 0 { Ok(sum) } else { Err(missing) }
    }

    // The page at a position from all other members, its own having refused, whatever its fault; answers the missing set where it can't.
    fn restore(&mut self, group: usize, position: usize, buffer: &mut [u8]) -> Result<(), u16>
        requires group { group < 32 }
        requires position { position < 8 }
        requires whole { length buffer.old ≡ 512 }
        ensures tables { self.new.ledger ≡ self.old.ledger }
        ensures running { self.new.running ≡ self.old.running }
        ensures ran { (f : Refused) → Ends B.Bank.steps (or_restored (log_state self.old) group position (Denied f)) self.old.bank (reading_of result buffer.new) self.new.bank }
        ensures left { Unread result buffer.old buffer.new }
    {
        match self.gather(group, position) {
            Ok(sum) => {
                buffer.copy_from_slice(&sum.0);
                Ok(())
            }
            Err(others) => Err(others + self.ledger.tables.shape.weight(position)),
        }
    }

    // Reads the page at a position: from its own member, or else from all the others; answers the missing set where it can't.
    pub(crate) fn read(
        &mut self,
        group: usize,
        position: usize,
        buffer: &mut [u8],
    ) -> Result<(), u16>
        requires group { group < 32 }
        requires position { position < 8 }
        requires whole { length buffer.old ≡ 512 }
        ensures tables { self.new.ledger ≡ self.old.ledger }
        ensures running { self.new.running ≡ self.old.running }
        ensures ran { Ends B.Bank.steps (read_rule (log_state self.old) group position) self.old.bank (reading_of result buffer.new) self.new.bank }
        ensures left { Unread result buffer.old buffer.new }
    {
        match self.bank.get(position, group, buffer) {
            Ok(_) => Ok(()),
            Err(_) => self.restore(group, position, buffer),
        }
    }
}
