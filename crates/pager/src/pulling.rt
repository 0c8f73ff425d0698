ghost use Rattle.bank.specs.Pulling.{Fell};
ghost use Rattle.law.specs.Runs.{loses, returns};
ghost use Rattle.pager.specs.Moments.{AtMost, moment_of};
ghost use Rattle.pager.specs.Order.{Ordered};
ghost use Rattle.pager.specs.Pulls.{HandsOn, Meets};
ghost use Rattle.server.specs.Pulls.{Backs};
ghost use Rattle.std.specs.Prelude.{◌≡◌};

use crate::Pager;
use crate::log::Log;
use bank::PullableBank;
use page::Fault;

impl<B: PullableBank> Log<B> {
    // The bank's server falls, whatever the pager's shape.
    fn fall_in_bank(&mut self, server: usize) -> Result<(), Fault>
        requires { Ordered B.Bank.count B.Bank.means self.old }
        ensures order { Ordered B.Bank.count B.Bank.means self.new }
        ensures tables { self.new.ledger ≡ self.old.ledger }
        ensures running { self.new.running ≡ self.old.running }
        ensures falls { B.PullableBank.falls self.old.bank server result self.new.bank }
        ensures meets { Meets B.Bank.count B.Bank.means Fell self.old.bank server result self.new.bank }
        ensures turn { AtMost (moment_of B.Bank.count B.Bank.means self.old) (loses server) (moment_of B.Bank.count B.Bank.means self.new) }
    {
        self.bank.fall(server)
    }

    // The bank's server is brought back, whatever the pager's shape.
    fn back_in_bank(&mut self, server: usize) -> Result<(), Fault>
        requires { Ordered B.Bank.count B.Bank.means self.old }
        ensures order { Ordered B.Bank.count B.Bank.means self.new }
        ensures tables { self.new.ledger ≡ self.old.ledger }
        ensures running { self.new.running ≡ self.old.running }
        ensures backs { B.PullableBank.backs self.old.bank server result self.new.bank }
        ensures meets { Meets B.Bank.count B.Bank.means Backs self.old.bank server result self.new.bank }
        ensures turn { AtMost (moment_of B.Bank.count B.Bank.means self.old) (returns server) (moment_of B.Bank.count B.Bank.means self.new) }
    {
        self.bank.back(server)
    }
}

impl<B: PullableBank> Pager<B> {
    // Makes a server fall.
    pub fn fall(&mut self, server: usize) -> Result<(), Fault>
        ensures tables { self.new.log.ledger ≡ self.old.log.ledger }
        ensures running { self.new.log.running ≡ self.old.log.running }
        ensures falls { HandsOn B.PullableBank.falls self.old.log.ledger.tables.shape self.old.log.bank server result self.new.log.bank }
        ensures meets { HandsOn (Meets B.Bank.count B.Bank.means Fell) self.old.log.ledger.tables.shape self.old.log.bank server result self.new.log.bank }
        ensures turn { AtMost (moment_of B.Bank.count B.Bank.means self.old.log) (loses server) (moment_of B.Bank.count B.Bank.means self.new.log) }
    {
        self.log.ledger.tables.made()?;
        self.log.fall_in_bank(server)
    }

    // Brings a server back; what its bank refuses is handed up whole.
    pub fn back(&mut self, server: usize) -> Result<(), Fault>
        ensures tables { self.new.log.ledger ≡ self.old.log.ledger }
        ensures running { self.new.log.running ≡ self.old.log.running }
        ensures backs { HandsOn B.PullableBank.backs self.old.log.ledger.tables.shape self.old.log.bank server result self.new.log.bank }
        ensures meets { HandsOn (Meets B.Bank.count B.Bank.means Backs) self.old.log.ledger.tables.shape self.old.log.bank server result self.new.log.bank }
        ensures turn { AtMost (moment_of B.Bank.count B.Bank.means self.old.log) (returns server) (moment_of B.Bank.count B.Bank.means self.new.log) }
    {
        self.log.ledger.tables.made()?;
        self.log.back_in_bank(server)
    }
}
