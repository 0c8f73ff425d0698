ghost use Rattle.std.specs.Prelude.{◌≡◌, ◌+◌, ◌<◌, ◌≤◌, true, leb, is_ok, nat_le};
ghost use Rattle.law.specs.Law.{Lawful};
ghost use Rattle.law.specs.Runs.{Happens, makes};
ghost use Rattle.parity_log.specs.Making.{decided, made_as, making, sizes};
ghost use Rattle.parity_log.specs.LogState.{unmade_log};
ghost use Rattle.pager.specs.Moments.{log_state, moment_of};
ghost use Rattle.pager.specs.Order.{Ordered};
ghost use Rattle.std.specs.List.{list_all};

use crate::Pager;
use crate::log::Log;
use bank::Bank;
use page::{Fault, Layer, Page, Refusal};
use parity_log::{Ledger, Shape};

impl<B: Bank> Log<B> {
    fn has_slots(&self, server: usize, groups: usize) -> bool
        requires { server < B.Bank.count self.now.bank }
        ensures { result ≡ nat_le groups (B.Bank.means self.now.bank server).size }
    {
        self.bank.size(server).is_ok_and(|size| groups <= size)
    }

    // Whether every server has a slot for each group, the parity server too.
    fn all_fit(&self, shape: Shape) -> bool
        requires servers { shape.servers ≤ 8 }
        requires count { B.Bank.count self.now.bank ≡ shape.servers + 1 }
        ensures { result ≡ list_all (leb shape.groups) (sizes (B.Bank.count self.now.bank) (B.Bank.means self.now.bank)) }
    {
        (0..shape.servers + 1).all(|server| self.has_slots(server, shape.groups))
    }

    // The shape over all servers, if this pager has none yet and can have that.
    fn decide(&self, groups: usize, spares: usize) -> Option<Shape>
        ensures { result ≡ decided self.now.ledger.tables (B.Bank.count self.now.bank) (B.Bank.means self.now.bank) groups spares }
    {
        if self.ledger.tables.shape.is_within() {
            return None;
        }
        let servers = self.bank.servers().checked_sub(1)?;
        let shape = Shape {
            servers,
            groups,
            spares,
        };
        (shape.is_within() && self.all_fit(shape)).then_some(shape)
    }
}

impl<B: Bank> Pager<B> {
    // A pager that is not made yet: it has a shape that no pager can have.
    pub fn new(bank: B) -> Pager<B>
        ensures bank { result.log.bank ≡ bank }
        ensures log { log_state result.log ≡ unmade_log }
    {
        let unmade = Shape {
            servers: 0,
            groups: 0,
            spares: 0,
        };
        let log = Log {
            running: Page::zero(),
            ledger: Ledger::new(unmade),
            bank,
        };
        Pager { log }
    }

    // Decides the pager's shape, once; answers how many pages it has. From then on every run of the pager is lawful.
    pub fn make(&mut self, groups: usize, spares: usize) -> Result<usize, Fault>
        ensures bank { self.new.log.bank ≡ self.old.log.bank }
        ensures running { self.new.log.running ≡ self.old.log.running }
        ensures made { making self.old.log.ledger.tables (B.Bank.count self.old.log.bank) (B.Bank.means self.old.log.bank) groups spares ≡ made_as result self.new.log.ledger.tables }
        ensures turn { Happens (moment_of B.Bank.count B.Bank.means self.old.log) (makes groups spares result) (moment_of B.Bank.count B.Bank.means self.new.log) }
        ensures lawful { is_ok result ≡ true → Lawful (moment_of B.Bank.count B.Bank.means self.new.log) }
    {
        let Some(shape) = self.log.decide(groups, spares) else {
            return Err(Fault::new(Layer::Log, Refusal::Shape));
        };
        self.log.ledger = Ledger::new(shape);
        Ok(shape.capacity())
    }

    // How many groups it has: none before it is made.
    pub fn groups(&self) -> usize
        ensures { result ≡ self.now.log.ledger.tables.shape.groups }
    {
        self.log.ledger.tables.shape.groups
    }

    // Ends the pager, and hands its bank back.
    pub fn into_bank(self) -> B
        ensures { result ≡ self.log.bank }
    {
        let Pager { log } = self;
        let Log {
            running: _,
            ledger: _,
            bank,
        } = log;
        bank
    }
}
