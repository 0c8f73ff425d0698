ghost use Rattle.parity_log.specs.LogState.{unmade_log};
ghost use Rattle.parity_log.specs.Rule.{Ends};
ghost use Rattle.pager.specs.Moments.{log_state};
ghost use Rattle.replay.specs.declared.script.Call.TheVariants.{In};
ghost use Rattle.session.specs.Calls.{CallRuns, rebuild as rebuild_rule};
ghost use Rattle.std.specs.Prelude.{◌≡◌};

use bank::PullableBank;
use page::{Fault, Page};
use pager::Pager;
use replay::{Call, Detail, Runner};

// A pager that the calls of a script are run on.
#[derive(Drop)]
pub struct Session<B: PullableBank> {
    pager: Pager<B>,
}

impl<B: PullableBank> Session<B> {
    // A session whose pager is not made yet.
    pub fn new(bank: B) -> Session<B>
        ensures bank { result.pager.log.bank ≡ bank }
        ensures log { log_state result.pager.log ≡ unmade_log }
    {
        let pager = Pager::new(bank);
        Session { pager }
    }

    // The first byte of a page.
    fn read_first(&mut self, page: usize) -> Result<Detail, Fault>
        ensures { CallRuns B.Bank.count B.Bank.means B.Bank.steps B.PullableBank.falls B.PullableBank.backs self.old.pager.log (In page) result self.new.pager.log }
    {
        let mut read = Page::zero();
        self.pager.pagein(page, &mut read.0)?;
        Ok(Detail::Byte(read.0[0]))
    }

    // Rebuilds a server, with a step for each group. No `?` stands between begin and close: the job would be let go.
    fn rebuild(&mut self, server: usize) -> Result<Detail, Fault>
        ensures ran { Ends B.Bank.steps (rebuild_rule (log_state self.old.pager.log) server) self.old.pager.log.bank result self.new.pager.log.bank }
        ensures log { log_state self.new.pager.log ≡ log_state self.old.pager.log }
    {
        let mut job = self.pager.begin(server)?;
        for _ in 0..self.pager.groups() {
            let (further, _) = self.pager.step(job);
            job = further;
        }
        let counts = job.close();
        Ok(Detail::Groups {
            rebuilt: counts.rebuilt,
            failed: counts.failed,
        })
    }

    // Ends the session, and hands its bank back.
    pub fn into_bank(self) -> B
        ensures { result ≡ self.pager.log.bank }
    {
        self.pager.into_bank()
    }
}

impl<B: PullableBank> Runner for Session<B> {
    ghost runs = { λ s call a t. CallRuns B.Bank.count B.Bank.means B.Bank.steps B.PullableBank.falls B.PullableBank.backs s.pager.log call a t.pager.log };

    fn run(&mut self, call: Call) -> Result<Detail, Fault> {
        match call {
            Call::Out { page, value } => self
                .pager
                .pageout(page as usize, &Page::of_value(value).0)
                .map(|_| Detail::Nothing),
            Call::In(page) => self.read_first(page as usize),
            Call::Free(page) => self.pager.free(page as usize).map(|_| Detail::Nothing),
            Call::Make { groups, spares } => self
                .pager
                .make(groups as usize, spares as usize)
                .map(Detail::Pages),
            Call::Fall(server) => self.pager.fall(server as usize).map(|_| Detail::Nothing),
            Call::Back(server) => self.pager.back(server as usize).map(|_| Detail::Nothing),
            Call::Rebuild(server) => self.rebuild(server as usize),
        }
    }
}
