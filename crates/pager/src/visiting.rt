ghost use Rattle.std.specs.Prelude.{◌≡◌, ◌+◌, ◌<◌, ◌≤◌, None as Nothing, Ok as Done, Err as Denied};
ghost use Rattle.page.specs.declared.faults.Fault.{Fault as Refused};
ghost use Rattle.parity_log.specs.Rebuilding.{counted as counted_rule, mend as mend_rule, step_unless, stepped, visit as visit_rule};
ghost use Rattle.parity_log.specs.Rule.{Ends};
ghost use Rattle.pager.specs.Moments.{log_state};

use crate::job::RebuildJob;
use crate::log::Log;
use bank::Bank;
use page::Page;
use parity_log::{Progress, Visit};

impl RebuildJob {
    // One group further, with what was found there counted.
    fn counted(self, found: Visit) -> RebuildJob
        requires { self.progress.group < 32 }
        ensures { result.progress ≡ counted_rule self.progress found }
    {
        let RebuildJob { progress } = self;
        let (rebuilt, failed) = match found {
            Visit::Intact => (0, 0),
            Visit::Rebuilt => (1, 0),
            Visit::Failed => (0, 1),
        };
        let progress = Progress {
            group: progress.group + 1,
            rebuilt: progress.rebuilt + rebuilt,
            failed: progress.failed + failed,
            ..progress
        };
        RebuildJob { progress }
    }
}

impl<B: Bank> Log<B> {
    // A member refused, whatever its fault: all others are asked for it, and it is put back if none of them refused.
    fn mend(&mut self, server: usize, group: usize) -> Visit
        requires { group < 32 }
        ensures tables { self.new.ledger ≡ self.old.ledger }
        ensures running { self.new.running ≡ self.old.running }
        ensures ran { (f : Refused) → Ends B.Bank.steps (mend_rule (log_state self.old) server group (Denied f)) self.old.bank result self.new.bank }
    {
        let Ok(sum) = self.gather(group, server) else {
            return Visit::Failed;
        };
        match self.bank.put(server, group, &sum.0) {
            Ok(_) => Visit::Rebuilt,
            Err(_) => Visit::Failed,
        }
    }

    // Visits a group for a server: a member there is mended unless it delivers. An old position is visited as any other, since the parity contains it.
    fn visit(&mut self, server: usize, group: usize) -> Visit
        requires { group < 32 }
        ensures tables { self.new.ledger ≡ self.old.ledger }
        ensures running { self.new.running ≡ self.old.running }
        ensures ran { Ends B.Bank.steps (visit_rule (log_state self.old) server group) self.old.bank result self.new.bank }
    {
        if server >= self.ledger.tables.member_count(group) {
            return Visit::Intact;
        }
        let mut page = Page::zero();
        match self.bank.get(server, group, &mut page.0) {
            Ok(_) => Visit::Intact,
            Err(_) => self.mend(server, group),
        }
    }

    // Visits the group that a rebuild is at, unless it is past the last.
    pub(crate) fn visit_next(&mut self, job: RebuildJob) -> RebuildJob
        requires { job.progress.groups ≤ 32 }
        ensures tables { self.new.ledger ≡ self.old.ledger }
        ensures running { self.new.running ≡ self.old.running }
        ensures ran { Ends B.Bank.steps (step_unless Nothing (log_state self.old) job.progress) self.old.bank (stepped (Done tt) result.progress) self.new.bank }
    {
        if job.progress.group >= job.progress.groups {
            return job;
        }
        let found = self.visit(job.progress.server, job.progress.group);
        job.counted(found)
    }
}
