ghost use Rattle.std.specs.Prelude.{◌≡◌, Ok as Done};
ghost use Rattle.law.specs.Runs.{Happens, Moment, begins, closes, steps};
ghost use Rattle.parity_log.specs.Rebuilding.{begin as begin_rule, counts, step as step_rule, stepped};
ghost use Rattle.parity_log.specs.Rule.{Ends};
ghost use Rattle.pager.specs.Admitted.{AdmittedJob};
ghost use Rattle.pager.specs.Jobs.{progress_of};
ghost use Rattle.pager.specs.Moments.{Turns, log_state, moment_of};
ghost use Rattle.pager.specs.Order.{Ordered};

use crate::Pager;
use crate::job::RebuildJob;
use crate::log::Log;
use bank::Bank;
use page::{Fault, Layer, Refusal};
use parity_log::{Counts, Progress};

impl<B: Bank> Log<B> {
    // A step, once nothing is objected to.
    fn step_admitted(&mut self, job: RebuildJob) -> RebuildJob
        requires order { Ordered B.Bank.count B.Bank.means self.old }
        requires admitted { AdmittedJob self.old.ledger.tables job.progress }
        ensures order { Ordered B.Bank.count B.Bank.means self.new }
        ensures tables { self.new.ledger ≡ self.old.ledger }
        ensures running { self.new.running ≡ self.old.running }
        ensures ran { Ends B.Bank.steps (step_rule (log_state self.old) job.progress) self.old.bank (stepped (Done tt) result.progress) self.new.bank }
        ensures turn { Turns (moment_of B.Bank.count B.Bank.means self.old) (λ fs. steps job.progress (Done tt) result.progress fs) (moment_of B.Bank.count B.Bank.means self.new) }
    {
        self.visit_next(job)
    }
}

impl<B: Bank> Pager<B> {
    // Begins a rebuild of a data server or, by the number after theirs, of the parity server.
    pub fn begin(&self, server: usize) -> Result<RebuildJob, Fault>
        ensures begun { progress_of result ≡ begin_rule self.now.log.ledger.tables server }
        ensures turn { Happens (moment_of B.Bank.count B.Bank.means self.now.log) (begins server (progress_of result)) (moment_of B.Bank.count B.Bank.means self.now.log) }
    {
        let shape = self.log.ledger.tables.made()?;
        if server > shape.servers {
            return Err(Fault::new(Layer::Log, Refusal::Range));
        }
        let progress = Progress {
            server,
            group: 0,
            rebuilt: 0,
            failed: 0,
            servers: shape.servers,
            groups: shape.groups,
        };
        Ok(RebuildJob { progress })
    }

    // Visits one group for the job, or none past the last, and gives the job back.
    pub fn step(&mut self, job: RebuildJob) -> (RebuildJob, Result<(), Fault>)
        ensures tables { self.new.log.ledger ≡ self.old.log.ledger }
        ensures running { self.new.log.running ≡ self.old.log.running }
        ensures ran { Ends B.Bank.steps (step_rule (log_state self.old.log) job.progress) self.old.log.bank (stepped result.1 result.0.progress) self.new.log.bank }
        ensures turn { Turns (moment_of B.Bank.count B.Bank.means self.old.log) (λ fs. steps job.progress result.1 result.0.progress fs) (moment_of B.Bank.count B.Bank.means self.new.log) }
    {
        match self.log.ledger.tables.admit_job(job.progress) {
            Ok(_) => (self.log.step_admitted(job), Ok(())),
            Err(fault) => (job, Err(fault)),
        }
    }
}

impl RebuildJob {
    // Ends the rebuild, wherever it is; answers what it came to.
    pub fn close(self) -> Counts
        ensures counts { result ≡ counts self.progress }
        ensures turn { (m : Moment) → Happens m (closes self.progress result) m }
    {
        let RebuildJob { progress } = self;
        Counts {
            rebuilt: progress.rebuilt,
            failed: progress.failed,
            unvisited: progress.groups.saturating_sub(progress.group),
        }
    }
}
