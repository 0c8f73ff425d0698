ghost use Rattle.law.specs.Runs.{returns};
ghost use Rattle.law_uses.specs.Restoring.{AdvancesOnce, Repaired, Restored};
ghost use Rattle.pager.specs.Moments.{AtMost, moment_of};
ghost use Rattle.pager.specs.Pulls.{HandsOn};
ghost use Rattle.std.specs.Option.{option_copied};
ghost use Rattle.std.specs.Prelude.{◌≡◌, IfErr, IfOk, OnErr, Err as Denied};

use bank::{Bank, PullableBank};
use page::{Fault, Page};
use pager::{Pager, RebuildJob};
use parity_log::Counts;

/// A page that is to be paged out, and the bytes that it is to have.
#[derive(Clone, Copy, PartialEq, Eq, Debug)]
pub struct Pageout {
    pub page: usize,
    pub bytes: Page,
}

/// What a restoring came to: what its rebuild closed with, in groups, and the first refusal among
/// the pageouts between the steps, if there was one.
#[derive(Clone, Copy, PartialEq, Eq, Debug)]
pub struct Restoration {
    pub counts: Counts,
    pub pageouts: Result<(), Fault>,
}

// A step, and the pageout that is to come after it, if any.
fn advance<B: Bank>(
    pager: &mut Pager<B>,
    job: RebuildJob,
    pageout: Option<&Pageout>,
) -> (RebuildJob, Result<(), Fault>)
    ensures { AdvancesOnce (moment_of B.Bank.count B.Bank.means pager.old.log) job.progress
        (option_copied pageout.entry)
        (moment_of B.Bank.count B.Bank.means pager.new.log) result.0.progress result.1 }
{
    let (further, _) = pager.step(job);
    let answer = match pageout {
        Some(pageout) => pager.pageout(pageout.page, &pageout.bytes.0),
        None => Ok(()),
    };
    (further, answer)
}

/// Brings a server back if it is down, and rebuilds it: a step for each of so many groups, and
/// the next of the pageouts after each. It is refused only where the return is; a pageout that is
/// refused ends nothing, and its fault stands in what the restoring came to.
pub fn restore<B: PullableBank>(
    pager: &mut Pager<B>,
    server: usize,
    groups: usize,
    pageouts: &[Pageout],
) -> Result<Restoration, Fault>
    ensures restored { IfOk result (λ restoration. Restored server groups pageouts.now
        (moment_of B.Bank.count B.Bank.means pager.old.log)
        (moment_of B.Bank.count B.Bank.means pager.new.log) restoration) }
    ensures repaired { IfOk result (λ restoration. Repaired server
        (moment_of B.Bank.count B.Bank.means pager.old.log)
        (moment_of B.Bank.count B.Bank.means pager.new.log) restoration.counts) }

    // Where it is refused, the return was refused so, and that was all.
    ensures refused { IfErr result (λ fault. HandsOn B.PullableBank.backs
        pager.old.log.ledger.tables.shape pager.old.log.bank server (Denied fault)
        pager.new.log.bank) }
    ensures tables { OnErr result (pager.new.log.ledger ≡ pager.old.log.ledger) }
    ensures running { OnErr result (pager.new.log.running ≡ pager.old.log.running) }
    ensures turn { OnErr result (AtMost (moment_of B.Bank.count B.Bank.means pager.old.log)
        (returns server) (moment_of B.Bank.count B.Bank.means pager.new.log)) }
{
    pager.back(server)?;
    let mut job = pager.begin(server)?;
    let mut answer = Ok(());
    // No `?` stands between begin and close: the job would be let go.
    for group in 0..groups {
        let (further, paged_out) = advance(pager, job, pageouts.get(group));
        job = further;
        answer = answer.and(paged_out);
    }
    let counts = job.close();
    Ok(Restoration {
        counts,
        pageouts: answer,
    })
}
