ghost use Rattle.page.specs.declared.faults.Fault.{Fault as Refused};
ghost use Rattle.replay.specs.Listing.{EndsWithin};
ghost use Rattle.replay.specs.Replaying.{IsReplay, ReplaysLine, ReplaysLines, ReplaysScript, halt_end};
ghost use Rattle.replay.specs.Script.{parts_left};
ghost use Rattle.replay.specs.declared.listing.Detail.{Detail as Shown};
ghost use Rattle.replay.specs.declared.script.Call.{Call as Asked};
ghost use Rattle.std.specs.Prelude.{◌≡◌, ◌^◌, ◌<◌, ◌≤◌, length, Result as Outcome};

use crate::listing::{Detail, Entry, Halt, write_entry, write_header};
use crate::parts::Parts;
use crate::script::{Call, call_lines};
use page::{Fault, Refusal};

// What the calls of a script are run on.
pub trait Runner {
    // The kind's own rule: what a call answers, and what it leaves.
    ghost runs: { Self → Asked → Outcome Shown Refused → Self → Type 0 };

    fn run(&mut self, call: Call) -> Result<Detail, Fault>
        ensures { runs self.old call result self.new };
}

// Runs the call of a line, and writes what it came to. A line that can't be read halts the replay, and so does an entry that does not fit.
fn replay_line<R: Runner>(
    runner: &mut R,
    number: usize,
    line: &[u8],
    listing: &mut [u8],
    count: usize,
) -> Result<usize, Halt>
    ensures { ReplaysLine R.runs number line.now runner.old listing.old count
        result runner.new listing.new }
{
    let call = Call::try_from(line).map_err(|fault| Halt {
        count,
        fault: fault.on_line(number),
    })?;
    let answer = runner.run(call);
    write_entry(listing, count, &Entry::run(number, call, answer))
}

// Runs the lines below the line of names, one after the other.
fn replay_lines<R: Runner>(
    runner: &mut R,
    lines: Parts<'_>,
    listing: &mut [u8],
    mut count: usize,
) -> Result<usize, Halt>
    requires { length (parts_left lines) < 2 ^ 63 }
    ensures { ReplaysLines R.runs 2 (parts_left lines.entry) runner.old listing.old count
        result runner.new listing.new }
{
    let mut number = 2;
    for line in lines {
        count = replay_line(runner, number, line, listing, count)?;
        number += 1;
    }
    Ok(count)
}

// Replays a script up to its end, or to the line that halts it.
fn replay_script<R: Runner>(
    runner: &mut R,
    script: &[u8],
    listing: &mut [u8],
) -> Result<usize, Halt>
    ensures { ReplaysScript R.runs script.now runner.old listing.old result runner.new listing.new }
{
    let count = write_header(listing)?;
    let lines = call_lines(script).map_err(|fault| Halt { count, fault })?;
    replay_lines(runner, lines, listing, count)
}

// How a replay ends that was halted: a line that can't be read is listed, as the last one. A full listing ends it as it is.
fn end_halted(listing: &mut [u8], halt: Halt) -> Result<usize, Halt>
    ensures outcome { result ≡ (halt_end halt listing.old).0 }
    ensures listing { listing.new ≡ (halt_end halt listing.old).1 }
{
    let Halt { count, fault } = halt;
    match (fault.refusal, fault.line) {
        (Refusal::Unread, Some(line)) => {
            write_entry(listing, count, &Entry::unread(line, fault))
        }
        _ => Err(halt),
    }
}

/// Replays a script: its calls run one after another, and the listing says what each came to. On `Ok` the listing has so many bytes. A replay halts only where a line of the listing does not fit, and its fault has the script's line that it is for.
pub fn replay<R: Runner>(runner: &mut R, script: &[u8], listing: &mut [u8]) -> Result<usize, Halt>
    ensures replayed { IsReplay R.runs script.now runner.old listing.old
        result runner.new listing.new }
    ensures within { EndsWithin (length listing.old) result }
{
    match replay_script(runner, script, listing) {
        Ok(count) => Ok(count),
        Err(halt) => end_halted(listing, halt),
    }
}
