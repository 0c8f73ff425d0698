ghost use Rattle.memory.specs.Stands.{store_of};
ghost use Rattle.replay.specs.Listing.{EndsWithin};
ghost use Rattle.session.specs.Banks.{ReplaysOnBank};
ghost use Rattle.session.specs.Memories.{listed, replay_on, replay_over};
ghost use Rattle.std.specs.Prelude.{◌≡◌, ◌∷◌, [], length};

use crate::running::Session;
use bank::{End, Pair, PullableBank};
use memory::Memory;
use replay::{Halt, replay};
use std::mem::replace;

// Takes a server out, and leaves one over no bytes in its place.
fn take<'a>(server: &mut Memory<'a>) -> Memory<'a>
    ensures { result ≡ server.old }
{
    replace(server, Memory::new(&mut [], 0))
}

// Runs a script on a pager over this bank, and hands the bank back.
fn replay_bank<B: PullableBank>(
    bank: B,
    script: &[u8],
    listing: &mut [u8],
) -> (Result<usize, Halt>, B)
    ensures replayed { ReplaysOnBank B.Bank.count B.Bank.means B.Bank.steps
        B.PullableBank.falls B.PullableBank.backs
        script.now bank listing.old result.0 result.1 listing.new }
    ensures within { EndsWithin (length listing.old) result.0 }
{
    let mut session = Session::new(bank);
    let outcome = replay(&mut session, script, listing);
    (outcome, session.into_bank())
}

// Runs a script over these servers.
fn replay_on(
    script: &[u8],
    a: &mut Memory<'_>,
    b: &mut Memory<'_>,
    c: &mut Memory<'_>,
    d: &mut Memory<'_>,
    parity: &mut Memory<'_>,
    listing: &mut [u8],
) -> Result<usize, Halt>
    ensures replayed { listed result
        (store_of a.new ∷ store_of b.new ∷ store_of c.new ∷ store_of d.new ∷ store_of parity.new ∷ [])
        listing.new
        ≡ replay_on script.now
        (store_of a.old ∷ store_of b.old ∷ store_of c.old ∷ store_of d.old ∷ store_of parity.old ∷ [])
        listing.old }
    ensures within { EndsWithin (length listing.old) result }
    ensures lends_a { a.new.bytes.ghost_name ≡ a.old.bytes.ghost_name }
    ensures lends_b { b.new.bytes.ghost_name ≡ b.old.bytes.ghost_name }
    ensures lends_c { c.new.bytes.ghost_name ≡ c.old.bytes.ghost_name }
    ensures lends_d { d.new.bytes.ghost_name ≡ d.old.bytes.ghost_name }
    ensures lends_parity { parity.new.bytes.ghost_name ≡ parity.old.bytes.ghost_name }
{
    let rest = Pair(take(c), Pair(take(d), Pair(take(parity), End)));
    let bank = Pair(take(a), Pair(take(b), rest));
    let (outcome, left) = replay_bank(bank, script, listing);
    let Pair(first, Pair(second, Pair(third, Pair(fourth, Pair(last, End))))) = left;
    *a = first;
    *b = second;
    *c = third;
    *d = fourth;
    *parity = last;
    outcome
}

/// Runs a script over five memory servers, and writes its listing. On `Ok` the listing has so many bytes. The replay halts where a line of it does not fit.
pub fn replay_over_five(
    script: &[u8],
    a: &mut [u8],
    b: &mut [u8],
    c: &mut [u8],
    d: &mut [u8],
    parity: &mut [u8],
    listing: &mut [u8],
) -> Result<usize, Halt>
    ensures replayed { listed result (a.new ∷ b.new ∷ c.new ∷ d.new ∷ parity.new ∷ []) listing.new
        ≡ replay_over script.now (a.old ∷ b.old ∷ c.old ∷ d.old ∷ parity.old ∷ []) listing.old }
    ensures within { EndsWithin (length listing.old) result }
{
    let mut first = Memory::new(a, 0);
    let mut second = Memory::new(b, 0);
    let mut third = Memory::new(c, 0);
    let mut fourth = Memory::new(d, 0);
    let mut last = Memory::new(parity, 0);
    replay_on(
        script,
        &mut first,
        &mut second,
        &mut third,
        &mut fourth,
        &mut last,
        listing,
    )
}
