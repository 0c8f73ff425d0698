//! The replay, for C.
#![tactic(auto)]

ghost use Rattle.session.specs.Memories.{listed, replay_over, with_answer};
ghost use Rattle.std.specs.Prelude.{◌≡◌, ◌∷◌, []};

use replay::answer_of;
use session::replay_over_five;

// Runs a script over five memory servers, and writes its listing. The answer is how many bytes the listing has, as -1 - n where the line behind n bytes did not fit.
#[unsafe(no_mangle)]
pub extern "C" fn molefleece_replay(
    script: &[u8],
    a: &mut [u8],
    b: &mut [u8],
    c: &mut [u8],
    d: &mut [u8],
    parity: &mut [u8],
    listing: &mut [u8],
) -> i64
    ensures { listed result (a.new ∷ b.new ∷ c.new ∷ d.new ∷ parity.new ∷ []) listing.new
        ≡ with_answer (replay_over script.now
        (a.old ∷ b.old ∷ c.old ∷ d.old ∷ parity.old ∷ []) listing.old) }
{
    let outcome = replay_over_five(script, a, b, c, d, parity, listing);
    answer_of(outcome)
}
