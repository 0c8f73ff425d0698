ghost use Rattle.lister.specs.Printing.{AppendsPart, IsScriptOf, Lists, listing_of};
ghost use Rattle.replay.specs.Transcript.{bytes_counted};
ghost use Rattle.replay.specs.Listing.{EndsWithin};
ghost use Rattle.std.specs.Io.KnownBytes.{Appends};
ghost use Rattle.std.specs.Prelude.{◌≡◌, IfOk, OnErr, OnOk, length, take};

use crate::error::ListError;
use replay::Halt;
use session::replay_over_five;
use std::alloc::Global;
use std::io;
use std::io::{ErrorKind, Read, Write};

/// How many bytes of a script are read, and how many each memory and the listing have.
pub const BYTES: usize = 8192;

// Reads a script, as far as there is room for it.
fn read_script<R: Read + Drop>(alloc: Global, input: R) -> io::Result<Vec<u8>>
    ensures { IfOk result (λ script. IsScriptOf (R.remaining input) script.items) }
{
    let mut script = Vec::new(alloc);
    input.take(BYTES as u64).read_to_end(&mut script)?;
    Ok(script)
}

// Replays a script over blank memories, and hands its listing out.
fn replay_blank(script: &[u8]) -> (Result<usize, Halt>, [u8; BYTES])
    ensures outcome { result.0 ≡ (listing_of script.now).outcome }
    ensures listing { result.1 ≡ (listing_of script.now).listing }
    ensures within { EndsWithin (length result.1) result.0 }
{
    let mut a = [0u8; BYTES];
    let mut b = [0u8; BYTES];
    let mut c = [0u8; BYTES];
    let mut d = [0u8; BYTES];
    let mut parity = [0u8; BYTES];
    let mut listing = [0u8; BYTES];
    let outcome = replay_over_five(
        script,
        &mut a,
        &mut b,
        &mut c,
        &mut d,
        &mut parity,
        &mut listing,
    );
    (outcome, listing)
}

// The bytes of a listing that its replay wrote, which are its first.
fn written_part(listing: &[u8], outcome: Result<usize, Halt>) -> &[u8]
    requires { EndsWithin (length listing.now) outcome }
    ensures { result.now ≡ take (bytes_counted outcome) listing.now }
{
    match outcome {
        Ok(count) => &listing[..count],
        Err(halt) => &listing[..halt.count],
    }
}

// Writes these bytes, in as many writes as it takes. Where one fails, the first of them may have been written.
fn write_out<W: Write>(output: &mut W, bytes: &[u8]) -> io::Result<()>
    ensures ok { OnOk result (Appends (W.contents output.old) (W.contents output.new) bytes.now) }
    ensures err { OnErr result
        (AppendsPart (W.contents output.old) (W.contents output.new) bytes.now) }
{
    let mut count = 0;
    // Nothing says that a writer is not interrupted for ever, so this loop counts its turns.
    for _ in 0..u64::MAX {
        if count == bytes.len() {
            return Ok(());
        }
        match output.write(&bytes[count..]) {
            Ok(0) => return Err(ErrorKind::WriteZero.into()),
            Ok(more) => count += more,
            Err(error) => {
                if error.kind() != ErrorKind::Interrupted {
                    return Err(error);
                }
            }
        }
    }
    Err(ErrorKind::TimedOut.into())
}

/// Lists the script on `input`: reads its first 8,192 bytes, replays it over five memories of as many zeros, and prints just the bytes of its listing on `output`. Where a listing would have more than 8,192 bytes, its whole lines are printed, and the replay's halt is the error.
pub fn list<R: Read + Drop, W: Write>(
    alloc: Global,
    input: R,
    output: &mut W,
) -> Result<usize, ListError>
    ensures { Lists (R.remaining input) (W.contents output.old) (W.contents output.new) result }
{
    let script = read_script(alloc, input).map_err(ListError::Input)?;
    let (outcome, listing) = replay_blank(&script);
    write_out(output, written_part(&listing, outcome)).map_err(ListError::Output)?;
    outcome.map_err(ListError::Halted)
}
