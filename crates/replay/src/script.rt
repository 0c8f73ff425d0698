ghost use Rattle.replay.specs.Script.{below_names, byte_of, call_of, call_or_unread, is_plain, lines_of, number_of, parts_left, plain_call, read_call, read_number, read_spares, unended, word_of};
ghost use Rattle.std.specs.Prelude.{◌≡◌, MatchResult};

use crate::parts::Parts;
use page::{Fault, Layer, Refusal};

// The first line of a script.
const NAMES: &[u8] = b"call,number,value";

// How many groups a pager keeps free where a script does not say.
const USUAL_SPARES: u32 = 2;

// One call of a script.
#[derive(Clone, Copy, PartialEq, Eq, Debug)]
pub enum Call {
    Out { page: u32, value: u8 },
    In(u32),
    Free(u32),
    Make { groups: u32, spares: u32 },
    Fall(u32),
    Back(u32),
    Rebuild(u32),
}

impl Call {
    pub fn word(self) -> &'static str
        ensures { result.now ≡ word_of self }
    {
        match self {
            Call::Out { .. } => "out",
            Call::In(_) => "in",
            Call::Free(_) => "free",
            Call::Make { .. } => "make",
            Call::Fall(_) => "fall",
            Call::Back(_) => "back",
            Call::Rebuild(_) => "rebuild",
        }
    }

    // The page, the server, or how many groups.
    pub fn number(self) -> u32
        ensures { result ≡ number_of self }
    {
        match self {
            Call::Out { page, .. } | Call::In(page) | Call::Free(page) => page,
            Call::Make { groups, .. } => groups,
            Call::Fall(server) | Call::Back(server) | Call::Rebuild(server) => server,
        }
    }
}

impl<'a> TryFrom<&'a [u8]> for Call {
    type Error = Fault;

    ghost try_from_gives = { λ line r. r ≡ call_or_unread (read_call line.now) };

    fn try_from(line: &'a [u8]) -> Result<Call, Fault> {
        read_call(line).ok_or(Fault::new(Layer::Replay, Refusal::Unread))
    }
}

// The script without the end of its last line, which may lack it.
fn unended(script: &[u8]) -> &[u8]
    ensures { result.now ≡ unended script.now }
{
    match script {
        [lines @ .., b'\n'] => lines,
        _ => script,
    }
}

// The lines of a script below its line of names. Those names are line 1.
pub fn call_lines(script: &[u8]) -> Result<Parts<'_>, Fault>
    ensures { MatchResult result
        (λ lines. below_names (lines_of script.now) ≡ Ok (parts_left lines))
        (λ fault. below_names (lines_of script.now) ≡ Err fault) }
{
    let mut lines = Parts::new(unended(script), b'\n');
    match lines.next() {
        Some(line) if line == NAMES => Ok(lines),
        _ => Err(Fault::new(Layer::Replay, Refusal::Unread).on_line(1)),
    }
}

// Whether the first digit is no zero, or the only one.
fn is_plain(digits: &[u8]) -> bool
    ensures { result ≡ is_plain digits.now }
{
    matches!(digits, [b'0'] | [b'1'..=b'9', ..])
}

// The number that decimal digits write. Each number has one spelling, so no sign and no leading zeros.
fn read_number(digits: &[u8]) -> Option<u32>
    ensures { result ≡ read_number digits.now }
{
    if is_plain(digits) {
        str::from_utf8(digits).ok()?.parse().ok()
    } else {
        None
    }
}

fn read_byte(value: &[u8]) -> Option<u8>
    ensures { result ≡ byte_of (read_number value.now) }
{
    u8::try_from(read_number(value)?).ok()
}

fn read_spares(value: &[u8]) -> Option<u32>
    ensures { result ≡ read_spares value.now }
{
    if value == b"-".as_slice() {
        Some(USUAL_SPARES)
    } else {
        read_number(value)
    }
}

// The call of a word that takes no value.
fn plain_call(word: &[u8], number: u32) -> Option<Call>
    ensures { result ≡ plain_call word.now number }
{
    if word == b"in".as_slice() {
        Some(Call::In(number))
    } else if word == b"free".as_slice() {
        Some(Call::Free(number))
    } else if word == b"fall".as_slice() {
        Some(Call::Fall(number))
    } else if word == b"back".as_slice() {
        Some(Call::Back(number))
    } else if word == b"rebuild".as_slice() {
        Some(Call::Rebuild(number))
    } else {
        None
    }
}

// The call of a line's three fields.
fn call_of(word: &[u8], number: &[u8], value: &[u8]) -> Option<Call>
    ensures { result ≡ call_of word.now (read_number number.now) value.now }
{
    let number = read_number(number)?;
    if word == b"out".as_slice() {
        let value = read_byte(value)?;
        Some(Call::Out {
            page: number,
            value,
        })
    } else if word == b"make".as_slice() {
        let spares = read_spares(value)?;
        Some(Call::Make {
            groups: number,
            spares,
        })
    } else if value == b"-".as_slice() {
        plain_call(word, number)
    } else {
        None
    }
}

fn read_call(line: &[u8]) -> Option<Call>
    ensures { result ≡ read_call line.now }
{
    let mut fields = Parts::new(line, b',');
    match (fields.next(), fields.next(), fields.next(), fields.next()) {
        (Some(word), Some(number), Some(value), None) => call_of(word, number, value),
        _ => None,
    }
}
