ghost use Rattle.replay.specs.Listing.{answer_of, answer_text, answer_word, called, count_after, detail_text, header, line_of, missing_text, outcome_within, refusal_text, run_entry, unread_entry, written};
ghost use Rattle.std.specs.Prelude.{◌≡◌};

use crate::script::Call;
use arrayvec::ArrayString;
use itoa::Buffer;
use page::{Fault, Layer, Refusal};

const HEADER: &[u8] = b"line,call,number,answer,detail\n";

// What each server adds to a missing set: the data servers 0 to 3, and the parity server, which goes by 4.
const WEIGHTS: [u16; 5] = [1, 2, 4, 8, 256];

// The longest line: a word has at most seven bytes, and a number twenty.
const MOST_BYTES: usize = 89;

// What a call that was done has to show.
#[derive(Clone, Copy, PartialEq, Eq, Debug)]
pub enum Detail {
    Nothing,
    Pages(usize),
    Byte(u8),
    Groups { rebuilt: usize, failed: usize },
}

// A line of the listing: the script's line, the call that was read there, if one was, and the answer.
#[derive(Clone, Copy, PartialEq, Eq, Debug)]
pub struct Entry {
    pub line: usize,
    pub call: Option<Call>,
    pub answer: Result<Detail, Fault>,
}

/// Why a replay ended before its script did, and how many bytes of the listing were written by then.
#[derive(Clone, Copy, PartialEq, Eq, Debug)]
pub struct Halt {
    pub count: usize,
    pub fault: Fault,
}

// A call's word and number, or two dashes where no call was read.
fn called(call: Option<Call>) -> ArrayString<18>
    ensures { result.bytes ≡ called call }
{
    let mut fields = ArrayString::new();
    match call {
        Some(call) => {
            fields.push_str(call.word());
            fields.push_str(",");
            fields.push_str(Buffer::new().format(call.number()));
        }
        None => fields.push_str("-,-"),
    }
    fields
}

// The servers of a missing set, in ascending order.
fn missing_text(missing: u16) -> ArrayString<41>
    ensures { result.bytes ≡ missing_text missing }
{
    let mut text = ArrayString::new();
    let mut separator = "";
    for (server, weight) in WEIGHTS.iter().enumerate() {
        if missing & *weight != 0 {
            text.push_str(separator);
            text.push_str(Buffer::new().format(server));
            separator = "+";
        }
    }
    text
}

impl Detail {
    fn text(self) -> ArrayString<41>
        ensures { result.bytes ≡ detail_text self }
    {
        let mut text = ArrayString::new();
        match self {
            Detail::Nothing => text.push_str("-"),
            Detail::Pages(count) => text.push_str(Buffer::new().format(count)),
            Detail::Byte(byte) => text.push_str(Buffer::new().format(byte)),
            Detail::Groups { rebuilt, failed } => {
                text.push_str(Buffer::new().format(rebuilt));
                text.push_str("/");
                text.push_str(Buffer::new().format(failed));
            }
        }
        text
    }
}

// What a refusal has to show: for a lost page, the servers that were missing.
fn refusal_text(fault: &Fault) -> ArrayString<41>
    ensures { result.bytes ≡ refusal_text fault.now.refusal fault.now.missing }
{
    match (fault.refusal, fault.missing) {
        (Refusal::Lost, Some(missing)) => missing_text(missing),
        _ => Detail::Nothing.text(),
    }
}

impl Entry {
    // The entry of a call; a fault is told its line.
    pub fn run(line: usize, call: Call, answer: Result<Detail, Fault>) -> Entry
        ensures { result ≡ run_entry line call answer }
    {
        Entry {
            line,
            call: Some(call),
            answer: answer.map_err(|fault| fault.on_line(line)),
        }
    }

    // The entry of a line that can't be read.
    pub fn unread(line: usize, fault: Fault) -> Entry
        ensures { result ≡ unread_entry line fault }
    {
        Entry {
            line,
            call: None,
            answer: Err(fault),
        }
    }

    // The answer's word and what it has to show.
    fn answered(&self) -> (&'static str, ArrayString<41>)
        ensures word { result.0.now ≡ answer_word self.now.answer }
        ensures text { result.1.bytes ≡ answer_text self.now.answer }
    {
        match &self.answer {
            Ok(detail) => ("done", detail.text()),
            Err(fault) => (fault.refusal.word(), refusal_text(fault)),
        }
    }

    // The line's bytes, with its end.
    fn text(&self) -> ArrayString<MOST_BYTES>
        ensures { result.bytes ≡ line_of self.now }
    {
        let (word, detail) = self.answered();
        let mut line = ArrayString::new();
        line.push_str(Buffer::new().format(self.line));
        line.push_str(",");
        line.push_str(called(self.call).as_str());
        line.push_str(",");
        line.push_str(word);
        line.push_str(",");
        line.push_str(detail.as_str());
        line.push_str("\n");
        line
    }
}

// Writes a line, of this line of the script, whole behind the bytes that are written, or nothing where it does not fit: then the listing is full there.
fn write_line(listing: &mut [u8], count: usize, number: usize, line: &[u8]) -> Result<usize, Halt>
    ensures answer { result ≡ count_after listing.old count number line.now }
    ensures bytes { listing.new ≡ written listing.old count line.now }
{
    match count.checked_add(line.len()) {
        Some(end) if end <= listing.len() => {
            listing[count..end].copy_from_slice(line);
            Ok(end)
        }
        _ => Err(Halt {
            count,
            fault: Fault::new(Layer::Replay, Refusal::Full).on_line(number),
        }),
    }
}

// Writes the first line, which goes with the script's line 1, and answers how many bytes it has.
pub fn write_header(listing: &mut [u8]) -> Result<usize, Halt>
    ensures answer { result ≡ count_after listing.old 0 1 header }
    ensures bytes { listing.new ≡ written listing.old 0 header }
{
    write_line(listing, 0, 1, HEADER)
}

// Writes an entry's line behind the bytes that are written, and answers how many there are then.
pub fn write_entry(listing: &mut [u8], count: usize, entry: &Entry) -> Result<usize, Halt>
    ensures answer { result ≡ count_after listing.old count entry.now.line (line_of entry.now) }
    ensures bytes { listing.new ≡ written listing.old count (line_of entry.now) }
{
    write_line(listing, count, entry.line, entry.text().as_bytes())
}

/// A replay's outcome as one number: how many bytes it wrote, as -1 - n where it halted behind n bytes. No buffer has more
/// than `i64::MAX` bytes, and a larger count is taken for that.
pub fn answer_of(outcome: Result<usize, Halt>) -> i64
    ensures { result ≡ answer_of (outcome_within 9223372036854775807 outcome) }
{
    match outcome {
        Ok(count) => i64::try_from(count).unwrap_or(i64::MAX),
        Err(halt) => -1 - i64::try_from(halt.count).unwrap_or(i64::MAX),
    }
}
