ghost use Rattle.page.specs.FaultText.{WorkedTexts, fault_text, place_text};
ghost use Rattle.page.specs.Refusals.{fault_of, in_group, layer_word, named, of_page, on_line, on_slot, same_refusal};
ghost use Rattle.std.specs.Fmt.{DisplaysOnOk};
ghost use Rattle.std.specs.Prelude.{◌≡◌, Some};

use std::error::Error;
use std::fmt;

// Why a call is refused.
#[derive(Clone, Copy, PartialEq, Eq, Debug)]
pub enum Refusal {
    Range = 1,
    Length = 2,
    None = 3,
    Lost = 4,
    Gone = 5,
    Shape = 6,
    Full = 7,
    Worn = 8,
    Unread = 9,
}

// The number that a refusal goes by where only numbers can.
impl From<Refusal> for u8 {
    ghost from_gives = { λ x n. n ≡ (named x).number };

    fn from(refusal: Refusal) -> u8 {
        refusal as u8
    }
}

impl Refusal {
    pub fn word(self) -> &'static str
        ensures { result.now ≡ (named self).word }
    {
        match self {
            Refusal::Range => "range",
            Refusal::Length => "length",
            Refusal::None => "none",
            Refusal::Lost => "lost",
            Refusal::Gone => "gone",
            Refusal::Shape => "shape",
            Refusal::Full => "full",
            Refusal::Worn => "worn",
            Refusal::Unread => "unread",
        }
    }
}

impl fmt::Display for Refusal {
    ghost output = { λ x. Some (named x).word };

    fn fmt<W: fmt::Write>(&self, f: &mut fmt::Formatter<W>) -> fmt::Result {
        f.write_str(self.word())
    }
}

// Who refused.
#[derive(Clone, Copy, PartialEq, Eq, Debug)]
pub enum Layer {
    Server,
    Mirror,
    Log,
    Replay,
}

impl Layer {
    pub fn word(self) -> &'static str
        ensures { result.now ≡ layer_word self }
    {
        match self {
            Layer::Server => "server",
            Layer::Mirror => "mirror",
            Layer::Log => "log",
            Layer::Replay => "replay",
        }
    }
}

impl fmt::Display for Layer {
    ghost output = { λ x. Some (layer_word x) };

    fn fmt<W: fmt::Write>(&self, f: &mut fmt::Formatter<W>) -> fmt::Result {
        f.write_str(self.word())
    }
}

// A refusal, the layer that refused, and the places that were known there.
#[derive(Clone, Copy, PartialEq, Eq, Debug)]
pub struct Fault {
    pub refusal: Refusal,
    pub layer: Layer,
    pub slot: Option<usize>,
    pub page: Option<usize>,
    pub group: Option<usize>,
    pub missing: Option<u16>,
    pub line: Option<usize>,
}

impl Fault {
    // A fault that knows no place yet.
    pub fn new(layer: Layer, refusal: Refusal) -> Fault
        ensures { result ≡ fault_of layer refusal }
    {
        Fault {
            refusal,
            layer,
            slot: None,
            page: None,
            group: None,
            missing: None,
            line: None,
        }
    }

    // The same fault, at a server's slot.
    pub fn at_slot(self, slot: usize) -> Fault
        ensures { result ≡ on_slot slot self }
    {
        Fault {
            slot: Some(slot),
            ..self
        }
    }

    // The same fault, of a page.
    pub fn of_page(self, page: usize) -> Fault
        ensures { result ≡ of_page page self }
    {
        Fault {
            page: Some(page),
            ..self
        }
    }

    // The same fault, in a group with these members missing.
    pub fn in_group(self, group: usize, missing: u16) -> Fault
        ensures { result ≡ in_group group missing self }
    {
        Fault {
            group: Some(group),
            missing: Some(missing),
            ..self
        }
    }

    // The same fault, on a script's line.
    pub fn on_line(self, line: usize) -> Fault
        ensures { result ≡ on_line line self }
    {
        Fault {
            line: Some(line),
            ..self
        }
    }

    // Whether it is this refusal.
    pub fn is(&self, refusal: Refusal) -> bool
        ensures { result ≡ same_refusal self.now.refusal refusal }
    {
        self.refusal == refusal
    }
}

// One place, where it is known.
fn write_place<W: fmt::Write>(
    f: &mut fmt::Formatter<W>,
    name: &str,
    place: Option<usize>,
) -> fmt::Result
    ensures { DisplaysOnOk W.write_str_gives f.old result (Some (place_text name.now place)) f.new }
{
    match place {
        Some(n) => write!(f, ", {name} {n}"),
        None => Ok(()),
    }
}

impl fmt::Display for Fault {
    ghost output = { λ x. Some (fault_text x) };

    fn fmt<W: fmt::Write>(&self, f: &mut fmt::Formatter<W>) -> fmt::Result {
        let Fault { refusal, layer, .. } = *self;
        write!(f, "{layer}: {refusal}")?;
        write_place(f, "slot", self.slot)?;
        write_place(f, "page", self.page)?;
        write_place(f, "group", self.group)?;
        write_place(f, "missing", self.missing.map(usize::from))?;
        write_place(f, "line", self.line)
    }
}

impl Error for Fault {}

/// Three faults, as they are written for a person, were worked out by hand.
pub fn faults_stand()
    ensures texts { WorkedTexts }
{}
