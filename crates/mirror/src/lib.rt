//! Two page servers that hold each page twice.
#![tactic(auto)]

ghost use Rattle.std.specs.Prelude.{◌≡◌, min};
ghost use Rattle.mirror.specs.Joined.{Paired};
ghost use Rattle.mirror.specs.Outliving.{OrderOutlives};
ghost use Rattle.mirror.specs.Rule.{none_or_gone_of, refusal};
ghost use Rattle.page.specs.declared.faults.Refusal.TheVariants.{Length};
ghost use Rattle.mirror.specs.Sweep.{Swept};
ghost use Rattle.server.specs.Meaning.{Empty};

use page::{Fault, Layer, PAGE_SIZE, Refusal};
use server::{PageServer, Pullable, admit};

// Each page goes into both halves, and is there while either holds it.
#[derive(Drop)]
pub struct Mirror<P: PageServer, Q: PageServer> {
    first: P,
    second: Q,
    pub ghost paired: { Paired (P.PageServer.meaning first) (Q.PageServer.meaning second) },
}

#[derive(Clone, Copy, PartialEq, Eq, Debug)]
pub enum Half {
    First,
    Second,
}

// Frees every slot.
fn empty<S: PageServer>(server: &mut S)
    ensures swept { Swept S.PageServer.steps server.old (S.PageServer.meaning server.old).size server.new }
    ensures empty { Empty (S.PageServer.meaning server.new) }
    ensures size { (S.PageServer.meaning server.new).size ≡ (S.PageServer.meaning server.old).size }
{
    for slot in 0..server.size() {
        let _ = server.free(slot);
    }
}

// A wrong length is told before the halves are asked for their sizes, which takes the longer the more mirrors stand in one another.
fn refused_length(slot: usize) -> Fault
    ensures { result ≡ refusal Length slot }
{
    Fault::new(Layer::Mirror, Refusal::Length).at_slot(slot)
}

// Why a get is refused that both halves refused.
fn none_or_gone(one: Fault, two: Fault) -> Refusal
    ensures { result ≡ none_or_gone_of one two }
{
    if one.is(Refusal::None) || two.is(Refusal::None) {
        Refusal::None
    } else {
        Refusal::Gone
    }
}

impl<P: PageServer, Q: PageServer> Mirror<P, Q> {
    ghost use Rattle.mirror.specs.Stands.{means};

    // A mirror that holds nothing: what its halves held may differ, so both are emptied.
    pub fn new(mut first: P, mut second: Q) -> Mirror<P, Q>
        ensures first { Swept P.PageServer.steps first (P.PageServer.meaning first).size result.first }
        ensures second { Swept Q.PageServer.steps second (Q.PageServer.meaning second).size result.second }
        ensures empty { Empty (means P.PageServer.meaning Q.PageServer.meaning result) }
        ensures size { (means P.PageServer.meaning Q.PageServer.meaning result).size ≡ min (P.PageServer.meaning first).size (Q.PageServer.meaning second).size }
    {
        empty(&mut first);
        empty(&mut second);
        Mirror { first, second }
    }
}

impl<P: PageServer, Q: PageServer> PageServer for Mirror<P, Q> {
    ghost use Rattle.mirror.specs.Laws.{mirror_laws};
    ghost use Rattle.mirror.specs.Stands.{Stepped, means};

    ghost meaning = { means P.PageServer.meaning Q.PageServer.meaning };

    ghost steps = { Stepped P.PageServer.meaning Q.PageServer.meaning P.PageServer.steps Q.PageServer.steps };

    ghost laws = { mirror_laws P.PageServer.laws Q.PageServer.laws };

    fn size(&self) -> usize {
        self.first.size().min(self.second.size())
    }

    fn put(&mut self, slot: usize, page: &[u8]) -> Result<(), Fault> {
        if page.len() != PAGE_SIZE {
            return Err(refused_length(slot));
        }
        admit(Layer::Mirror, self.size(), slot, page.len())?;
        let one = self.first.put(slot, page);
        let two = self.second.put(slot, page);
        let gone = Fault::new(Layer::Mirror, Refusal::Gone).at_slot(slot);
        one.or(two).or(Err(gone))
    }

    fn get(&mut self, slot: usize, buffer: &mut [u8]) -> Result<(), Fault> {
        if buffer.len() != PAGE_SIZE {
            return Err(refused_length(slot));
        }
        admit(Layer::Mirror, self.size(), slot, buffer.len())?;
        let Err(one) = self.first.get(slot, buffer) else {
            return Ok(());
        };
        let Err(two) = self.second.get(slot, buffer) else {
            return Ok(());
        };
        Err(Fault::new(Layer::Mirror, none_or_gone(one, two)).at_slot(slot))
    }

    fn free(&mut self, slot: usize) -> Result<(), Fault> {
        admit(Layer::Mirror, self.size(), slot, PAGE_SIZE)?;
        let _ = self.first.free(slot);
        let _ = self.second.free(slot);
        Ok(())
    }
}

impl<P: Pullable, Q: Pullable> Pullable for Mirror<P, Q> {
    ghost use Rattle.mirror.specs.Pulling.{BroughtBack, Fallen};

    ghost falls = { Fallen P.Pullable.falls Q.Pullable.falls };

    ghost backs = { BroughtBack P.Pullable.backs Q.Pullable.backs };

    fn fall(&mut self) {
        self.first.fall();
        self.second.fall();
    }

    fn back(&mut self) -> Result<(), Fault> {
        let one = self.first.back();
        let two = self.second.back();
        let worn = Fault::new(Layer::Mirror, Refusal::Worn);
        one.or(two).or(Err(worn))
    }
}

impl<P: Pullable, Q: Pullable> Mirror<P, Q> {
    ghost use Rattle.mirror.specs.Pulling.{CameBack, Fell, LossAtMost, Moved, ReturnAtMost};
    ghost use Rattle.mirror.specs.Stands.{means};

    // Makes one half fall, and leaves the other.
    pub fn fall_half(&mut self, half: Half)
        ensures moved { Moved half (Fell P.PageServer.meaning P.Pullable.falls) (Fell Q.PageServer.meaning Q.Pullable.falls) self.old self.new }
        ensures meets { LossAtMost (means P.PageServer.meaning Q.PageServer.meaning self.old) (means P.PageServer.meaning Q.PageServer.meaning self.new) }
    {
        match half {
            Half::First => self.first.fall(),
            Half::Second => self.second.fall(),
        }
    }

    // Brings one half back, leaves the other, and hands up its answer.
    pub fn back_half(&mut self, half: Half) -> Result<(), Fault>
        ensures moved { Moved half (CameBack P.PageServer.meaning P.Pullable.backs result) (CameBack Q.PageServer.meaning Q.Pullable.backs result) self.old self.new }
        ensures meets { ReturnAtMost (means P.PageServer.meaning Q.PageServer.meaning self.old) (means P.PageServer.meaning Q.PageServer.meaning self.new) }
    {
        match half {
            Half::First => self.first.back(),
            Half::Second => self.second.back(),
        }
    }
}

/// The halves of a mirror stay so through their losses and returns between calls, and these are to
/// the mirror's callers at most a loss or a return of the mirror.
pub fn mirror_stands()
    ensures outlives { OrderOutlives }
{}
