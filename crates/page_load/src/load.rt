// The load: calls drawn one after another, and what they came to.
use crate::PAGES;
use crate::checksum::Checksum;
use crate::draws::Draws;
use bank::Bank;
use page::{Fault, PAGE_SIZE, Page, Refusal};
use pager::Pager;
use std::fmt;
use std::num::Saturating;

// How many values a test page can have.
const VALUES: usize = 256;

#[derive(Clone, Copy)]
enum Call {
    Pageout(usize, u8),
    Pagein(usize),
    Free(usize),
}

impl Call {
    // Half of the calls are pageouts, three in eight pageins.
    fn draw(draws: &mut Draws) -> Call {
        let kind = draws.below(8);
        let page = draws.below(PAGES as u64) as usize;
        match kind {
            0..=3 => Call::Pageout(page, draws.below(256) as u8),
            4..=6 => Call::Pagein(page),
            _ => Call::Free(page),
        }
    }
}

// What the calls came to, and a checksum over their answers and over the bytes that were delivered.
#[derive(Clone, Copy)]
pub struct Tally {
    calls: u32,
    pageouts: Saturating<u32>,
    pageins: Saturating<u32>,
    none: Saturating<u32>,
    frees: Saturating<u32>,
    checksum: Checksum,
}

impl fmt::Display for Tally {
    fn fmt<W: fmt::Write>(&self, f: &mut fmt::Formatter<W>) -> fmt::Result {
        let Tally {
            calls,
            pageouts,
            pageins,
            none,
            frees,
            checksum,
        } = *self;
        write!(
            f,
            "calls     {calls}\n\
             pageouts  {pageouts} done\n\
             pageins   {pageins} done, {none} refused as none\n\
             frees     {frees} done\n\
             checksum  {checksum}"
        )
    }
}

impl Tally {
    fn new(calls: u32) -> Tally {
        Tally {
            calls,
            pageouts: Saturating(0),
            pageins: Saturating(0),
            none: Saturating(0),
            frees: Saturating(0),
            checksum: Checksum::new(),
        }
    }

    // An answer goes into the checksum as the refusal's number, done as 0.
    fn answered(&mut self, refused: Option<Refusal>) {
        let number = refused.map_or(0, u8::from);
        self.checksum.add(u64::from(number));
    }

    fn paged_out(&mut self) {
        self.pageouts += 1;
        self.answered(None);
    }

    fn freed(&mut self) {
        self.frees += 1;
        self.answered(None);
    }

    // A pagein may be refused as none, of a page that is not out; any other refusal ends the load.
    fn paged_in(&mut self, done: Result<(), Fault>, buffer: &[u8; PAGE_SIZE]) -> Result<(), Fault> {
        match done {
            Ok(()) => {
                self.pageins += 1;
                self.answered(None);
                self.checksum.add_page(buffer);
                Ok(())
            }
            Err(fault) if fault.is(Refusal::None) => {
                self.none += 1;
                self.answered(Some(fault.refusal));
                Ok(())
            }
            Err(fault) => Err(fault),
        }
    }
}

fn test_pages() -> [Page; VALUES] {
    let mut pages = [Page::zero(); VALUES];
    for value in 0..=u8::MAX {
        pages[usize::from(value)] = Page::of_value(value);
    }
    pages
}

// A load under way. Its test pages are made and its buffer is cleared beforehand, so that each call costs it little.
#[derive(Drop)]
struct Load {
    tests: [Page; VALUES],
    buffer: [u8; PAGE_SIZE],
    tally: Tally,
}

impl Load {
    fn new(calls: u32) -> Load {
        Load {
            tests: test_pages(),
            buffer: [0; PAGE_SIZE],
            tally: Tally::new(calls),
        }
    }

    fn make_call<B: Bank>(&mut self, pager: &mut Pager<B>, call: Call) -> Result<(), Fault> {
        match call {
            Call::Pageout(page, value) => {
                pager.pageout(page, &self.tests[usize::from(value)].0)?;
                self.tally.paged_out();
            }
            Call::Pagein(page) => {
                let done = pager.pagein(page, &mut self.buffer);
                self.tally.paged_in(done, &self.buffer)?;
            }
            Call::Free(page) => {
                pager.free(page)?;
                self.tally.freed();
            }
        }
        Ok(())
    }
}

// So many drawn calls on this pager.
pub fn drive<B: Bank>(pager: &mut Pager<B>, calls: u32, mut draws: Draws) -> Result<Tally, Fault> {
    let mut load = Load::new(calls);
    for _ in 0..calls {
        let call = Call::draw(&mut draws);
        load.make_call(pager, call)?;
    }
    Ok(load.tally)
}
