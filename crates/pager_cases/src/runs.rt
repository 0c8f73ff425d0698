use crate::shapes::Shape;
use bank::{Bank, End, Pair};
use fickle::Draws;
use memory::Memory;
use page::{Fault, PAGE_SIZE, Page};
use pager::Pager;
use server::PageServer;
use std::fmt;
use std::num::Saturating;

const MEMORY: usize = 16384;

const PAGES: usize = 16;

// What each page should be, and what the calls came to.
#[derive(Default, Drop)]
struct Tally {
    book: [Option<u8>; PAGES],
    outs: Saturating<u32>,
    frees: Saturating<u32>,
    equal: Saturating<u32>,
    none: Saturating<u32>,
    wrong: Saturating<u32>,
}

impl Tally {
    fn booked(&self, page: usize) -> Option<u8> {
        *self.book.get(page)?
    }

    fn note(&mut self, page: usize, value: Option<u8>) {
        if let Some(booked) = self.book.get_mut(page) {
            *booked = value;
        }
    }

    fn paged_out(&mut self, page: usize, value: u8) {
        self.note(page, Some(value));
        self.outs += 1;
    }

    // Counts one pagein, by what the book has.
    fn paged_in(&mut self, page: usize, delivered: Option<&[u8; PAGE_SIZE]>) {
        match (self.booked(page), delivered) {
            (Some(value), Some(bytes)) if Page::of_value(value).0 == *bytes => { self.equal += 1 }
            (None, None) => self.none += 1,
            _ => self.wrong += 1,
        }
    }

    fn freed(&mut self, page: usize) {
        self.note(page, None);
        self.frees += 1;
    }
}

// One call, drawn from the sequence.
fn call<B: Bank>(pager: &mut Pager<B>, draws: &mut Draws, tally: &mut Tally) -> Result<(), Fault> {
    let kind = draws.below(8);
    let page = draws.below(PAGES as u32) as usize;
    match kind {
        0..=3 => {
            let value = draws.below(256) as u8;
            pager.pageout(page, &Page::of_value(value).0)?;
            tally.paged_out(page, value);
        }
        4..=6 => {
            let mut buffer = [0; PAGE_SIZE];
            let done = pager.pagein(page, &mut buffer).ok();
            tally.paged_in(page, done.map(|()| &buffer));
        }
        _ => {
            pager.free(page)?;
            tally.freed(page);
        }
    }
    Ok(())
}

fn calls<B: Bank>(pager: &mut Pager<B>, tally: &mut Tally) -> Result<(), Fault> {
    let mut draws = Draws::new(1);
    for _ in 0..4000 {
        call(pager, &mut draws, tally)?;
    }
    Ok(())
}

// How a pager over four data servers is made, the second of them from this era on.
#[derive(Clone, Copy)]
struct Run {
    shape: Shape,
    era: u32,
}

impl Run {
    fn drive<B: Bank + Drop>(self, bank: B) -> Result<Report, Fault> {
        let mut pager = Pager::new(bank);
        self.shape.make(&mut pager)?;
        let mut tally = Tally::default();
        calls(&mut pager, &mut tally)?;
        Ok(Report { run: self, tally })
    }

    fn drive_five<S: PageServer + Drop>(
        self,
        (a, b): (S, S),
        (c, d, e): (S, S, S),
    ) -> Result<Report, Fault> {
        let rest = Pair(c, Pair(d, Pair(e, End)));
        self.drive(Pair(a, Pair(b, rest)))
    }

    fn over_five(self) -> Result<Report, Fault> {
        let mut a = [0u8; MEMORY];
        let mut b = [0u8; MEMORY];
        let mut c = [0u8; MEMORY];
        let mut d = [0u8; MEMORY];
        let mut e = [0u8; MEMORY];
        let first = (Memory::new(&mut a, 0), Memory::new(&mut b, self.era));
        let rest = (
            Memory::new(&mut c, 0),
            Memory::new(&mut d, 0),
            Memory::new(&mut e, 0),
        );
        self.drive_five(first, rest)
    }
}

// What a run came to, as a person reads it.
#[derive(Drop)]
struct Report {
    run: Run,
    tally: Tally,
}

impl fmt::Display for Report {
    fn fmt<W: fmt::Write>(&self, f: &mut fmt::Formatter<W>) -> fmt::Result {
        let Run { shape, era } = self.run;
        let Tally {
            outs,
            frees,
            equal,
            none,
            wrong,
            ..
        } = self.tally;
        writeln!(
            f,
            "{shape}, server 1 at era {era}: {outs} pageouts, {frees} frees"
        )?;
        write!(
            f,
            "  pageins: {equal} as booked, {none} of pages not out, {wrong} wrong"
        )
    }
}

pub fn all(rt: &HostRuntime) -> anyhow::Result<()> {
    for (groups, spares, era) in [(6usize, 2usize, 0u32), (8, 4, 0), (6, 2, u32::MAX)] {
        let shape = Shape { groups, spares };
        let report = Run { shape, era }.over_five()?;
        rt.println(report)?;
    }
    Ok(())
}
