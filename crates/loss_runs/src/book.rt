use page::{Fault, PAGE_SIZE, Page, Refusal};
use parity_log::{Counts, MOST_GROUPS};
use std::fmt;
use std::num::Saturating;

pub const PAGES: usize = 16;

// What a page should be.
#[derive(Clone, Copy, Default)]
enum Booked {
    #[default]
    Nothing,
    Value(u8),
    Lost,
}

// What the calls of all runs came to.
#[derive(Clone, Copy, Default)]
pub struct Tally {
    outs: Saturating<u32>,
    lost_outs: Saturating<u32>,
    frees: Saturating<u32>,
    equal: Saturating<u32>,
    lost: Saturating<u32>,
    none: Saturating<u32>,
    rebuilt: Saturating<u32>,
    failed: Saturating<u32>,
    wrong: Saturating<u32>,
}

impl fmt::Display for Tally {
    fn fmt<W: fmt::Write>(&self, f: &mut fmt::Formatter<W>) -> fmt::Result {
        let Tally {
            outs,
            lost_outs,
            frees,
            equal,
            lost,
            none,
            rebuilt,
            failed,
            wrong,
        } = *self;
        write!(
            f,
            "{outs} pageouts done, {lost_outs} lost, {frees} frees\n  \
             pageins: {equal} as booked, {lost} lost, {none} of pages not out; \
             groups: {rebuilt} rebuilt, {failed} failed; {wrong} wrong"
        )
    }
}

// One run's pages, and what the calls of this run and those before it came to.
#[derive(Clone, Copy, Default)]
pub struct Book {
    pages: [Booked; PAGES],
    tally: Tally,
}

impl Book {
    pub fn tally(&self) -> Tally {
        self.tally
    }

    // A run begins: no page is out.
    pub fn open(&mut self) {
        self.pages = Default::default();
    }

    fn at(&self, page: usize) -> Booked {
        self.pages.get(page).copied().unwrap_or_default()
    }

    fn note(&mut self, page: usize, booked: Booked) {
        if let Some(entry) = self.pages.get_mut(page) {
            *entry = booked;
        }
    }

    // A pageout of this value.
    pub fn paged_out(&mut self, page: usize, value: u8, done: Result<(), Fault>) {
        match done.map_err(|fault| fault.refusal) {
            Ok(()) => {
                self.note(page, Booked::Value(value));
                self.tally.outs += 1;
            }
            Err(Refusal::Lost) => {
                self.note(page, Booked::Lost);
                self.tally.lost_outs += 1;
            }
            Err(_) => self.misled(),
        }
    }

    // A pagein that delivered these bytes. A cleaning may have lost the page, which no answer told.
    pub fn paged_in(&mut self, page: usize, delivered: Result<&[u8; PAGE_SIZE], Fault>) {
        match (self.at(page), delivered.map_err(|fault| fault.refusal)) {
            (Booked::Value(value), Ok(bytes)) if Page::of_value(value).0 == *bytes => {
                self.tally.equal += 1
            }
            (Booked::Value(_), Err(Refusal::Lost)) => {
                self.note(page, Booked::Lost);
                self.tally.lost += 1;
            }
            (Booked::Lost, Err(Refusal::Lost)) => self.tally.lost += 1,
            (Booked::Nothing, Err(Refusal::None)) => self.tally.none += 1,
            _ => self.misled(),
        }
    }

    pub fn freed(&mut self, page: usize, done: Result<(), Fault>) {
        match done {
            Ok(()) => {
                self.note(page, Booked::Nothing);
                self.tally.frees += 1;
            }
            Err(_) => self.misled(),
        }
    }

    // A server that was made to fall or brought back: neither is refused here.
    pub fn pulled(&mut self, done: Result<(), Fault>) {
        if done.is_err() {
            self.misled();
        }
    }

    // A rebuild that went to the last group leaves none unvisited.
    pub fn rebuilt(&mut self, done: Result<Counts, Fault>) {
        let Ok(counts) = done else {
            return self.misled();
        };
        if counts.unvisited != 0 {
            self.misled();
        }
        let tally = &mut self.tally;
        tally.rebuilt += counts.rebuilt.min(MOST_GROUPS) as u32;
        tally.failed += counts.failed.min(MOST_GROUPS) as u32;
    }

    fn misled(&mut self) {
        self.tally.wrong += 1;
    }
}
