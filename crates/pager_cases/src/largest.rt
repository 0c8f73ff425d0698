use crate::shapes::LARGEST;
use bank::{Bank, End, Pair, PullableBank};
use law_uses::restore;
use memory::Memory;
use page::{Fault, PAGE_SIZE, Page};
use pager::Pager;
use parity_log::{Counts, MOST_GROUPS, MOST_PAGES, MOST_SERVERS};
use server::Pullable;
use std::fmt;
use std::num::Saturating;

// A slot for each group.
const MEMORY: usize = MOST_GROUPS * PAGE_SIZE;

// Two pages of group 0 and one of each of the groups 1 to 6, which fill group 30; and one for which group 0 has to be cleaned into group 31.
const AGAIN: [u8; 9] = [0, 1, 8, 16, 24, 32, 40, 48, 56];

// The value that each page was paged out with last, and how many pageouts there were.
#[derive(Drop)]
struct Book {
    values: [u8; MOST_PAGES],
    pageouts: Saturating<u32>,
}

impl Book {
    fn new() -> Book {
        Book {
            values: [0; MOST_PAGES],
            pageouts: Saturating(0),
        }
    }

    fn page_out<B: Bank>(
        &mut self,
        pager: &mut Pager<B>,
        page: u8,
        value: u8,
    ) -> Result<(), Fault> {
        let page = page as usize;
        pager.pageout(page, &Page::of_value(value).0)?;
        self.pageouts += 1;
        if let Some(booked) = self.values.get_mut(page) {
            *booked = value;
        }
        Ok(())
    }

    fn page_all_out<B: Bank>(&mut self, pager: &mut Pager<B>) -> Result<Found, Fault> {
        for page in 0..MOST_PAGES as u8 {
            self.page_out(pager, page, page)?;
        }
        Ok(self.out(pager))
    }

    fn page_out_again<B: Bank>(&mut self, pager: &mut Pager<B>) -> Result<Found, Fault> {
        for page in AGAIN {
            self.page_out(pager, page, 255 - page)?;
        }
        Ok(self.out(pager))
    }

    fn out<B: Bank>(&self, pager: &mut Pager<B>) -> Found {
        Found::Out {
            pageouts: self.pageouts,
            pages: self.delivered(pager),
        }
    }

    fn down<B: PullableBank>(&self, pager: &mut Pager<B>, server: usize) -> Result<Found, Fault> {
        pager.fall(server)?;
        let pages = self.delivered(pager);
        Ok(Found::Down { server, pages })
    }

    // How many pages are delivered as booked.
    fn delivered<B: Bank>(&self, pager: &mut Pager<B>) -> Saturating<u32> {
        let mut delivered = Saturating(0);
        for (page, &value) in self.values.iter().enumerate() {
            let mut buffer = [0; PAGE_SIZE];
            let done = pager.pagein(page, &mut buffer).is_ok();
            if done && buffer == Page::of_value(value).0 {
                delivered += 1;
            }
        }
        delivered
    }
}

// How many pages were as booked, after so many pageouts or while a server was down; what a rebuild came to; how a pagein was answered.
#[derive(Clone, Copy)]
enum Found {
    Out {
        pageouts: Saturating<u32>,
        pages: Saturating<u32>,
    },
    Down {
        server: usize,
        pages: Saturating<u32>,
    },
    Back {
        server: usize,
        counts: Counts,
    },
    Answer {
        page: usize,
        answer: Result<(), Fault>,
    },
}

impl fmt::Display for Found {
    fn fmt<W: fmt::Write>(&self, f: &mut fmt::Formatter<W>) -> fmt::Result {
        match *self {
            Found::Out { pageouts, pages } => write!(
                f,
                "  {pageouts} pageouts: {pages} pages as booked"
            ),
            Found::Down { server, pages } => write!(
                f,
                "  server {server} down: {pages} pages as booked"
            ),
            Found::Back { server, counts } => {
                let Counts {
                    rebuilt,
                    failed,
                    unvisited,
                } = counts;
                write!(
                    f,
                    "  server {server} back: {rebuilt} rebuilt, {failed} failed, {unvisited} unvisited"
                )
            }
            Found::Answer {
                page,
                answer: Ok(()),
            } => write!(f, "  page {page}: done"),
            Found::Answer {
                page,
                answer: Err(fault),
            } => write!(f, "  page {page}: {fault}"),
        }
    }
}

fn back<B: PullableBank>(pager: &mut Pager<B>, server: usize) -> Result<Found, Fault> {
    let counts = restore(pager, server, MOST_GROUPS, &[])?.counts;
    Ok(Found::Back { server, counts })
}

fn answer<B: Bank>(pager: &mut Pager<B>, page: usize) -> Found {
    let answer = pager.pagein(page, &mut [0; PAGE_SIZE]);
    Found::Answer { page, answer }
}

type Passage = [Found; 10];

// The parity server is the last. Of the two servers that are down in the end, 5 and 0, page 7 is on the first since the cleaning.
fn page_through<B: PullableBank>(pager: &mut Pager<B>) -> Result<Passage, Fault> {
    let mut book = Book::new();
    Ok([
        book.page_all_out(pager)?,
        book.page_out_again(pager)?,
        book.down(pager, 3)?,
        back(pager, 3)?,
        book.down(pager, MOST_SERVERS)?,
        back(pager, MOST_SERVERS)?,
        book.down(pager, 5)?,
        answer(pager, MOST_PAGES),
        book.down(pager, 0)?,
        answer(pager, 7),
    ])
}

fn over<B: PullableBank + Drop>(bank: B) -> Result<Passage, Fault> {
    let mut pager = Pager::new(bank);
    LARGEST.make(&mut pager)?;
    page_through(&mut pager)
}

// Three servers before the rest of a bank.
fn over_three_more<S: Pullable + Drop, B: PullableBank + Drop>(
    (a, b, c): (S, S, S),
    rest: B,
) -> Result<Passage, Fault> {
    over(Pair(a, Pair(b, Pair(c, rest))))
}

fn over_six_more<S: Pullable + Drop, B: PullableBank + Drop>(
    first: (S, S, S),
    (d, e, f): (S, S, S),
    rest: B,
) -> Result<Passage, Fault> {
    over_three_more(first, Pair(d, Pair(e, Pair(f, rest))))
}

fn over_nine<S: Pullable + Drop>(
    first: (S, S, S),
    second: (S, S, S),
    (g, h, parity): (S, S, S),
) -> Result<Passage, Fault> {
    over_six_more(first, second, Pair(g, Pair(h, Pair(parity, End))))
}

fn over_memories() -> Result<Passage, Fault> {
    let mut a = [0u8; MEMORY];
    let mut b = [0u8; MEMORY];
    let mut c = [0u8; MEMORY];
    let mut d = [0u8; MEMORY];
    let mut e = [0u8; MEMORY];
    let mut f = [0u8; MEMORY];
    let mut g = [0u8; MEMORY];
    let mut h = [0u8; MEMORY];
    let mut parity = [0u8; MEMORY];
    over_nine(
        (
            Memory::new(&mut a, 0),
            Memory::new(&mut b, 0),
            Memory::new(&mut c, 0),
        ),
        (
            Memory::new(&mut d, 0),
            Memory::new(&mut e, 0),
            Memory::new(&mut f, 0),
        ),
        (
            Memory::new(&mut g, 0),
            Memory::new(&mut h, 0),
            Memory::new(&mut parity, 0),
        ),
    )
}

pub fn all(rt: &HostRuntime) -> anyhow::Result<()> {
    println!(rt; "S {MOST_SERVERS}, {LARGEST}:")?;
    for found in over_memories()? {
        rt.println(found)?;
    }
    Ok(())
}
