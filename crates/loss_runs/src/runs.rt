use crate::book::{Book, PAGES};
use bank::PullableBank;
use fickle::{Draws, Odds};
use page::{Fault, PAGE_SIZE, Page};
use pager::Pager;
use parity_log::Counts;

// How a pager is made, and how long it is driven.
#[derive(Clone, Copy)]
pub struct Plan {
    pub groups: usize,
    pub spares: usize,
    pub calls: usize,
    pub odds: Odds,
    pub pulled: Pulled,
}

// A plan carried out with the draws of one seed.
#[derive(Clone, Copy)]
pub struct Run {
    pub plan: Plan,
    pub seed: u32,
}

// Which servers are made to fall, brought back and rebuilt: any of so many, or one alone.
#[derive(Clone, Copy)]
pub enum Pulled {
    AnyOf(u32),
    Only(usize),
}

impl Pulled {
    fn draw(self, draws: &mut Draws) -> usize {
        match self {
            Pulled::AnyOf(servers) => draws.below(servers.max(1)) as usize,
            Pulled::Only(server) => server,
        }
    }
}

// A call on one page, or on a server. A rebuild goes over so many groups.
enum Call {
    Pageout(usize, u8),
    Pagein(usize),
    Free(usize),
    Fall(usize),
    Back(usize),
    Rebuild { server: usize, groups: usize },
}

impl Plan {
    // Nearly half of the calls are pageouts, three in eight pageins, and few are on servers: they come back and are rebuilt more often than they fall.
    fn draw(self, draws: &mut Draws, capacity: usize) -> Call {
        let page = draws.below(65536) as usize % capacity.clamp(1, PAGES);
        match draws.below(128) {
            0..=58 => Call::Pageout(page, draws.below(256) as u8),
            59..=106 => Call::Pagein(page),
            107..=118 => Call::Free(page),
            119 => Call::Fall(self.pulled.draw(draws)),
            120..=123 => Call::Back(self.pulled.draw(draws)),
            _ => Call::Rebuild {
                server: self.pulled.draw(draws),
                groups: self.groups,
            },
        }
    }
}

// A rebuild, with a step for each group.
fn rebuild<B: PullableBank>(
    pager: &mut Pager<B>,
    server: usize,
    groups: usize,
) -> Result<Counts, Fault> {
    let mut job = pager.begin(server)?;
    for _ in 0..groups {
        let (further, _) = pager.step(job);
        job = further;
    }
    Ok(job.close())
}

// One call, held against the book.
fn make_call<B: PullableBank>(pager: &mut Pager<B>, call: Call, book: &mut Book) {
    match call {
        Call::Pageout(page, value) => {
            let done = pager.pageout(page, &Page::of_value(value).0);
            book.paged_out(page, value, done);
        }
        Call::Pagein(page) => {
            let mut buffer = [0; PAGE_SIZE];
            let done = pager.pagein(page, &mut buffer);
            book.paged_in(page, done.map(|()| &buffer));
        }
        Call::Free(page) => book.freed(page, pager.free(page)),
        Call::Fall(server) => book.pulled(pager.fall(server)),
        Call::Back(server) => book.pulled(pager.back(server)),
        Call::Rebuild { server, groups } => book.rebuilt(rebuild(pager, server, groups)),
    }
}

// Drives a pager over this bank by drawn calls on its first pages.
pub fn drive<B: PullableBank + Drop>(bank: B, run: Run, book: &mut Book) -> Result<(), Fault> {
    let Run { plan, seed } = run;
    let mut pager = Pager::new(bank);
    let capacity = pager.make(plan.groups, plan.spares)?;
    let mut draws = Draws::new(seed);
    book.open();
    for _ in 0..plan.calls {
        let call = plan.draw(&mut draws, capacity);
        make_call(&mut pager, call, book);
    }
    Ok(())
}
