use bank::PullableBank;
use law_uses::{Pageout, Restoration, restore};
use page::{Fault, PAGE_SIZE, Page};
use pager::Pager;
use parity_log::Counts;
use std::fmt;

// How many groups the pager of a story has.
pub const GROUPS: usize = 3;

// Calls one after the other, and what they show.
#[derive(Clone, Copy)]
pub struct Story<'a> {
    title: &'a str,
    acts: &'a [Act<'a>],
}

pub const STORIES: [Story<'static>; 4] = [
    Story {
        title: "one server loses, and is rebuilt; then two do",
        acts: &[
            Act::Out(0, 10),
            Act::Out(1, 20),
            Act::Fall(0),
            Act::In(0),
            Act::Back(0),
            Act::Rebuild(0, &[]),
            Act::Fall(0),
            Act::Fall(2),
            Act::In(0),
            Act::In(1),
            Act::Back(0),
            Act::Back(2),
            Act::Rebuild(0, &[]),
            Act::In(0),
            Act::Out(0, 30),
            Act::In(0),
        ],
    },
    Story {
        title: "a cleaning meets a page that it can't read",
        acts: &[
            Act::Out(0, 10),
            Act::Out(1, 20),
            Act::Out(0, 30),
            Act::Out(0, 40),
            Act::Fall(1),
            Act::Fall(2),
            Act::Out(0, 50),
            Act::In(1),
            Act::Back(1),
            Act::Back(2),
            Act::In(1),
            Act::In(0),
        ],
    },
    Story {
        title: "a pageout is refused as lost",
        acts: &[
            Act::Out(0, 10),
            Act::Fall(0),
            Act::Fall(1),
            Act::Out(1, 20),
            Act::In(1),
            Act::In(0),
            Act::Back(0),
            Act::In(0),
        ],
    },
    Story {
        title: "a rebuild with pageouts between its steps; then another server falls",
        acts: &[
            Act::Out(0, 10),
            Act::Out(1, 20),
            Act::Fall(1),
            Act::Back(1),
            Act::Rebuild(1, &[(0, 70), (1, 80)]),
            Act::Fall(0),
            Act::In(0),
            Act::In(1),
        ],
    },
];

// One call of a story. A rebuild brings its server back first; it has the pageouts that come between its steps, each a page and a value.
#[derive(Clone, Copy)]
enum Act<'a> {
    Out(usize, u8),
    In(usize),
    Fall(usize),
    Back(usize),
    Rebuild(usize, &'a [(usize, u8)]),
}

impl fmt::Display for Act<'_> {
    fn fmt<W: fmt::Write>(&self, f: &mut fmt::Formatter<W>) -> fmt::Result {
        match *self {
            Act::Out(page, _) => write!(f, "out {page}"),
            Act::In(page) => write!(f, "in {page}"),
            Act::Fall(server) => write!(f, "fall {server}"),
            Act::Back(server) => write!(f, "back {server}"),
            Act::Rebuild(server, _) => write!(f, "rebuild {server}"),
        }
    }
}

// What a call gave: nothing more, a page that begins with this byte, or what a rebuild came to.
#[derive(Clone, Copy)]
enum Given {
    Done,
    Page(u8),
    Rebuilt(Counts),
}

impl fmt::Display for Given {
    fn fmt<W: fmt::Write>(&self, f: &mut fmt::Formatter<W>) -> fmt::Result {
        match *self {
            Given::Done => write!(f, "done"),
            Given::Page(first) => write!(f, "{first}"),
            Given::Rebuilt(
                Counts {
                    rebuilt,
                    failed,
                    unvisited,
                },
            ) => write!(
                f,
                "{rebuilt} rebuilt, {failed} failed, {unvisited} unvisited"
            ),
        }
    }
}

fn page_out<B: PullableBank>(pager: &mut Pager<B>, page: usize, value: u8) -> Result<(), Fault> {
    pager.pageout(page, &Page::of_value(value).0)
}

fn page_in<B: PullableBank>(pager: &mut Pager<B>, page: usize) -> Result<u8, Fault> {
    let mut buffer = [0u8; PAGE_SIZE];
    pager.pagein(page, &mut buffer)?;
    Ok(buffer[0])
}

// The pageouts of a rebuild, at most one after each of its steps.
fn rebuild<B: PullableBank>(
    pager: &mut Pager<B>,
    server: usize,
    values: &[(usize, u8)],
) -> Result<Counts, Fault> {
    let mut pageouts = [Pageout {
        page: 0,
        bytes: Page::zero(),
    }; GROUPS];
    for (pageout, &(page, value)) in pageouts.iter_mut().zip(values) {
        *pageout = Pageout {
            page,
            bytes: Page::of_value(value),
        };
    }
    let asked = pageouts.get(..values.len()).unwrap_or(&pageouts);
    let Restoration { counts, pageouts } = restore(pager, server, GROUPS, asked)?;
    pageouts?;
    Ok(counts)
}

fn carry_out<B: PullableBank>(pager: &mut Pager<B>, act: Act<'_>) -> Result<Given, Fault> {
    match act {
        Act::Out(page, value) => page_out(pager, page, value).map(|()| Given::Done),
        Act::In(page) => page_in(pager, page).map(Given::Page),
        Act::Fall(server) => pager.fall(server).map(|()| Given::Done),
        Act::Back(server) => pager.back(server).map(|()| Given::Done),
        Act::Rebuild(server, pageouts) => rebuild(pager, server, pageouts).map(Given::Rebuilt),
    }
}

pub fn tell<B: PullableBank>(
    rt: &HostRuntime,
    pager: &mut Pager<B>,
    story: Story<'_>,
) -> anyhow::Result<()> {
    rt.println(story.title)?;
    for act in story.acts {
        match carry_out(pager, *act) {
            Ok(given) => println!(rt; "  {act}: {given}")?,
            Err(fault) => println!(rt; "  {act}: {fault}")?,
        }
    }
    Ok(())
}
