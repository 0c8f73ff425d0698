//! Pages standard input out through a pager over five memory servers, one of which is down, and reads it back.
#![tactic(auto)]

ghost use Rattle.std.specs.Prelude.{◌≤◌, IfOk, length};

use bank::{Bank, End, Pair};
use memory::Memory;
use page::{Fault, PAGE_SIZE, Page};
use pager::Pager;
use std::alloc::Global;
use std::io::Read;
use std::{fmt, io};

const GROUPS: usize = 8;

const SPARES: usize = 2;

const MEMORY: usize = PAGE_SIZE * GROUPS;

const MOST_BYTES: usize = 12288;

const ROUNDS: u8 = 3;

// Reads the input, and keeps no more of it than there is room for, whatever the reader gives. With room for a byte beside, the end is met without more memory.
fn read_input<R: Read + Drop>(alloc: Global, input: R) -> io::Result<Vec<u8>>
    ensures { IfOk result (λ bytes. length bytes.items ≤ 12288) }
{
    let mut bytes = Vec::with_capacity(alloc, MOST_BYTES + 1)?;
    input.take(MOST_BYTES as u64).read_to_end(&mut bytes)?;
    bytes.truncate(MOST_BYTES);
    Ok(bytes)
}

// Pages out a test page for each number.
fn page_out_tests<B: Bank>(pager: &mut Pager<B>, pages: usize, value: u8) -> Result<(), Fault> {
    for page in 0..pages {
        pager.pageout(page, &Page::of_value(value).0)?;
    }
    Ok(())
}

// Pages out these pages, each under its number.
fn page_out_input<B: Bank>(pager: &mut Pager<B>, pages: &[[u8; PAGE_SIZE]]) -> Result<(), Fault> {
    for (number, page) in pages.iter().enumerate() {
        pager.pageout(number, page)?;
    }
    Ok(())
}

// Pages these pages in, and says how many are as they were.
fn page_in<B: Bank>(pager: &mut Pager<B>, pages: &[[u8; PAGE_SIZE]]) -> Result<usize, Fault> {
    let mut equal = 0;
    for (number, page) in pages.iter().enumerate() {
        let mut buffer = [0; PAGE_SIZE];
        pager.pagein(number, &mut buffer)?;
        equal += usize::from(buffer == *page);
    }
    Ok(equal)
}

// Older contents first, in several rounds, so that groups fill and are cleaned; then the input, and all of it back.
fn exercise<B: Bank>(pager: &mut Pager<B>, pages: &[[u8; PAGE_SIZE]]) -> Result<usize, Fault> {
    for round in 0..ROUNDS {
        page_out_tests(pager, pages.len(), round)?;
    }
    page_out_input(pager, pages)?;
    page_in(pager, pages)
}

// What was done, as a person reads it.
#[derive(Drop)]
struct Report {
    capacity: usize,
    pages: usize,
    equal: usize,
}

impl fmt::Display for Report {
    fn fmt<W: fmt::Write>(&self, f: &mut fmt::Formatter<W>) -> fmt::Result {
        let Report {
            capacity,
            pages,
            equal,
        } = *self;
        let verdict = if equal == pages { "yes" } else { "no" };
        write!(
            f,
            "bank       4 data servers and a parity server; data server 1 is down\n\
             made       {GROUPS} groups, {SPARES} of them spare: room for {capacity} pages\n\
             paged out  {pages} pages, {ROUNDS} times as test pages and then as they are\n\
             paged in   {pages} pages\n\
             equal      {verdict}, {equal} of {pages}"
        )
    }
}

// Makes a pager over this bank and exercises it with these pages.
fn drive<B: Bank + Drop>(bank: B, pages: &[[u8; PAGE_SIZE]]) -> Result<Report, Fault> {
    let mut pager = Pager::new(bank);
    let capacity = pager.make(GROUPS, SPARES)?;
    let equal = exercise(&mut pager, pages)?;
    Ok(Report {
        capacity,
        pages: pages.len(),
        equal,
    })
}

// A memory server at its last era is down from the start.
fn over_five(pages: &[[u8; PAGE_SIZE]]) -> Result<Report, Fault> {
    let mut a = [0u8; MEMORY];
    let mut b = [0u8; MEMORY];
    let mut c = [0u8; MEMORY];
    let mut d = [0u8; MEMORY];
    let mut parity = [0u8; MEMORY];
    let rest = Pair(
        Memory::new(&mut c, 0),
        Pair(
            Memory::new(&mut d, 0),
            Pair(Memory::new(&mut parity, 0), End),
        ),
    );
    let second = Memory::new(&mut b, u32::MAX);
    drive(Pair(Memory::new(&mut a, 0), Pair(second, rest)), pages)
}

fn run(rt: &HostRuntime) -> anyhow::Result<Report> {
    let mut input = read_input(rt.alloc(), rt.stdin())?;
    input.resize(input.len().next_multiple_of(PAGE_SIZE), 0)?;
    let (pages, _) = input.as_chunks();
    let report = over_five(pages)?;
    Ok(report)
}

fn main(rt: HostRuntime) -> anyhow::Result<()> {
    let report = run(&rt)?;
    rt.println(report)?;
    Ok(())
}
