//! Keeps standard input as pages on a mirror of two memory servers, lets one half fall and come back, and reads all of it back.
#![tactic(auto)]

ghost use Rattle.std.specs.Prelude.{◌≤◌, IfOk, length};

use memory::{MOST_SLOTS, Memory};
use mirror::{Half, Mirror};
use page::{Fault, PAGE_SIZE};
use server::PageServer;
use std::alloc::Global;
use std::io::Read;
use std::{fmt, io};

const MOST_BYTES: usize = PAGE_SIZE * MOST_SLOTS;

// Reads the input, and keeps no more of it than there is room for, whatever the reader gives. With room for a byte beside, the end is met without more memory.
fn read_input<R: Read + Drop>(alloc: Global, input: R) -> io::Result<Vec<u8>>
    ensures { IfOk result (λ bytes. length bytes.items ≤ 32768) }
{
    let mut bytes = Vec::with_capacity(alloc, MOST_BYTES + 1)?;
    input.take(MOST_BYTES as u64).read_to_end(&mut bytes)?;
    bytes.truncate(MOST_BYTES);
    Ok(bytes)
}

// Puts the pages, each at the slot of its number.
fn keep<S: PageServer>(server: &mut S, pages: &[[u8; PAGE_SIZE]]) -> Result<(), Fault> {
    for (slot, page) in pages.iter().enumerate() {
        server.put(slot, page)?;
    }
    Ok(())
}

// Gets these pages, and says how many are as they were.
fn read_back<S: PageServer>(server: &mut S, pages: &[[u8; PAGE_SIZE]]) -> Result<usize, Fault> {
    let mut equal = 0;
    for (slot, page) in pages.iter().enumerate() {
        let mut buffer = [0; PAGE_SIZE];
        server.get(slot, &mut buffer)?;
        equal += usize::from(buffer == *page);
    }
    Ok(equal)
}

// All on a mirror: keeps the pages, lets the first half fall and come back, and reads them back.
fn through_a_fall(
    one: &mut [u8],
    two: &mut [u8],
    pages: &[[u8; PAGE_SIZE]],
) -> Result<usize, Fault> {
    let mut mirror = Mirror::new(Memory::new(one, 0), Memory::new(two, 0));
    keep(&mut mirror, pages)?;
    mirror.fall_half(Half::First);
    mirror.back_half(Half::First)?;
    read_back(&mut mirror, pages)
}

// What was done, as a person reads it.
#[derive(Drop)]
struct Report {
    bytes: usize,
    pages: usize,
    equal: usize,
}

impl fmt::Display for Report {
    fn fmt<W: fmt::Write>(&self, f: &mut fmt::Formatter<W>) -> fmt::Result {
        let Report {
            bytes,
            pages,
            equal,
        } = *self;
        let verdict = if equal == pages { "yes" } else { "no" };
        write!(
            f,
            "read       {bytes} bytes of standard input\n\
             kept       {pages} pages of {PAGE_SIZE} bytes on each half of a mirror\n\
             fell       the first half, which came back empty\n\
             read back  {pages} pages\n\
             equal      {verdict}, {equal} of {pages}"
        )
    }
}

fn run(rt: &HostRuntime) -> anyhow::Result<Report> {
    let heap = rt.alloc();
    let mut input = read_input(heap, rt.stdin())?;
    let bytes = input.len();
    input.resize(input.len().next_multiple_of(PAGE_SIZE), 0)?;
    let (pages, _) = input.as_chunks();
    let mut one = vec![in heap; 0u8; MOST_BYTES]?;
    let mut two = vec![in heap; 0u8; MOST_BYTES]?;
    let equal = through_a_fall(&mut one, &mut two, pages)?;
    Ok(Report {
        bytes,
        pages: pages.len(),
        equal,
    })
}

fn main(rt: HostRuntime) -> anyhow::Result<()> {
    let report = run(&rt)?;
    rt.println(report)?;
    Ok(())
}
