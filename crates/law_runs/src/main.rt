//! Runs of a pager over memory servers that fall: what is lost, what is not, and what a rebuild brings back.
#![tactic(auto)]

mod stories;

use bank::{Bank, End, Pair, PullableBank};
use law_uses::write_then_read;
use memory::Memory;
use page::{Fault, PAGE_SIZE, Page};
use pager::Pager;
use server::Pullable;
use stories::{GROUPS, STORIES, Story, tell};

const SPARES: usize = 2;

const MEMORY: usize = GROUPS * PAGE_SIZE;

// Two data servers and a parity server.
fn three<S: Pullable + Drop>(first: S, second: S, parity: S) -> Pair<S, Pair<S, Pair<S, End>>> {
    Pair(first, Pair(second, Pair(parity, End)))
}

fn tell_over<B: PullableBank + Drop>(
    rt: &HostRuntime,
    bank: B,
    story: Story<'_>,
) -> anyhow::Result<()> {
    let mut pager = Pager::new(bank);
    pager.make(GROUPS, SPARES)?;
    tell(rt, &mut pager, story)
}

fn over_three(rt: &HostRuntime, story: Story<'_>) -> anyhow::Result<()> {
    let mut a = [0u8; MEMORY];
    let mut b = [0u8; MEMORY];
    let mut c = [0u8; MEMORY];
    let (first, second) = (Memory::new(&mut a, 0), Memory::new(&mut b, 0));
    tell_over(rt, three(first, second, Memory::new(&mut c, 0)), story)
}

// The first byte of a page written and read back over a pager not made before.
fn first_back<B: Bank + Drop>(bank: B) -> Result<u8, Fault> {
    let mut buffer = [0u8; PAGE_SIZE];
    write_then_read(&mut Pager::new(bank), &Page::of_value(10).0, &mut buffer)?;
    Ok(buffer[0])
}

fn read_back(rt: &HostRuntime) -> anyhow::Result<()> {
    let mut a = [0u8; MEMORY];
    let mut b = [0u8; MEMORY];
    let mut c = [0u8; MEMORY];
    let (first, second) = (Memory::new(&mut a, 0), Memory::new(&mut b, 0));
    let byte = first_back(three(first, second, Memory::new(&mut c, 0)))?;
    println!(rt; "written and read back: {byte}")?;
    Ok(())
}

fn main(rt: HostRuntime) -> anyhow::Result<()> {
    read_back(&rt)?;
    for story in STORIES {
        over_three(&rt, story)?;
    }
    Ok(())
}
