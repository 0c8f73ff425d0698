//! Drives a pager over five memory servers by a load of drawn calls, and prints what they came to.
#![tactic(auto)]

mod checksum;
mod draws;
mod load;

use anyhow::Context;
use bank::{Bank, End, Pair};
use draws::Draws;
use load::Tally;
use memory::Memory;
use page::{Fault, PAGE_SIZE};
use pager::Pager;
use std::env;

const GROUPS: usize = 16;

const SPARES: usize = 4;

const DATA_SERVERS: usize = 4;

const PAGES: usize = (GROUPS - SPARES) * DATA_SERVERS;

const MEMORY: usize = PAGE_SIZE * GROUPS;

const SEED: u64 = 1;

// Where the program is given no number.
const CALLS: u32 = 100000;

fn drive<B: Bank + Drop>(bank: B, calls: u32) -> Result<Tally, Fault> {
    let mut pager = Pager::new(bank);
    pager.make(GROUPS, SPARES)?;
    load::drive(&mut pager, calls, Draws::new(SEED))
}

// Four data servers and the parity server, none of which ever falls.
fn over_five(calls: u32) -> Result<Tally, Fault> {
    let mut a = [0u8; MEMORY];
    let mut b = [0u8; MEMORY];
    let mut c = [0u8; MEMORY];
    let mut d = [0u8; MEMORY];
    let mut parity = [0u8; MEMORY];
    let rest = Pair(
        Memory::new(&mut c, 0),
        Pair(
            Memory::new(&mut d, 0),
            Pair(Memory::new(&mut parity, 0), End),
        ),
    );
    let bank = Pair(Memory::new(&mut a, 0), Pair(Memory::new(&mut b, 0), rest));
    drive(bank, calls)
}

// How many calls to make: the program's argument.
fn calls_wanted(rt: &HostRuntime) -> anyhow::Result<u32> {
    let Some(word) = env::args(rt)?.nth(1) else {
        return Ok(CALLS);
    };
    word.parse::<u32>().context("how many calls to make")
}

fn run(rt: &HostRuntime) -> anyhow::Result<()> {
    let calls = calls_wanted(rt)?;
    let tally = over_five(calls)?;
    rt.println(tally)?;
    Ok(())
}

fn main(rt: HostRuntime) -> anyhow::Result<()> {
    run(&rt)
}
