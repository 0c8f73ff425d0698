//! Replays the scripts of a folder over memories of its own, and prints what each came to.
#![tactic(auto)]

mod cases;
mod memories;
mod outcome;

use anyhow::Context;
use cases::Case;
use memories::{Memories, Sizes, USUAL};
use outcome::Outcome;
use std::{env, fs};

// The script that is replayed over listings of other lengths too, and twice over the same memories.
const WORKED: &str = "worked_example";

// The scripts that are replayed over memories of other sizes too.
const SIZED: [&str; 3] = [WORKED, "make_32_usual", "make_32_31"];

// How many bytes each data server and the parity server have: none, a byte less than a slot, one slot, three slots, a byte too few on one side, and more slots than a server uses.
const SIZES: [(usize, usize); 7] = [
    (0, 0),
    (511, 511),
    (512, 512),
    (1536, 1536),
    (1536, 1535),
    (1535, 1536),
    (33280, 33280),
];

// The names of a folder's scripts, in order.
fn script_names(rt: &HostRuntime, folder: &str) -> anyhow::Result<Vec<String>> {
    let mut names = Vec::new(rt.alloc());
    for entry in fs::read_dir(rt, folder)? {
        names.push(String::from_str(rt.alloc(), entry?.file_name())?)?;
    }
    names.sort()?;
    Ok(names)
}

fn read_script(rt: &HostRuntime, folder: &str, name: &str) -> anyhow::Result<Vec<u8>> {
    let path = format!(in rt.alloc(); "{folder}/{name}")?;
    let script = fs::read(rt, &path).context(format_args!("reading {path}"))?;
    Ok(script)
}

fn print_case(rt: &HostRuntime, case: Case<'_>) -> anyhow::Result<()> {
    let outcome = case.replay(rt.alloc())?;
    println!(rt; "{case}: {outcome}")?;
    Ok(())
}

fn print_each(rt: &HostRuntime, folder: &str) -> anyhow::Result<()> {
    for name in script_names(rt, folder)? {
        let script = read_script(rt, folder, &name)?;
        print_case(rt, Case::usual(&name, &script))?;
    }
    Ok(())
}

// Listings of every length up to the whole one's: a line for each length at which the outcome changes.
fn print_cuts(rt: &HostRuntime, script: &[u8]) -> anyhow::Result<()> {
    let whole = Case::usual(WORKED, script);
    let mut last: Option<Outcome> = None;
    for length in 0..=whole.replay(rt.alloc())?.written() {
        let case = Case { length, ..whole };
        let outcome = case.replay(rt.alloc())?;
        if last.as_ref() != Some(&outcome) {
            println!(rt; "{case}: {outcome}")?;
        }
        last = Some(outcome);
    }
    Ok(())
}

fn print_sized(rt: &HostRuntime, name: &str, script: &[u8]) -> anyhow::Result<()> {
    for (data, parity) in SIZES {
        let sizes = Sizes { data, parity };
        print_case(
            rt,
            Case {
                sizes,
                ..Case::usual(name, script)
            },
        )?;
    }
    Ok(())
}

// A replay starts anew, whatever an earlier one left in the memories.
fn print_again(rt: &HostRuntime, script: &[u8]) -> anyhow::Result<()> {
    let case = Case::usual(WORKED, script);
    let mut memories = Memories::new(rt.alloc(), USUAL)?;
    for time in ["first", "second"] {
        let outcome = case.replay_over(rt.alloc(), &mut memories)?;
        println!(rt; "{case}, {time} time: {outcome}")?;
    }
    Ok(())
}

fn run(rt: &HostRuntime) -> anyhow::Result<()> {
    let folder = env::args(rt)?
        .nth(1)
        .context("name the folder of the scripts")?;
    print_each(rt, &folder)?;
    for name in SIZED {
        print_sized(rt, name, &read_script(rt, &folder, name)?)?;
    }
    let worked = read_script(rt, &folder, WORKED)?;
    print_cuts(rt, &worked)?;
    print_again(rt, &worked)
}

fn main(rt: HostRuntime) -> anyhow::Result<()> {
    run(&rt)
}
