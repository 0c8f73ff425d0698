//! Prints the refusals' numbers, and what page servers answer at the edges: sizes, bad lengths and slots, last eras, mirrors with a half down, banks.
#![tactic(auto)]

mod banks;
mod calls;
mod memories;
mod mirrors;
mod outcome;
mod refusals;

fn main(rt: HostRuntime) -> anyhow::Result<()> {
    run(&rt)
}

fn run(rt: &HostRuntime) -> anyhow::Result<()> {
    refusals::numbers(rt)?;
    memories::sizes(rt)?;
    memories::bad_calls(rt)?;
    memories::slots(rt)?;
    memories::eras(rt)?;
    mirrors::sizes(rt)?;
    mirrors::bad_calls(rt)?;
    mirrors::one_half_down(rt)?;
    mirrors::lives(rt)?;
    banks::calls(rt)?;
    banks::past_the_end(rt)?;
    Ok(())
}
