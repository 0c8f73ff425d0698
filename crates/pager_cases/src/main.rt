//! Prints which shapes a pager takes, and what a long run of calls and a passage through the largest pager came to, against books of its own.
#![tactic(auto)]

mod largest;
mod runs;
mod shapes;

fn main(rt: HostRuntime) -> anyhow::Result<()> {
    run(&rt)
}

fn run(rt: &HostRuntime) -> anyhow::Result<()> {
    shapes::all(rt)?;
    runs::all(rt)?;
    largest::all(rt)?;
    Ok(())
}
