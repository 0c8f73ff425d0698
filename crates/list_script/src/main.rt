//! Lists the script on standard input: replays it over a pager on five memories, and prints the listing.
#![tactic(auto)]

use lister::list;

fn main(rt: HostRuntime) -> anyhow::Result<()> {
    list(rt.alloc(), rt.stdin(), &mut rt.stdout())?;
    Ok(())
}
