//! Drives pagers over servers that lose pages inside calls, and holds every pagein to a book of its own.
#![tactic(auto)]

mod banks;
mod book;
mod runs;

use banks::{over_five, over_mixed, over_one_losing, over_three};
use book::{Book, Tally};
use fickle::Odds;
use page::Fault;
use runs::{Plan, Pulled, Run};
use std::fmt;

const SEEDS: u32 = 300;

fn main(rt: HostRuntime) -> anyhow::Result<()> {
    run(&rt)
}

// Which servers a pager is driven over.
#[derive(Clone, Copy)]
enum Servers {
    Three,
    Five,
    Mixed,
    OneLosing,
}

impl Servers {
    fn name(self) -> &'static str {
        match self {
            Servers::Three => "three memory servers",
            Servers::Five => "five memory servers",
            Servers::Mixed => "a mirror and four memory servers",
            Servers::OneLosing => "one that loses and four that do not",
        }
    }

    fn drive(self, run: Run, book: &mut Book) -> Result<(), Fault> {
        match self {
            Servers::Three => over_three(run, book),
            Servers::Five => over_five(run, book),
            Servers::Mixed => over_mixed(run, book),
            Servers::OneLosing => over_one_losing(run, book),
        }
    }
}

// What the runs over these servers came to.
#[derive(Clone, Copy)]
struct Report {
    servers: Servers,
    plan: Plan,
    tally: Tally,
}

impl fmt::Display for Report {
    fn fmt<W: fmt::Write>(&self, f: &mut fmt::Formatter<W>) -> fmt::Result {
        let servers = self.servers.name();
        let Plan { groups, spares, .. } = self.plan;
        write!(f, "{servers}, G {groups}, q {spares}: {}", self.tally)
    }
}

// The same plan over every seed.
fn over_seeds(servers: Servers, plan: Plan) -> Result<Report, Fault> {
    let mut book = Book::default();
    for seed in 0..SEEDS {
        servers.drive(Run { plan, seed }, &mut book)?;
    }
    let tally = book.tally();
    Ok(Report {
        servers,
        plan,
        tally,
    })
}

const SIX: Plan = Plan {
    groups: 6,
    spares: 2,
    calls: 1000,
    odds: Odds {
        pages: 16,
        falls: 1,
    },
    pulled: Pulled::AnyOf(5),
};

const EIGHT: Plan = Plan {
    groups: 8,
    spares: 4,
    ..SIX
};

const THREE: Plan = Plan {
    groups: 3,
    pulled: Pulled::AnyOf(3),
    ..SIX
};

// Only the one that loses falls.
const ONE: Plan = Plan {
    pulled: Pulled::Only(1),
    ..SIX
};

fn run(rt: &HostRuntime) -> anyhow::Result<()> {
    for (servers, plan) in [
        (Servers::Five, SIX),
        (Servers::Five, EIGHT),
        (Servers::Three, THREE),
        (Servers::Mixed, SIX),
        (Servers::OneLosing, ONE),
    ] {
        let report = over_seeds(servers, plan)?;
        rt.println(report)?;
    }
    Ok(())
}
