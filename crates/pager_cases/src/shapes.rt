use bank::{Bank, End, Pair};
use memory::Memory;
use page::Fault;
use pager::Pager;
use server::PageServer;
use std::fmt;

// Sixteen kibibytes: 32 slots.
const MEMORY: usize = 16384;

// How many groups a pager has, and how many of them are spare.
#[derive(Clone, Copy)]
pub struct Shape {
    pub groups: usize,
    pub spares: usize,
}

const SMALLEST: Shape = Shape {
    groups: 3,
    spares: 2,
};

// The most groups, and the fewest of them spare.
pub const LARGEST: Shape = Shape {
    groups: 32,
    spares: 2,
};

impl Shape {
    pub fn make<B: Bank>(self, pager: &mut Pager<B>) -> Result<usize, Fault> {
        pager.make(self.groups, self.spares)
    }
}

impl fmt::Display for Shape {
    fn fmt<W: fmt::Write>(&self, f: &mut fmt::Formatter<W>) -> fmt::Result {
        let Shape { groups, spares } = *self;
        write!(f, "G {groups}, q {spares}")
    }
}

// How many pages a pager of this shape has room for over so many data servers, or why none is made.
#[derive(Clone, Copy)]
struct Made {
    servers: usize,
    shape: Shape,
    capacity: Result<usize, Fault>,
}

impl fmt::Display for Made {
    fn fmt<W: fmt::Write>(&self, f: &mut fmt::Formatter<W>) -> fmt::Result {
        let Made { servers, shape, .. } = *self;
        write!(f, "S {servers}, {shape}: ")?;
        match self.capacity {
            Ok(pages) => write!(f, "{pages} pages"),
            Err(fault) => write!(f, "{fault}"),
        }
    }
}

// The last server of the bank is the parity server.
fn make<B: Bank + Drop>(bank: B, shape: Shape) -> Made {
    let servers = bank.servers().saturating_sub(1);
    let capacity = shape.make(&mut Pager::new(bank));
    Made {
        servers,
        shape,
        capacity,
    }
}

pub fn all(rt: &HostRuntime) -> anyhow::Result<()> {
    rt.println(two())?;
    rt.println(three())?;
    five(rt)?;
    six_to_nine(rt)?;
    println!(rt; "with a parity server of two slots:")?;
    rt.println(unequal())?;
    rt.println(ten())?;
    Ok(())
}

fn two() -> Made {
    let mut a = [0u8; MEMORY];
    let mut b = [0u8; MEMORY];
    let bank = Pair(Memory::new(&mut a, 0), Pair(Memory::new(&mut b, 0), End));
    make(bank, SMALLEST)
}

// A bank of three memory servers over these bytes.
fn make_over_three(a: &mut [u8], b: &mut [u8], c: &mut [u8], shape: Shape) -> Made {
    let rest = Pair(Memory::new(b, 0), Pair(Memory::new(c, 0), End));
    make(Pair(Memory::new(a, 0), rest), shape)
}

fn three() -> Made {
    let mut a = [0u8; MEMORY];
    let mut b = [0u8; MEMORY];
    let mut c = [0u8; MEMORY];
    let shape = Shape {
        groups: 32,
        spares: 31,
    };
    make_over_three(&mut a, &mut b, &mut c, shape)
}

// Five servers before the rest of a bank.
fn make_over_five_more<B: Bank + Drop>(rest: B, shape: Shape) -> Made {
    let mut a = [0u8; MEMORY];
    let mut b = [0u8; MEMORY];
    let mut c = [0u8; MEMORY];
    let mut d = [0u8; MEMORY];
    let mut e = [0u8; MEMORY];
    let last = Pair(
        Memory::new(&mut c, 0),
        Pair(Memory::new(&mut d, 0), Pair(Memory::new(&mut e, 0), rest)),
    );
    make(
        Pair(Memory::new(&mut a, 0), Pair(Memory::new(&mut b, 0), last)),
        shape,
    )
}

fn five(rt: &HostRuntime) -> anyhow::Result<()> {
    for (groups, spares) in [
        (3usize, 2usize),
        (32, 2),
        (2, 2),
        (2, 1),
        (3, 3),
        (3, 1),
        (33, 2),
        (32, 31),
        (32, 32),
        (0, 0),
        (usize::MAX, 2),
    ] {
        rt.println(make_over_five_more(End, Shape { groups, spares }))?;
    }
    Ok(())
}

// Five servers and these more.
fn six<S: PageServer + Drop>(f: S) -> Made {
    make_over_five_more(Pair(f, End), LARGEST)
}

fn seven<S: PageServer + Drop>(f: S, g: S) -> Made {
    make_over_five_more(Pair(f, Pair(g, End)), LARGEST)
}

fn eight<S: PageServer + Drop>(f: S, g: S, h: S) -> Made {
    make_over_five_more(Pair(f, Pair(g, Pair(h, End))), LARGEST)
}

fn nine<S: PageServer + Drop>(f: S, g: S, h: S, i: S) -> Made {
    make_over_five_more(Pair(f, Pair(g, Pair(h, Pair(i, End)))), LARGEST)
}

fn six_to_nine(rt: &HostRuntime) -> anyhow::Result<()> {
    let mut f = [0u8; MEMORY];
    let mut g = [0u8; MEMORY];
    let mut h = [0u8; MEMORY];
    let mut i = [0u8; MEMORY];
    let made = [
        six(Memory::new(&mut f, 0)),
        seven(Memory::new(&mut f, 0), Memory::new(&mut g, 0)),
        eight(
            Memory::new(&mut f, 0),
            Memory::new(&mut g, 0),
            Memory::new(&mut h, 0),
        ),
        nine(
            Memory::new(&mut f, 0),
            Memory::new(&mut g, 0),
            Memory::new(&mut h, 0),
            Memory::new(&mut i, 0),
        ),
    ];
    for one in made {
        rt.println(one)?;
    }
    Ok(())
}

// The parity server has two slots only.
fn unequal() -> Made {
    let mut a = [0u8; MEMORY];
    let mut b = [0u8; MEMORY];
    let mut c = [0u8; 1024];
    make_over_three(&mut a, &mut b, &mut c, SMALLEST)
}

fn ten() -> Made {
    let mut a = [0u8; 1536];
    let mut b = [0u8; 1536];
    let mut c = [0u8; 1536];
    let mut d = [0u8; 1536];
    let mut e = [0u8; 1536];
    let last = Pair(
        Memory::new(&mut c, 0),
        Pair(Memory::new(&mut d, 0), Pair(Memory::new(&mut e, 0), End)),
    );
    let five = Pair(Memory::new(&mut a, 0), Pair(Memory::new(&mut b, 0), last));
    make_over_five_more(five, SMALLEST)
}
