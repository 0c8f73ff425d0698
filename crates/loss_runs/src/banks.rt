use crate::book::Book;
use crate::runs::{Run, drive};
use bank::{End, Pair};
use fickle::Fickle;
use memory::Memory;
use mirror::Mirror;
use page::Fault;
use server::Pullable;

// Eight slots.
const MEMORY: usize = 4096;

impl Run {
    // A memory server that loses, by a sequence of its own.
    fn losing(self, bytes: &mut [u8], server: u32) -> Fickle<Memory<'_>> {
        Fickle::new(Memory::new(bytes, 0), self.seed_of(server), self.plan.odds)
    }

    fn seed_of(self, server: u32) -> u32 {
        self.seed
            .wrapping_mul(8)
            .wrapping_add(server)
            .wrapping_mul(2654435761)
    }
}

// Two of any kinds, and three more of one kind.
fn drive_five<P: Pullable + Drop, Q: Pullable + Drop, R: Pullable + Drop>(
    p: P,
    q: Q,
    (c, d, e): (R, R, R),
    run: Run,
    book: &mut Book,
) -> Result<(), Fault> {
    drive(Pair(p, Pair(q, Pair(c, Pair(d, Pair(e, End))))), run, book)
}

// Three that lose after two of any kinds.
fn drive_three_more<P: Pullable + Drop, Q: Pullable + Drop>(
    p: P,
    q: Q,
    run: Run,
    book: &mut Book,
) -> Result<(), Fault> {
    let mut c = [0u8; MEMORY];
    let mut d = [0u8; MEMORY];
    let mut e = [0u8; MEMORY];
    let more = (
        run.losing(&mut c, 2),
        run.losing(&mut d, 3),
        run.losing(&mut e, 4),
    );
    drive_five(p, q, more, run, book)
}

// A mirror of two, a server that loses beyond what it does by itself, and three that lose.
fn drive_mixed<P: Pullable + Drop>(
    p: P,
    q: P,
    r: P,
    run: Run,
    book: &mut Book,
) -> Result<(), Fault> {
    let twice = Fickle::new(r, run.seed_of(6), run.plan.odds);
    drive_three_more(Mirror::new(p, q), twice, run, book)
}

fn drive_three<P: Pullable + Drop>(
    p: P,
    q: P,
    r: P,
    run: Run,
    book: &mut Book,
) -> Result<(), Fault> {
    drive(Pair(p, Pair(q, Pair(r, End))), run, book)
}

pub fn over_three(run: Run, book: &mut Book) -> Result<(), Fault> {
    let mut a = [0u8; MEMORY];
    let mut b = [0u8; MEMORY];
    let mut c = [0u8; MEMORY];
    drive_three(
        run.losing(&mut a, 0),
        run.losing(&mut b, 1),
        run.losing(&mut c, 2),
        run,
        book,
    )
}

pub fn over_five(run: Run, book: &mut Book) -> Result<(), Fault> {
    let mut a = [0u8; MEMORY];
    let mut b = [0u8; MEMORY];
    drive_three_more(run.losing(&mut a, 0), run.losing(&mut b, 1), run, book)
}

// One that loses, and four that keep all they get.
pub fn over_one_losing(run: Run, book: &mut Book) -> Result<(), Fault> {
    let mut a = [0u8; MEMORY];
    let mut b = [0u8; MEMORY];
    let mut c = [0u8; MEMORY];
    let mut d = [0u8; MEMORY];
    let mut e = [0u8; MEMORY];
    let more = (
        Memory::new(&mut c, 0),
        Memory::new(&mut d, 0),
        Memory::new(&mut e, 0),
    );
    drive_five(
        Memory::new(&mut a, 0),
        run.losing(&mut b, 1),
        more,
        run,
        book,
    )
}

// A mirror of two that lose, a server that loses twice over, and three that lose.
pub fn over_mixed(run: Run, book: &mut Book) -> Result<(), Fault> {
    let mut a = [0u8; MEMORY];
    let mut b = [0u8; MEMORY];
    let mut f = [0u8; MEMORY];
    drive_mixed(
        run.losing(&mut a, 0),
        run.losing(&mut b, 1),
        run.losing(&mut f, 5),
        run,
        book,
    )
}
