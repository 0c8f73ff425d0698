use crate::outcome::{Line, Outcome, Told, tell};
use bank::{Bank, End, Pair, PullableBank, copy_page};
use memory::Memory;
use mirror::Mirror;
use page::{PAGE_SIZE, Page};

fn put_on<B: Bank>(bank: &mut B, server: usize, page: &Page) -> Outcome {
    Outcome::of_call(bank.put(server, 0, &page.0))
}

fn get_on<B: Bank>(bank: &mut B, server: usize) -> Outcome {
    let mut page = Page::zero();
    let answer = bank.get(server, 0, &mut page.0);
    Outcome::of_get(answer, &page)
}

fn free_on<B: Bank>(bank: &mut B, server: usize) -> Outcome {
    Outcome::of_call(bank.free(server, 0))
}

fn copy<B: Bank>(bank: &mut B, from: usize, to: usize) -> Outcome {
    Outcome::of_call(copy_page(bank, from, to, 0))
}

fn fall<B: PullableBank>(bank: &mut B, server: usize) -> Outcome {
    Outcome::of_call(bank.fall(server))
}

fn back<B: PullableBank>(bank: &mut B, server: usize) -> Outcome {
    Outcome::of_call(bank.back(server))
}

// A page is kept on server 0, copied to server 1, and restored from there after a fall.
fn story<B: PullableBank>(rt: &HostRuntime, bank: &mut B) -> anyhow::Result<()> {
    let servers = bank.servers();
    println!(rt; "bank of {servers}")?;
    tell(
        rt,
        &[
            ("bank: put on 0", put_on(bank, 0, &Page::of_value(8))),
            ("copied to 1", copy(bank, 0, 1)),
        ],
    )?;
    lose(rt, bank)?;
    tell(
        rt,
        &[
            ("bank: back of 0", back(bank, 0)),
            ("copied from 1", copy(bank, 1, 0)),
            ("get on 0", get_on(bank, 0)),
        ],
    )
}

fn lose<B: PullableBank>(rt: &HostRuntime, bank: &mut B) -> anyhow::Result<()> {
    let fall = fall(bank, 0);
    let gets = [("get on 0", get_on(bank, 0)), ("on 1", get_on(bank, 1))];
    println!(rt; "bank: fall of 0 {fall}: {}", Line(&gets))?;
    Ok(())
}

// A mirror and a memory server side by side: a call on one leaves the other.
pub fn calls(rt: &HostRuntime) -> anyhow::Result<()> {
    let mut first = [0u8; 1024];
    let mut second = [0u8; 1024];
    let mut third = [0u8; 512];
    let mirror = Mirror::new(Memory::new(&mut first, 0), Memory::new(&mut second, 0));
    let rest = Pair(Memory::new(&mut third, 0), End);
    story(rt, &mut Pair(mirror, rest))
}

fn page_calls<B: Bank>(bank: &mut B, server: usize) -> [Told; 3] {
    [
        ("put", put_on(bank, server, &Page([7; PAGE_SIZE]))),
        ("get", get_on(bank, server)),
        ("free", free_on(bank, server)),
    ]
}

fn pulls<B: PullableBank>(bank: &mut B, server: usize) -> [Told; 3] {
    [
        ("fall", fall(bank, server)),
        ("back", back(bank, server)),
        ("sized", Outcome::Is(bank.size(server).is_ok())),
    ]
}

fn past<B: PullableBank>(rt: &HostRuntime, bank: &mut B, server: usize) -> anyhow::Result<()> {
    for answers in [page_calls(bank, server), pulls(bank, server)] {
        println!(rt; "bank of 1, server {server}: {}", Line(&answers))?;
    }
    Ok(())
}

pub fn past_the_end(rt: &HostRuntime) -> anyhow::Result<()> {
    for server in [1usize, 2, usize::MAX] {
        let mut bytes = [0u8; 512];
        past(rt, &mut Pair(Memory::new(&mut bytes, 0), End), server)?;
    }
    Ok(())
}
