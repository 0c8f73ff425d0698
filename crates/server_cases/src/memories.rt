use crate::calls::{self, free_page, get_page, life, put_value};
use crate::outcome::tell;
use memory::Memory;
use server::PageServer;

fn slots_of(rt: &HostRuntime, len: usize) -> anyhow::Result<usize> {
    let mut bytes = vec![in rt.alloc(); 0u8; len]?;
    Ok(Memory::new(&mut bytes, 0).size())
}

pub fn sizes(rt: &HostRuntime) -> anyhow::Result<()> {
    for len in [0usize, 511, 512, 1023, 1024, 32767, 32768, 33280] {
        let size = slots_of(rt, len)?;
        println!(rt; "memory of {len} bytes: {size} slots")?;
    }
    Ok(())
}

// A memory of two slots: lengths before slots, and slots at and past the end.
pub fn bad_calls(rt: &HostRuntime) -> anyhow::Result<()> {
    let mut bytes = [9u8; 1024];
    let cases = [
        (0usize, 0usize),
        (0, 511),
        (0, 513),
        (9, 511),
        (2, 512),
        (64, 512),
        (usize::MAX, 512),
    ];
    calls::bad_calls(rt, "memory", &mut Memory::new(&mut bytes, 0), &cases)
}

// A memory of one page more than it has slots.
pub fn slots(rt: &HostRuntime) -> anyhow::Result<()> {
    let mut bytes = vec![in rt.alloc(); 0u8; 33280]?;
    last_slots(rt, &mut Memory::new(&mut bytes, 0))
}

// The last slot of the largest memory, its neighbours, and what a free leaves.
fn last_slots<S: PageServer>(rt: &HostRuntime, server: &mut S) -> anyhow::Result<()> {
    tell(
        rt,
        &[
            ("memory of 65 pages: put at 63", put_value(server, 63, 63)),
            ("at 64", put_value(server, 64, 64)),
        ],
    )?;
    tell(
        rt,
        &[
            ("put at 62", put_value(server, 62, 62)),
            ("again at 63", put_value(server, 63, 163)),
            ("get at 63", get_page(server, 63)),
        ],
    )?;
    tell(
        rt,
        &[
            ("free at 63", free_page(server, 63)),
            ("get at 63", get_page(server, 63)),
            ("at 62", get_page(server, 62)),
        ],
    )
}

// Eras at the last but one and the last, and one far below.
pub fn eras(rt: &HostRuntime) -> anyhow::Result<()> {
    for era in [0u32, u32::MAX - 1, u32::MAX] {
        let mut bytes = [0u8; 512];
        let answers = life(&mut Memory::new(&mut bytes, era), 5);
        println!(rt; "memory, era {era}: {answers}")?;
    }
    Ok(())
}
