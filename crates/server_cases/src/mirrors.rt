use crate::calls::{self, get_page, life, put_value};
use crate::outcome::{Life, Outcome, tell};
use memory::Memory;
use mirror::{Half, Mirror};
use server::{PageServer, Pullable};

// Halves of different sizes: the mirror has the smaller.
pub fn sizes(rt: &HostRuntime) -> anyhow::Result<()> {
    for (one, two) in [
        (0usize, 512usize),
        (512, 0),
        (1024, 512),
        (512, 1024),
        (33280, 32768),
    ] {
        let size = slots_of(rt, one, two)?;
        println!(rt; "mirror of {one} and {two} bytes: {size} slots")?;
    }
    Ok(())
}

fn slots_of(rt: &HostRuntime, one: usize, two: usize) -> anyhow::Result<usize> {
    let mut first = vec![in rt.alloc(); 0u8; one]?;
    let mut second = vec![in rt.alloc(); 0u8; two]?;
    Ok(Mirror::new(Memory::new(&mut first, 0), Memory::new(&mut second, 0)).size())
}

// Halves of two slots and of three.
pub fn bad_calls(rt: &HostRuntime) -> anyhow::Result<()> {
    let mut first = [9u8; 1024];
    let mut second = [9u8; 1536];
    let mut server = Mirror::new(Memory::new(&mut first, 0), Memory::new(&mut second, 0));
    let cases = [
        (0usize, 0usize),
        (0, 511),
        (0, 513),
        (9, 511),
        (2, 512),
        (usize::MAX, 512),
    ];
    calls::bad_calls(rt, "mirror", &mut server, &cases)
}

pub fn one_half_down(rt: &HostRuntime) -> anyhow::Result<()> {
    let mut first = [0u8; 512];
    let mut second = [0u8; 512];
    let mut server = Mirror::new(Memory::new(&mut first, 0), Memory::new(&mut second, 0));
    lose_halves(rt, &mut server)
}

// A half that fell lacks its page, and takes new ones once it is back.
fn lose_halves<P: Pullable, Q: Pullable>(
    rt: &HostRuntime,
    server: &mut Mirror<P, Q>,
) -> anyhow::Result<()> {
    let both = put_value(server, 0, 1);
    server.fall_half(Half::First);
    let other = get_page(server, 0);
    tell(
        rt,
        &[("mirror: put", both), ("first half fell: get", other)],
    )?;
    let one = put_value(server, 0, 2);
    let back = Outcome::of_call(server.back_half(Half::First));
    server.fall_half(Half::Second);
    let none = get_page(server, 0);
    tell(
        rt,
        &[
            ("put", one),
            ("first half back", back),
            ("second half fell: get", none),
        ],
    )
}

// Eras of the halves: one worn, and both.
pub fn lives(rt: &HostRuntime) -> anyhow::Result<()> {
    for (one, two) in [
        (0u32, 0u32),
        (u32::MAX, 0),
        (0, u32::MAX),
        (u32::MAX, u32::MAX),
    ] {
        let answers = life_of(one, two);
        println!(rt; "mirror, eras {one} and {two}: {answers}")?;
    }
    Ok(())
}

fn life_of(one: u32, two: u32) -> Life {
    let mut first = [0u8; 512];
    let mut second = [0u8; 512];
    let mut server = Mirror::new(Memory::new(&mut first, one), Memory::new(&mut second, two));
    life(&mut server, 3)
}
