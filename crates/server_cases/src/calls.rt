use crate::outcome::{Life, Line, Outcome, Told};
use page::Page;
use server::{PageServer, Pullable};

// What every byte of a buffer is before a call.
const FILLER: u8 = 7;

// Put, get and free of one slot, with a buffer of this many bytes, and whether all were left as they were.
fn refusals<S: PageServer>(server: &mut S, slot: usize, buffer: &mut [u8]) -> [Told; 4] {
    let put = Outcome::of_call(server.put(slot, buffer));
    let get = Outcome::of_call(server.get(slot, buffer));
    let free = free_page(server, slot);
    let untouched = Outcome::Is(buffer.iter().all(|byte| *byte == FILLER));
    [
        ("put", put),
        ("get", get),
        ("free", free),
        ("untouched", untouched),
    ]
}

// These calls at each of the slots, with a buffer of so many bytes beside it.
pub fn bad_calls<S: PageServer>(
    rt: &HostRuntime,
    name: &str,
    server: &mut S,
    cases: &[(usize, usize)],
) -> anyhow::Result<()> {
    for &(slot, len) in cases {
        let mut buffer = vec![in rt.alloc(); FILLER; len]?;
        let answers = refusals(server, slot, &mut buffer);
        println!(rt; "{name}, slot {slot}, {len} bytes: {}", Line(&answers))?;
    }
    Ok(())
}

// A page put and got, a fall that is told twice, and a way back.
pub fn life<S: Pullable>(server: &mut S, value: u8) -> Life {
    let put = put_value(server, 0, value);
    let got = get_page(server, 0);
    server.fall();
    server.fall();
    Life {
        put,
        got,
        down: get_page(server, 0),
        free: free_page(server, 0),
        back: Outcome::of_call(server.back()),
        after: get_page(server, 0),
    }
}

pub fn get_page<S: PageServer>(server: &mut S, slot: usize) -> Outcome {
    let mut page = Page::zero();
    let answer = server.get(slot, &mut page.0);
    Outcome::of_get(answer, &page)
}

pub fn free_page<S: PageServer>(server: &mut S, slot: usize) -> Outcome {
    Outcome::of_call(server.free(slot))
}

pub fn put_value<S: PageServer>(server: &mut S, slot: usize, value: u8) -> Outcome {
    Outcome::of_call(server.put(slot, &Page::of_value(value).0))
}
