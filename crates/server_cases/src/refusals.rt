use page::Refusal;

const REFUSALS: [Refusal; 9] = [
    Refusal::Range,
    Refusal::Length,
    Refusal::None,
    Refusal::Lost,
    Refusal::Gone,
    Refusal::Shape,
    Refusal::Full,
    Refusal::Worn,
    Refusal::Unread,
];

// Each refusal's number and word.
pub fn numbers(rt: &HostRuntime) -> anyhow::Result<()> {
    for refusal in REFUSALS {
        println!(rt; "refusal {}: {refusal}", u8::from(refusal))?;
    }
    Ok(())
}
