// Reads a day's commands from standard input and prints what each line told.
#![tactic(auto)]

use lines::cut::MOST_INPUT;
use sheet::day::day;
use std::io::Read;

fn main(rt: HostRuntime) -> anyhow::Result<()> {
    let heap = rt.alloc();
    let mut input = Vec::new(heap);
    rt.stdin().take(MOST_INPUT as u64).read_to_end(&mut input)?;
    let text = day(heap, input.as_slice())?;
    rt.write_all(text.as_bytes())?;
    Ok(())
}
