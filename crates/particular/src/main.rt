#![tactic(auto)]

use cells::answer::{MOST_BYTES, answer};
use std::io;
use std::io::{Read, Write};

fn main(rt: HostRuntime) -> io::Result<()> {
    // one byte more than a cell may have, so that a longer text is seen to be too long
    let mut text = Vec::new(rt.alloc());
    let mut input = rt.stdin().take(MOST_BYTES as u64 + 1);
    input.read_to_end(&mut text)?;
    let printed = answer(rt.alloc(), &text)?;
    rt.stdout().write_all(&printed)
}
