#![tactic(auto)]

use cells::answer::answer;
use std::alloc::{AllocError, Global};
use std::io;
use std::io::{BufRead, BufReader};

// The text that a line stands for: a bar is the end of a line.
fn unfolded(heap: Global, line: &[u8]) -> Result<Vec<u8>, AllocError> {
    line.iter()
        .map(|b| if *b == b'|' { b'\n' } else { *b })
        .collect(heap)
}

// Whether the cell of one line is answered by the text of the other.
fn agrees(heap: Global, cell: &[u8], want: &[u8]) -> Result<bool, AllocError> {
    let text = unfolded(heap, cell)?;
    let given = answer(heap, &text)?;
    Ok(given.as_slice() == unfolded(heap, want)?.as_slice())
}

// Standard input has two lines for each case: a cell's text, and what answers it. At most 100,000 cases are read.
fn main(rt: HostRuntime) -> io::Result<()> {
    let lines = BufReader::new(rt.alloc(), rt.stdin())?.lines(rt.alloc());
    let mut asked: Option<io::Result<String>> = None;
    let mut agree: u32 = 0;
    let mut differ: u32 = 0;
    for line in lines.take(200000) {
        // a line that none follows is no case, even where it can't be read
        let Some(cell) = asked.take() else {
            asked = Some(line);
            continue;
        };
        let cell = cell?;
        if agrees(rt.alloc(), cell.as_bytes(), line?.as_bytes())? {
            agree = agree.saturating_add(1);
        } else {
            differ = differ.saturating_add(1);
            println!(rt; "differs: {cell}")?;
        }
    }
    println!(rt; "{agree} agree, {differ} differ")
}
