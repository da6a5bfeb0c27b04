#![tactic(auto)]

mod call;
mod piles;
mod raw;

use anyhow::anyhow;
use kinds::fractions::Fractions;
use kinds::residues::Residues;
use piles::run;
use std::alloc::Global;
use std::io::{BufRead, BufReader};

// The numbers of one line.
fn numbers(heap: Global, line: &str) -> anyhow::Result<Vec<i64>> {
    line.split(' ')
        .map(|word| -> anyhow::Result<i64> { Ok(word.parse()?) })
        .try_collect(heap)
}

// The outcome of the call on one line; its first number is the modulus, or 0 for fractions.
fn outcome(heap: Global, line: &[i64]) -> anyhow::Result<String> {
    let mut words = line.iter();
    let modulus = words.next().copied().unwrap_or(0);
    if modulus == 0 {
        return Ok(run(heap, &Fractions, &mut words)?);
    }
    let m = u32::try_from(modulus).map_err(|_| anyhow!("a modulus out of range"))?;
    let k = Residues::new(m).map_err(|_| anyhow!("a modulus out of range"))?;
    Ok(run(heap, &k, &mut words)?)
}

// Standard input has a call on each line, in numbers (src/piles.rt has their order); each outcome is printed on a line.
fn main(rt: HostRuntime) -> anyhow::Result<()> {
    for line in BufReader::new(rt.alloc(), rt.stdin())?.lines(rt.alloc()) {
        let all = numbers(rt.alloc(), line?.as_str())?;
        let printed = outcome(rt.alloc(), &all)?;
        println!(rt; "{printed}")?;
    }
    Ok(())
}
