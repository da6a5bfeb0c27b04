#![tactic(auto)]

use anyhow::{Context, anyhow};
use kinds::fault::Fault;
use kinds::fractions::Fractions;
use kinds::kind::Kind;
use kinds::pairs::Pair;
use kinds::residues::Residues;
use std::env;

// Forms many sums or products of one kind, so that their cost can be measured from outside.

// Forms the results of `a` with each value: how many are refused, and one more where the last is zero, so that they are used.
fn row<K: Kind, F: Fn(K::Value, K::Value) -> Result<K::Value, Fault>>(
    k: &K,
    form: &F,
    a: K::Value,
    values: &[K::Value],
) -> u64
    requires { F.IsAlwaysCallable form.now }
{
    let (none, last) = values
        .iter()
        .fold((0u64, k.whole(1)), |(none, last), b| match form(a, *b) {
            Ok(v) => (none, v),
            Err(_) => (none.saturating_add(1), last),
        });
    none.saturating_add(u64::from(k.is_zero(last)))
}

// A round is a fold of its own: one `flat_map` over all rounds makes the residues measurably slower.
fn round<K: Kind, F: Fn(K::Value, K::Value) -> Result<K::Value, Fault>>(
    k: &K,
    form: &F,
    values: &[K::Value],
) -> u64
    requires { F.IsAlwaysCallable form.now }
{
    values
        .iter()
        .map(|a| row(k, form, *a, values))
        .fold(0, u64::saturating_add)
}

// Goes through the pairs of values some times over. A loop, and inline as `cost` is: so LLVM sees the constants, and works the
// residues' rounds out beforehand; over a fold, or as a call, their time grows with the rounds.
#[inline(always)]
fn tally<K: Kind, F: Fn(K::Value, K::Value) -> Result<K::Value, Fault>>(
    k: &K,
    form: F,
    values: &[K::Value],
    rounds: u64,
) -> u64
    requires { F.IsAlwaysCallable form }
{
    let mut none: u64 = 0;
    for _ in 0..rounds {
        none = none.saturating_add(round(k, &form, values));
    }
    none
}

// The argument chooses what is formed.
#[inline(always)]
fn cost<K: Kind>(k: &K, operation: &str, values: &[K::Value], rounds: u64) -> u64 {
    match operation {
        "sum" => tally(k, |a, b| k.sum(a, b), values, rounds),
        _ => tally(k, |a, b| k.product(a, b), values, rounds),
    }
}

const FRACTIONS: [Pair; 8] = [
    Pair { num: 1, den: 1 },
    Pair { num: -3, den: 8 },
    Pair { num: 7, den: 96 },
    Pair { num: 1, den: 16 },
    Pair { num: 2, den: 3 },
    Pair { num: 21474, den: 1 },
    Pair { num: -475, den: 22 },
    Pair {
        num: 1234,
        den: 683,
    },
];

const RESIDUES: [u32; 8] = [
    1, 2147483646, 65537, 2, 1234567890, 7, 1000000007, 4294967295,
];

// The kind, the operation and the number of rounds, of 64 results each, are given as arguments.
fn run(rt: &HostRuntime) -> anyhow::Result<()> {
    let mut words = env::args(rt)?;
    let _program = words.next();
    let kind = words.next().context("no kind")?;
    let operation = words.next().context("no operation")?;
    let rounds = words.next().context("no rounds")?.as_str().parse::<u64>()?;
    let none = match kind.as_str() {
        "fractions" => cost(&Fractions, operation.as_str(), &FRACTIONS, rounds),
        _ => {
            let Ok(k) = Residues::new(2147483647) else {
                return Err(anyhow!("no modulus"));
            };
            cost(&k, operation.as_str(), &RESIDUES, rounds)
        }
    };
    println!(rt; "{rounds} rounds, {none} refused or zero")?;
    Ok(())
}

fn main(rt: HostRuntime) -> anyhow::Result<()> {
    run(&rt)
}
