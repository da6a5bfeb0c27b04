ghost use Rattle.std.specs.Prelude.{◌≡◌, ◌≤◌, pos, ◌<ℤ◌, unsigned_abs};
ghost use Rattle.algebra.specs.Gcd.{gcd};

mod convert;
pub mod ops;

const LIMIT: u64 = 2147483647;

// A rational number in lowest terms, whose numerator and denominator have at most 31 bits; the sign is the numerator's.
#[derive(Clone, Copy)]
pub struct Fraction {
    num: i64,
    den: i64,
    ghost some: { pos 0 <ℤ den },
    ghost low: { unsigned_abs den ≤ 2147483647 },
    ghost small: { unsigned_abs num ≤ 2147483647 },
    ghost coprime: { gcd (unsigned_abs num) (unsigned_abs den) ≡ 1 },
}
