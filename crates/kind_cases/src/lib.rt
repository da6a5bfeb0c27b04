//! The calls of the two kinds on listed cases, most of them at the limits of their range.

#![tactic(auto)]

ghost use Rattle.std.specs.Prelude.{◌≡◌, Ok, Err, MatchResult};

use kinds::fault::Fault;
use kinds::pairs::Pair;

// An answer with its two numbers side by side.
fn numbers(answer: Result<Pair, Fault>) -> Result<(i64, i64), Fault>
    ensures { MatchResult answer (λ p. result ≡ Ok (p.num, p.den)) (λ e. result ≡ Err e) }
{
    answer.map(|p| (p.num, p.den))
}

#[cfg(test)]
mod tests {
    use super::*;
    use kinds::fault::Refusal;
    use kinds::fraction::Fraction;
    use kinds::fractions::Fractions;
    use kinds::kind::Kind;
    use kinds::residues::Residues;
    use std::test::Fail;

    type Numbers = (i64, i64);

    // A constant calls no function, so the faults that are wanted are written out.
    const MODULUS: Fault = Fault::Input(Refusal {
        number: 5,
        depth: 0,
        place: 0,
    });

    const DENOMINATOR: Fault = Fault::Input(Refusal {
        number: 6,
        depth: 0,
        place: 0,
    });

    const RANGE: Fault = Fault::Size(Refusal {
        number: 12,
        depth: 0,
        place: 0,
    });

    const DIVISOR: Fault = Fault::Inverse(Refusal {
        number: 13,
        depth: 0,
        place: 0,
    });

    fn pair((num, den): Numbers) -> Pair {
        Pair { num, den }
    }

    const SUMS: [(Numbers, Numbers, Result<Numbers, Fault>); 27] = [
        ((2147483646, 1), (1, 1), Ok((2147483647, 1))),
        ((2147483647, 1), (1, 1), Err(RANGE)),
        ((-2147483646, 1), (-1, 1), Ok((-2147483647, 1))),
        ((-2147483647, 1), (-1, 1), Err(RANGE)),
        ((2147483647, 1), (-1, 1), Ok((2147483646, 1))),
        ((2147483647, 1), (0, 1), Ok((2147483647, 1))),
        ((0, 1), (-2147483647, 1), Ok((-2147483647, 1))),
        ((1, 2147483647), (1, 2147483646), Err(RANGE)),
        ((1, 2147483647), (1, 2147483647), Ok((2, 2147483647))),
        ((1, 2147483647), (-1, 2147483647), Ok((0, 1))),
        ((1, 2147483647), (2147483646, 2147483647), Ok((1, 1))),
        ((1, 2147483647), (0, 1), Ok((1, 2147483647))),
        ((1, 2147483647), (1, 1), Err(RANGE)),
        ((1, 2), (1, 2), Ok((1, 1))),
        ((1, 2), (-1, 3), Ok((1, 6))),
        ((1, 6), (1, 10), Ok((4, 15))),
        ((-14382, 155), (-8706, 139), Ok((-3348528, 21545))),
        ((-2147483647, 1), (2754, 245), Err(RANGE)),
        ((1, 2147483647), (-2147483647, 1), Err(RANGE)),
        ((1, 1073741824), (2, 1), Err(RANGE)),
        ((1565, 77), (1073741824, 1), Err(RANGE)),
        (
            (-9223372036854775808, -1),
            (-9223372036854775808, -1),
            Ok((0, 1)),
        ),
        ((2, 4), (1, 2), Ok((1, 2))),
        ((0, 3), (1, 2), Ok((1, 2))),
        ((1, 0), (1, 2), Ok((1, 2))),
        ((1, 2), (1, -2), Ok((1, 2))),
        ((1, 2), (2147483648, 1), Ok((1, 2))),
    ];

    #[test]
    fn sums_of_fractions(rt: HostRuntime) {
        for (a, b, want) in SUMS {
            assert_eq!(rt; numbers(Fractions.sum(pair(a), pair(b))), want);
            assert_eq!(rt; numbers(Fractions.sum(pair(b), pair(a))), want);
        }
    }

    const PRODUCTS: [(Numbers, Numbers, Result<Numbers, Fault>); 18] = [
        ((-1, 1), (-8, 9), Ok((8, 9))),
        ((-2147483647, 1), (-1, 1), Ok((2147483647, 1))),
        ((1, 1073741824), (1, 2147483647), Err(RANGE)),
        ((-65537, 1), (-536870912, 1), Err(RANGE)),
        ((-8, 9), (-4451, 343), Ok((35608, 3087))),
        ((4, 3), (-7, 1), Ok((-28, 3))),
        ((-1, 2147483647), (-8, 1), Ok((8, 2147483647))),
        ((2147483647, 1), (1, 2147483647), Ok((1, 1))),
        ((46341, 1), (46341, 1), Err(RANGE)),
        ((46340, 1), (46341, 1), Ok((2147441940, 1))),
        ((1, 46341), (1, 46341), Err(RANGE)),
        ((2147483647, 1), (1, 1), Ok((2147483647, 1))),
        ((1, 1), (1, 2147483647), Ok((1, 2147483647))),
        ((0, 1), (1, 2147483647), Ok((0, 1))),
        (
            (2147483647, 2147483646),
            (2147483646, 2147483647),
            Ok((1, 1)),
        ),
        ((2, 3), (3, 2), Ok((1, 1))),
        ((2, 4), (1, 1), Ok((0, 1))),
        ((3, 1), (1, -2), Ok((0, 1))),
    ];

    #[test]
    fn products_of_fractions(rt: HostRuntime) {
        for (a, b, want) in PRODUCTS {
            assert_eq!(rt; numbers(Fractions.product(pair(a), pair(b))), want);
            assert_eq!(rt; numbers(Fractions.product(pair(b), pair(a))), want);
        }
    }

    // a fraction, its negation and its inverse
    const TURNED: [(Numbers, Numbers, Result<Numbers, Fault>); 11] = [
        (
            (2147483646, 2147483647),
            (-2147483646, 2147483647),
            Ok((2147483647, 2147483646)),
        ),
        ((-8, 7), (8, 7), Ok((-7, 8))),
        ((1073741823, 1), (-1073741823, 1), Ok((1, 1073741823))),
        ((3, 3), (0, 1), Err(DIVISOR)),
        ((0, 1), (0, 1), Err(DIVISOR)),
        ((1, 1), (-1, 1), Ok((1, 1))),
        ((-1, 1), (1, 1), Ok((-1, 1))),
        ((-2147483647, 1), (2147483647, 1), Ok((-1, 2147483647))),
        ((1, 2147483647), (-1, 2147483647), Ok((2147483647, 1))),
        ((1, 0), (0, 1), Err(DIVISOR)),
        ((2147483648, 1), (0, 1), Err(DIVISOR)),
    ];

    #[test]
    fn negations_and_inverses_of_fractions(rt: HostRuntime) {
        for (a, minus, inverse) in TURNED {
            assert_eq!(rt; Fractions.negation(pair(a)), pair(minus));
            assert_eq!(rt; numbers(Fractions.inverse(pair(a))), inverse);
        }
    }

    // which pairs count as zero
    const ZEROS: [(Numbers, bool); 15] = [
        ((2, 4), true),
        ((0, 3), true),
        ((1, 0), true),
        ((1, -2), true),
        ((2147483648, 1), true),
        ((-2147483648, 1), true),
        ((1, 2147483648), true),
        ((1, 9223372036854775807), true),
        ((-9223372036854775808, -9223372036854775808), true),
        ((0, 1), true),
        ((0, -1), true),
        ((-18349, 162), false),
        ((9, 8), false),
        ((-2147483647, 1), false),
        ((1, 2147483647), false),
    ];

    #[test]
    fn pairs_that_are_no_fraction_count_as_zero(rt: HostRuntime) {
        for (a, want) in ZEROS {
            assert_eq!(rt; Fractions.is_zero(pair(a)), want);
        }
    }

    const MADE: [(Numbers, Result<Numbers, Fault>); 30] = [
        (
            (-1262527411978267335, 2187219567195152563),
            Ok((-1031316435, 1786666543)),
        ),
        ((0, 9223372036854775807), Ok((0, 1))),
        ((1, 9223372036854775807), Err(RANGE)),
        ((9223372036854775807, 5670868804544937157), Err(RANGE)),
        ((8286701281338480583, 2147483648), Err(RANGE)),
        ((9223372036854775807, -4), Err(RANGE)),
        ((-6, 0), Err(DENOMINATOR)),
        ((1, 2147483647), Ok((1, 2147483647))),
        ((1, 2147483648), Err(RANGE)),
        ((0, 0), Err(DENOMINATOR)),
        (
            (-2312104439394266392, 1650690526200396987),
            Ok((-1792957624, 1280053839)),
        ),
        ((-9223372036854775808, 1372710284), Err(RANGE)),
        ((1, 959522594), Ok((1, 959522594))),
        ((-9223372036854775808, -9223372036854775808), Ok((1, 1))),
        ((-9223372036854775808, 1), Err(RANGE)),
        ((1, -9223372036854775808), Err(RANGE)),
        ((0, -9223372036854775808), Ok((0, 1))),
        ((-9223372036854775808, 2), Err(RANGE)),
        ((-9223372036854775808, 4294967296), Err(RANGE)),
        ((-9223372036854775808, 4294967298), Err(RANGE)),
        ((2147483647, 1), Ok((2147483647, 1))),
        ((2147483648, 1), Err(RANGE)),
        ((-2147483647, 1), Ok((-2147483647, 1))),
        ((-2147483648, 1), Err(RANGE)),
        ((2147483647, -2147483647), Ok((-1, 1))),
        ((4294967294, 2), Ok((2147483647, 1))),
        ((4294967296, 2), Err(RANGE)),
        ((-6, -4), Ok((3, 2))),
        ((6, -4), Ok((-3, 2))),
        ((-9223372036854775807, -9223372036854775807), Ok((1, 1))),
    ];

    #[test]
    fn fractions_from_two_numbers(rt: HostRuntime) {
        for ((num, den), want) in MADE {
            let got = Fraction::new(num, den).map(Pair::from);
            assert_eq!(rt; numbers(got), want);
        }
    }

    #[test]
    fn whole_numbers(rt: HostRuntime) -> Result<(), Fail> {
        let twelve = Residues::new(12)?;
        for (n, rest) in [
            (0, 0),
            (1, 1),
            (2, 2),
            (11, 11),
            (12, 0),
            (93, 9),
            (144, 0),
            (255, 3),
        ] {
            assert_eq!(rt; Fractions.whole(n), pair((n as i64, 1)));
            assert_eq!(rt; twelve.whole(n), rest);
        }
        Ok(())
    }

    #[test]
    fn numbers_that_are_no_modulus(rt: HostRuntime) {
        for m in [0, 1, 2147483648, 4294967295] {
            assert_eq!(rt; Residues::new(m).err(), Some(MODULUS));
        }
    }

    // the modulus, two values, their sum and product, and the negation and the inverse of the first
    const RESIDUES: [(u32, u32, u32, u32, u32, u32, Result<u32, Fault>); 31] = [
        (2, 0, 1, 1, 0, 0, Err(DIVISOR)),
        (2, 1, 1, 0, 1, 1, Ok(1)),
        (2, 4294967295, 2, 1, 0, 1, Ok(1)),
        (4, 2, 3, 1, 2, 2, Err(DIVISOR)),
        (4, 3, 2, 1, 2, 1, Ok(3)),
        (4, 1, 4294967294, 3, 2, 3, Ok(1)),
        (4, 4, 6, 2, 0, 0, Err(DIVISOR)),
        (6, 1, 7, 2, 1, 5, Ok(1)),
        (6, 1, 5, 0, 5, 5, Ok(1)),
        (6, 3, 4, 1, 0, 3, Err(DIVISOR)),
        (6, 12, 4294967295, 3, 0, 0, Err(DIVISOR)),
        (6, 5, 5, 4, 1, 1, Ok(5)),
        (7, 0, 6, 6, 0, 0, Err(DIVISOR)),
        (7, 3, 5, 1, 1, 4, Ok(5)),
        (7, 6, 6, 5, 1, 1, Ok(6)),
        (7, 4294967295, 8, 4, 3, 4, Ok(5)),
        (12, 5, 6, 11, 6, 7, Ok(5)),
        (12, 6, 9, 3, 6, 6, Err(DIVISOR)),
        (12, 7, 0, 7, 0, 5, Ok(7)),
        (12, 2, 11, 1, 10, 10, Err(DIVISOR)),
        (101, 100, 100, 99, 1, 1, Ok(100)),
        (101, 2, 51, 53, 1, 99, Ok(51)),
        (101, 101, 50, 50, 0, 0, Err(DIVISOR)),
        (101, 4294967295, 4294967295, 33, 45, 34, Ok(98)),
        (2147483647, 2147483646, 1, 0, 2147483646, 1, Ok(2147483646)),
        (
            2147483647,
            2147483646,
            2147483646,
            2147483645,
            1,
            1,
            Ok(2147483646),
        ),
        (2147483647, 2147483647, 5, 5, 0, 0, Err(DIVISOR)),
        (2147483647, 2147483648, 2147483649, 3, 2, 2147483646, Ok(1)),
        (2147483647, 4294967295, 4294967295, 2, 1, 2147483646, Ok(1)),
        (2147483647, 2, 3, 5, 6, 2147483645, Ok(1073741824)),
        (
            2147483647,
            1234567890,
            987654321,
            74738564,
            2043746517,
            912915757,
            Ok(1542360551),
        ),
    ];

    #[test]
    fn residues_at_several_moduli(rt: HostRuntime) -> Result<(), Fail> {
        for (modulus, a, b, sum, product, minus, inverse) in RESIDUES {
            let k = Residues::new(modulus)?;
            assert_eq!(rt; k.sum(a, b), Ok(sum));
            assert_eq!(rt; k.product(a, b), Ok(product));
            assert_eq!(rt; k.negation(a), minus);
            assert_eq!(rt; k.inverse(a), inverse);
            assert_eq!(rt; k.is_zero(a), minus == 0);
        }
        Ok(())
    }

    #[test]
    fn faults_print_their_three_numbers(rt: HostRuntime) -> Result<(), Fail> {
        let fault = RANGE.at(61).deeper();
        let refusal = fault.refusal();
        assert_eq!(rt; format!(in rt.alloc(); "{fault}")?.as_str(), "12 1 61");
        assert_eq!(rt; format!(in rt.alloc(); "{refusal}")?.as_str(), "12 1 61");
        Ok(())
    }
}
