use cells::answer::answer;
use kinds::fault::{Fault, Refusal};
use kinds::fractions::Fractions;
use kinds::kind::Kind;
use kinds::pairs::Pair;
use laplace::laplacian::isotropic;
use monomials::dimension::Dimension;
use monomials::monomial::Monomial;
use operators::operator::Solvable;
use std::alloc::Global;
use std::test::Fail;

// A cell's text and what answers it.
const ANSWERED: [(&str, &str); 5] = [
    (
        "d knum kden\n3 4 1\na b c num den\n2 3 1 1 1\n",
        "a b c num den\n0 1 1 3 8\n2 1 1 -3 8\n0 3 1 -1 8\n2 3 1 1 4\n",
    ),
    (
        "d knum kden\n2 0 1\na b c num den\n2 0 0 1 1\n",
        "a b c num den\n4 0 0 7 96\n2 2 0 1 16\n0 4 0 -1 96\n",
    ),
    (
        "d knum kden\n2 0 7\na b c num den\n10 0 0 0 1\n",
        "a b c num den\n",
    ),
    ("d knum kden\n3 4 6\na b c num den\n", "a b c num den\n"),
    (
        "d knum kden\n2 1 1\na b c num den\n0 0 0 2147483646 1\n0 0 0 1 1\n",
        "a b c num den\n0 0 0 2147483647 1\n",
    ),
];

// A cell's text and the three values of its refusal.
const REFUSED: [(&str, &str); 24] = [
    ("d knum kden\n4 0 0\na b c num den\n", "1 0 0"),
    ("d knum kden\n2 0 0\na b c num den\n", "6 0 0"),
    (
        "d knum kden\n3 1 1\na b c num den\n0 0 0 4294967296 1\n0 0 0 1 0\n",
        "6 0 1",
    ),
    ("d knum kden\n2 0 1\na b c num den\n0 0 1 0 5\n", "10 0 0"),
    (
        "d knum kden\n3 1 1\na b c num den\n0 0 0 1 1\n13 0 0 4294967296 1\n",
        "10 0 1",
    ),
    (
        "d knum kden\n2 1 1\na b c num den\n9223372036854775807 0 0 1 1\n",
        "10 0 0",
    ),
    ("d knum kden\n2 0 1\na b c num den\n11 0 0 1 1\n", "11 0 11"),
    (
        "d knum kden\n2 1 1\na b c num den\n0 0 0 2147483647 1\n0 0 0 1 1\n",
        "12 0 0",
    ),
    (
        "d knum kden\n2 -9223372036854775808 1\na b c num den\n",
        "12 0 0",
    ),
    (
        "d knum kden\n2 3 1\na b c num den\n2 2 0 1800000000 1\n",
        "12 1 4",
    ),
    (
        "d knum kden\n2 0 5\na b c num den\n2 6 0 844747580 9\n",
        "12 0 61",
    ),
    ("", "14 0 0"),
    ("d", "14 0 1"),
    ("d knum kdem\n", "14 0 10"),
    ("d knum kden\n3 4 1\na b c num den\n2 3 1 1 1", "14 0 41"),
    ("d knum kden\n3 4 1\na b c num den\n2 3 1 1", "14 0 39"),
    ("d knum kden\n03 4 1\n", "14 0 13"),
    ("d knum kden\n3 -0 1\n", "14 0 15"),
    ("d knum kden\n3 9223372036854775808 1\n", "14 0 32"),
    ("d knum kden\n3 -9223372036854775809 1\n", "14 0 33"),
    ("d knum kden\n-3 4 1\n", "14 0 12"),
    ("d knum kden\n3 4 -1\n", "14 0 16"),
    ("d knum kden\n3  4 1\n", "14 0 14"),
    ("d knum kden\n3 4 1\n\na b c num den\n", "14 0 18"),
];

// Whether a cell's text is answered by this text.
fn answers(heap: Global, text: &[u8], want: &[u8]) -> Result<bool, Fail> {
    let given = answer(heap, text)?;
    Ok(given.as_slice() == want)
}

fn refuses(heap: Global, text: &[u8], values: &str) -> Result<bool, Fail> {
    let want = format!(in heap; "number depth place\n{values}\n")?;
    answers(heap, text, want.as_bytes())
}

// The text of a cell in which one line of values comes some times over.
fn repeated(heap: Global, line: &[u8], times: usize) -> Result<Vec<u8>, Fail> {
    let mut text = Vec::from_slice(heap, b"d knum kden\n3 4 1\na b c num den\n")?;
    for _ in 0..times {
        text.extend_from_slice(line)?;
    }
    Ok(text)
}

#[cfg(test)]
mod tests {
    use super::*;

    #[test]
    fn cells_are_answered(rt: HostRuntime) -> Result<(), Fail> {
        for (text, want) in &ANSWERED {
            assert!(rt;
                answers(rt.alloc(), text.as_bytes(), want.as_bytes())?,
                "{}",
                text
            );
        }
        Ok(())
    }

    #[test]
    fn cells_are_refused(rt: HostRuntime) -> Result<(), Fail> {
        for (text, values) in &REFUSED {
            assert!(rt; refuses(rt.alloc(), text.as_bytes(), values)?, "{}", text);
        }
        Ok(())
    }

    // 32 bytes before the terms, then lines of 10 bytes: the first byte too many is that of the 1,025th line.
    #[test]
    fn lines_of_terms_are_limited(rt: HostRuntime) -> Result<(), Fail> {
        let most = repeated(rt.alloc(), b"0 0 0 1 1\n", 1024)?;
        assert!(rt; answers(rt.alloc(), most.as_slice(), b"a b c num den\n0 0 0 256 1\n")?);
        let more = repeated(rt.alloc(), b"0 0 0 1 1\n", 1025)?;
        assert!(rt; refuses(rt.alloc(), more.as_slice(), "14 0 10272")?);
        Ok(())
    }

    // A text of exactly 65,536 bytes is read, here to be refused for its exponents; one byte more is one too many. A misfit
    // before the limit comes first.
    #[test]
    fn bytes_are_limited(rt: HostRuntime) -> Result<(), Fail> {
        let heap = rt.alloc();
        let mut text = repeated(
            heap,
            b"1234567890123456789 0 0 1234567890123456789 1234567890123456789\n",
            1023,
        )?;
        text.extend_from_slice(b"0 0 0 123456789012 123456789012\n")?;
        assert!(rt; text.len() == 65536);
        assert!(rt; refuses(heap, text.as_slice(), "10 0 0")?);
        text.push(b'0')?;
        assert!(rt; refuses(heap, text.as_slice(), "14 0 65536")?);
        let wrong = repeated(
            heap,
            b"0 0 0 1234567890123456789 1000000000000000000000000\n",
            1300,
        )?;
        assert!(rt; refuses(heap, wrong.as_slice(), "14 0 77")?);
        Ok(())
    }

    #[test]
    fn place_of_a_monomial(rt: HostRuntime) {
        assert_eq!(rt;
            Monomial { a: 2, b: 3, c: 1 }.place(Dimension::Space),
            Some(67)
        );
        assert_eq!(rt;
            Monomial { a: 0, b: 0, c: 12 }.place(Dimension::Space),
            Some(454)
        );
        assert_eq!(rt;
            Monomial { a: 0, b: 12, c: 0 }.place(Dimension::Plane),
            Some(90)
        );
        assert_eq!(rt;
            Monomial { a: 12, b: 1, c: 0 }.place(Dimension::Space),
            None
        );
        assert_eq!(rt; Monomial { a: 0, b: 0, c: 1 }.place(Dimension::Plane), None);
    }

    // The solution of the Laplacian for x² in the plane, with the working tables left as zeros and no more.
    #[test]
    fn laplacian_of_the_plane(rt: HostRuntime) -> Result<(), Fail> {
        let zero = Fractions.whole(0);
        let one = Fractions.whole(1);
        let mut source = [zero; 92];
        source[3] = one;
        source[91] = one;
        let mut target = [one; 92];
        let mut work = [one; 547];
        let passes = isotropic(&Fractions, 2).solve(
            &Fractions,
            &mut source,
            &mut target,
            &mut work,
        )?;
        assert_eq!(rt; passes, 1);
        assert_eq!(rt; target[10], Pair { num: 7, den: 96 });
        assert_eq!(rt; target[12], Pair { num: 1, den: 16 });
        assert_eq!(rt; target[14], Pair { num: -1, den: 96 });
        assert!(rt; target[91].num == 1 && source[3].num == 1 && source[91].num == 1);
        assert!(rt; work[0].num == 0 && work[545].num == 0 && work[546].num == 1);
        Ok(())
    }

    // A source of degree 11 is refused for its lift: the target is zeroed, the source as it was.
    #[test]
    fn lift_is_limited(rt: HostRuntime) {
        let zero = Fractions.whole(0);
        let one = Fractions.whole(1);
        let mut source = [zero; 91];
        source[66] = one;
        let mut target = [one; 91];
        let mut work = [one; 546];
        let answer = isotropic(&Fractions, 2).solve(
            &Fractions,
            &mut source,
            &mut target,
            &mut work,
        );
        let refusal = Refusal {
            number: 11,
            depth: 0,
            place: 11,
        };
        assert_eq!(rt; answer, Err(Fault::Size(refusal)));
        assert!(rt; target[0].num == 0 && target[90].num == 0 && source[66].num == 1);
    }
}
