use crate::call::{filled, told};
use crate::raw::Raw;
use laplace::laplacian::Laplacian;
use laplace::matrix::Symmetric;
use layers::remainder::Remainder;
use monomials::dimension::Dimension;
use operators::constant::Constant;
use operators::operator::Solvable;
use std::alloc::{AllocError, Global};
use std::slice::Iter;

// A line has, in numbers: the modulus; the pile's form; 1 to solve and 0 to apply; the lengths of source, target and working slice;
// the operators of the pile, each with its dimension and six values; and then the entries of the source, each with its place and
// value. A value has two numbers. The forms are 1, a constant; 2, a Laplacian; 3, a remainder layer of the two; 4, a layer over a
// layer, all Laplacians; 5, the same over a constant. What a line is too short for is zero.
type Numbers<'a> = Iter<'a, i64>;

fn number(numbers: &mut Numbers<'_>) -> i64 {
    numbers.next().copied().unwrap_or(0)
}

// A length that is small enough to lend.
fn length(numbers: &mut Numbers<'_>) -> usize {
    usize::try_from(number(numbers)).unwrap_or(0).min(100000)
}

fn value<K: Raw>(k: &K, numbers: &mut Numbers<'_>) -> K::Value {
    let a = number(numbers);
    k.made(a, number(numbers))
}

// A constant has the first of an operator's six values.
fn constant<K: Raw>(k: &K, numbers: &mut Numbers<'_>) -> Constant<K::Value> {
    let Laplacian { dimension, matrix } = laplacian(k, numbers);
    Constant {
        dimension,
        value: matrix.xx,
    }
}

fn laplacian<K: Raw>(k: &K, numbers: &mut Numbers<'_>) -> Laplacian<K::Value> {
    Laplacian {
        dimension: length(numbers) as u64,
        matrix: Symmetric {
            xx: value(k, numbers),
            xy: value(k, numbers),
            xz: value(k, numbers),
            yy: value(k, numbers),
            yz: value(k, numbers),
            zz: value(k, numbers),
        },
    }
}

// A layer over a base, with a Laplacian for its rest.
fn over<K: Raw, B>(k: &K, base: B, numbers: &mut Numbers<'_>) -> Remainder<B, Laplacian<K::Value>> {
    let rest = laplacian(k, numbers);
    Remainder { base, rest }
}

#[derive(Clone, Copy)]
enum Form {
    Constant,
    Laplacian,
    Layer,
    LaplacianLayers,
    ConstantLayers,
}

impl From<i64> for Form {
    fn from(number: i64) -> Form {
        match number {
            1 => Form::Constant,
            2 => Form::Laplacian,
            3 => Form::Layer,
            4 => Form::LaplacianLayers,
            _ => Form::ConstantLayers,
        }
    }
}

// What the line asks for; a closure could be made only once the operator is known, and the choice stands there too.
#[derive(Clone, Copy)]
enum Step {
    Solve,
    Apply,
}

// What stands before the operators; the modulus is read already.
#[derive(Clone, Copy)]
struct Request {
    form: Form,
    step: Step,
    source: usize,
    target: usize,
    work: usize,
    // that of the first operator
    dimension: Dimension,
}

fn requested(numbers: &mut Numbers<'_>) -> Request {
    Request {
        form: number(numbers).into(),
        step: if number(numbers) == 1 {
            Step::Solve
        } else {
            Step::Apply
        },
        source: length(numbers),
        target: length(numbers),
        work: length(numbers),
        dimension: if numbers.as_slice().first() == Some(&2) {
            Dimension::Plane
        } else {
            Dimension::Space
        },
    }
}

// The source: zeros but for its entries, up to the first that has no place there.
fn source<K: Raw>(
    heap: Global,
    k: &K,
    count: usize,
    entries: &mut Numbers<'_>,
) -> Result<Vec<K::Value>, AllocError> {
    let mut all = vec![in heap; k.whole(0); count]?;
    for entry in entries.as_slice().chunks(3) {
        let mut numbers = entry.iter();
        let place = length(&mut numbers);
        let Some(at) = all.get_mut(place) else {
            break;
        };
        *at = value(k, &mut numbers);
    }
    Ok(all)
}

fn worked<K: Raw, O: Solvable<K>>(
    heap: Global,
    k: &K,
    o: &O,
    request: Request,
    entries: &mut Numbers<'_>,
) -> Result<String, AllocError> {
    let mut source = source(heap, k, request.source, entries)?;
    let mut target = filled(heap, k, request.target)?;
    let mut work = filled(heap, k, request.work)?;
    let answer = match request.step {
        Step::Solve => o.solve(k, &mut source, &mut target, &mut work),
        Step::Apply => o.apply(k, &mut source, &mut target, &mut work).map(|()| 0),
    };
    told(heap, k, request.dimension.size(), answer, &target, &work)
}

pub(crate) fn run<K: Raw>(
    heap: Global,
    k: &K,
    numbers: &mut Numbers<'_>,
) -> Result<String, AllocError> {
    let request = requested(numbers);
    match request.form {
        Form::Constant => worked(heap, k, &constant(k, numbers), request, numbers),
        Form::Laplacian => worked(heap, k, &laplacian(k, numbers), request, numbers),
        Form::Layer => {
            let pile = over(k, constant(k, numbers), numbers);
            worked(heap, k, &pile, request, numbers)
        }
        Form::LaplacianLayers => {
            let base = over(k, laplacian(k, numbers), numbers);
            worked(heap, k, &over(k, base, numbers), request, numbers)
        }
        Form::ConstantLayers => {
            let base = over(k, constant(k, numbers), numbers);
            worked(heap, k, &over(k, base, numbers), request, numbers)
        }
    }
}
