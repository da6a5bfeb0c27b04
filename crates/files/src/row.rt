// The values of one line: the exponents a, b and c of a term, and its coefficient num / den.
#[derive(Clone, Copy)]
pub struct Row {
    pub a: u64,
    pub b: u64,
    pub c: u64,
    pub num: i64,
    pub den: i64,
}
