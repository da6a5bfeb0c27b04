ghost use Rattle.std.specs.Prelude.{◌≤◌};
ghost use Rattle.writer.specs.Steps.{Room, WritesOn};
ghost use Rattle.writer.specs.Terms.{term, table_written};
ghost use Rattle.writer.specs.Writes.{Put};

use crate::write::{FileText, Writer};
use files::row::Row;
use kinds::fraction::Fraction;
use kinds::pairs::Pair;
use monomials::dimension::Dimension;
use monomials::monomial::Monomial;

// Writes the line of a coefficient, unless it is zero.
fn put_coefficient(writer: &mut Writer, m: Monomial, value: Pair)
    requires { Room writer.old (term m value) }
    ensures { WritesOn writer.old (term m value) writer.new }
{
    let reduced = Pair::from(Fraction::from(value));
    if reduced.num != 0 {
        writer.line(Row {
            a: m.a as u64,
            b: m.b as u64,
            c: m.c as u64,
            num: reduced.num,
            den: reduced.den,
        });
    }
}

// Writes the file of a table at the beginning of the text: the line of names, and the terms that are not zero, by place.
// It answers the place after them. There is always room.
pub fn put_table(out: &mut FileText, dimension: Dimension, table: &[Pair]) -> usize
    ensures file { Put out.old 0 (table_written dimension table.now) out.new result }
    ensures room { result ≤ 16384 }
{
    let mut writer = Writer::new(out);
    writer.bytes(b"a b c num den\n");
    for (m, value) in dimension.monomials().zip(table) {
        put_coefficient(&mut writer, m, *value);
    }
    writer.place()
}
