ghost use Rattle.std.specs.Prelude.{◌≡◌, ◌<◌, ◌≤◌, min, length};
ghost use Rattle.monomials.specs.Dimensions.{size_of};
ghost use Rattle.tables.specs.Steps.{Past, Short, copied};

use crate::tables::Tables;
use kinds::fault::{Fault, Question};
use kinds::kind::Kind;
use std::iter;

// Steps on whole tables. A step visits the places in rising order, and the first value that its kind refuses ends it,
// with the place that was to be written. It borrows the front of a slice alone, so what lies past the table stays.

// The first `n` values become zeros, or all where there are fewer.
pub fn clear<K: Kind>(k: &K, n: usize, table: &mut [K::Value])
    ensures past { Past n table.old table.new }
{
    let zero = k.whole(0);
    let end = n.min(table.len());
    // no `fill`: it asks for a clone that cannot fail, which `Copy` does not promise
    for v in &mut table[..end] {
        *v = zero;
    }
}

// The first `n` values of `from`, as they are.
pub fn copy<V: Copy>(n: usize, from: &[V], to: &mut [V])
    ensures value { to.new ≡ copied n from.now to.old }
    ensures past { Past n to.old to.new }
{
    let end = n.min(from.len().min(to.len()));
    to[..end].copy_from_slice(&from[..end]);
}

impl<K: Kind> Tables<'_, K> {
    // Each value of a table becomes what is formed of it and of the next of the others.
    pub(crate) fn form_each<I: Iterator, F: FnMut(K::Value, I::Item) -> Result<K::Value, Fault>>(
        self,
        table: &mut [K::Value],
        others: I,
        mut form: F,
    ) -> Result<(), Fault>
        requires can { I.can_next others }
        requires callable { F.IsAlwaysCallable form }
        ensures short { Short (length table.old) (size_of self.entry.dimension) table.old table.new result }
        ensures past { Past (size_of self.entry.dimension) table.old table.new }
    {
        let n = self.size();
        if table.len() < n {
            return Err(Fault::no(Question::Tables, 0));
        }
        for (p, (v, other)) in table[..n].iter_mut().zip(others).enumerate() {
            *v = form(*v, other).map_err(|e| e.at(p as u64))?;
        }
        Ok(())
    }

    pub fn negate(self, table: &mut [K::Value])
        ensures past { Past (size_of self.entry.dimension) table.old table.new }
    {
        let end = self.size().min(table.len());
        for v in &mut table[..end] {
            *v = self.kind.negation(*v);
        }
    }

    pub fn add_into(self, first: &mut [K::Value], second: &[K::Value]) -> Result<(), Fault>
        ensures first_short { Short (length first.old) (size_of self.entry.dimension) first.old first.new result }
        ensures second_short { Short (length second.now) (size_of self.entry.dimension) first.old first.new result }
        ensures past { Past (size_of self.entry.dimension) first.old first.new }
    {
        if second.len() < self.size() {
            return Err(Fault::no(Question::Tables, 0));
        }
        self.form_each(first, second.iter(), |a, b| self.kind.sum(a, *b))
    }

    pub fn multiply(self, table: &mut [K::Value], by: K::Value) -> Result<(), Fault>
        ensures short { Short (length table.old) (size_of self.entry.dimension) table.old table.new result }
        ensures past { Past (size_of self.entry.dimension) table.old table.new }
    {
        self.form_each(
            table,
            // no `repeat`: it too asks for a clone that cannot fail
            iter::repeat_with(|| by),
            |a, b| self.kind.product(a, b),
        )
    }
}
