use kinds::fault::Fault;
use kinds::kind::Kind;
use monomials::dimension::Dimension;
use monomials::monomial::Axis;
use monomials::monomial::Axis::{X, Y, Z};
use tables::tables::Tables;

// A symmetric matrix by its upper triangle; of an operator's matrix in the plane the entries with a z are not read.
#[derive(Clone, Copy)]
pub struct Symmetric<V> {
    pub xx: V,
    pub xy: V,
    pub xz: V,
    pub yy: V,
    pub yz: V,
    pub zz: V,
}

// The upper triangle, row by row.
pub(crate) const UPPER: [(Axis, Axis); 6] = [(X, X), (X, Y), (X, Z), (Y, Y), (Y, Z), (Z, Z)];

impl<V: Copy> Symmetric<V> {
    pub(crate) fn entry(&self, row: Axis, column: Axis) -> V {
        match (row, column) {
            (X, X) => self.xx,
            (X, Y) | (Y, X) => self.xy,
            (X, Z) | (Z, X) => self.xz,
            (Y, Y) => self.yy,
            (Y, Z) | (Z, Y) => self.yz,
            (Z, Z) => self.zz,
        }
    }
}

// a b - c d
fn minor<K: Kind>(
    k: &K,
    a: K::Value,
    b: K::Value,
    c: K::Value,
    d: K::Value,
) -> Result<K::Value, Fault> {
    let first = k.product(a, b)?;
    let second = k.product(c, d)?;
    k.sum(first, k.negation(second))
}

// In the plane a minor is one entry.
fn plane_adjugate<K: Kind>(k: &K, m: &Symmetric<K::Value>) -> Symmetric<K::Value> {
    let zero = k.whole(0);
    Symmetric {
        xx: m.yy,
        xy: k.negation(m.xy),
        xz: zero,
        yy: m.xx,
        yz: zero,
        zz: zero,
    }
}

fn space_adjugate<K: Kind>(k: &K, m: &Symmetric<K::Value>) -> Result<Symmetric<K::Value>, Fault> {
    Ok(Symmetric {
        xx: minor(k, m.yy, m.zz, m.yz, m.yz)?,
        xy: k.negation(minor(k, m.xy, m.zz, m.yz, m.xz)?),
        xz: minor(k, m.xy, m.yz, m.yy, m.xz)?,
        yy: minor(k, m.xx, m.zz, m.xz, m.xz)?,
        yz: k.negation(minor(k, m.xx, m.yz, m.xy, m.xz)?),
        zz: minor(k, m.xx, m.yy, m.xy, m.xy)?,
    })
}

// Along the first row, from left to right.
fn determinant<K: Kind>(
    tables: Tables<'_, K>,
    m: &Symmetric<K::Value>,
    adjugate: &Symmetric<K::Value>,
) -> Result<K::Value, Fault> {
    let k = tables.kind;
    let first = k.product(m.xx, adjugate.xx)?;
    let second = k.product(m.xy, adjugate.xy)?;
    let two = k.sum(first, second)?;
    match tables.dimension {
        Dimension::Plane => Ok(two),
        Dimension::Space => k.sum(two, k.product(m.xz, adjugate.xz)?),
    }
}

// Each entry times a value; those with a z are zero in the plane, and stay so.
fn multiple<K: Kind>(
    k: &K,
    m: &Symmetric<K::Value>,
    by: K::Value,
) -> Result<Symmetric<K::Value>, Fault> {
    Ok(Symmetric {
        xx: k.product(m.xx, by)?,
        xy: k.product(m.xy, by)?,
        xz: k.product(m.xz, by)?,
        yy: k.product(m.yy, by)?,
        yz: k.product(m.yz, by)?,
        zz: k.product(m.zz, by)?,
    })
}

// The inverse matrix: the adjugate, the determinant, its inverse, and their product.
pub(crate) fn inverted<K: Kind>(
    tables: Tables<'_, K>,
    m: &Symmetric<K::Value>,
) -> Result<Symmetric<K::Value>, Fault> {
    let k = tables.kind;
    let adjugate = match tables.dimension {
        Dimension::Plane => plane_adjugate(k, m),
        Dimension::Space => space_adjugate(k, m)?,
    };
    let by = k.inverse(determinant(tables, m, &adjugate)?)?;
    multiple(k, &adjugate, by)
}
