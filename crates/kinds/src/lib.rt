//! Kinds of coefficients: fractions within 31 bits and residues, as exact models of commutative rings.
//! A kind's calls answer the ring's own result in its one representation, or say why not.

#![tactic(auto)]

mod euclid;
pub mod fault;
pub mod fraction;
pub mod fractions;
pub mod kind;
pub mod pairs;
pub mod residues;
