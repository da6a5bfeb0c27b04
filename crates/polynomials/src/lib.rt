//! Polynomials over every commutative ring, without limit of degree: definitions and lemmas, which no contract names yet.

#![tactic(auto)]
