//! Definitions computed on small examples: what the headline and the definitions below it say of programs that one can
//! follow by hand. No program uses this crate; each example is a lemma in `proofs/`.
#![tactic(auto)]

mod laws;

pub use laws::fair_and_unfair_programs_exist;
