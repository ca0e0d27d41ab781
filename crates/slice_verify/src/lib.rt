//! The verifier: each goal of a core is refuted, or a run is told that leaves envy or is stuck.
#![tactic(auto)]

mod lines;
pub mod verifier;

pub use verifier::{Decision, VerifyFault, verify};
