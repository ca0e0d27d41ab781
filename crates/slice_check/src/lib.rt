//! The checker of certificates, and their upgrade to version 2.
#![tactic(auto)]

pub mod answer;
pub mod check;
pub mod completeness;
pub mod laws;
pub mod upgrade;
pub mod verdict;

pub use answer::{CertAnswer, CertFault, HeaderField, Rejection};
pub use check::check_certificate;
pub use upgrade::{UpgradeFault, upgrade_certificate};
pub use verdict::{Verdict, refutes};

#[cfg(test)]
mod tests;
