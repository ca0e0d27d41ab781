//! The lines that the program writes: compact JSON with keys in the order of their bytes, and one LF.
//!
//! `refusal_line` tells why a command is refused, `check_line` what a core counts, `run_line` what a run comes to,
//! `goal_line` and `goals_line` what has to be refuted of a core, `certify_line` what is said of a certificate, and
//! `demo_line` that a report was accepted, with its length.
#![tactic(auto)]

mod certify;
mod check;
mod demo;
mod goal;
mod laws;
mod line;
pub mod refusal;
mod run;

pub use certify::certify_line;
pub use check::check_line;
pub use demo::demo_line;
pub use goal::{goal_line, goals_line};
pub use laws::told_envy_is_envy;
pub use refusal::{Refusal, refusal_line};
pub use run::{envy, run_line};
