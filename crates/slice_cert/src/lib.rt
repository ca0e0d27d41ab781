//! The lines of a certificate, as they are written and read.
//!
//! A certificate says that no run of a protocol ends in envy, in a way that can be checked by arithmetic alone. It is a
//! list of lines, each a JSON object: a header, a line for each goal with the multipliers that refute its rows, or one for
//! all goals that follow the same choices, and a closing line.
#![tactic(auto)]

pub mod laws;
pub mod line;
pub mod read;
pub mod short;
pub mod whole_text;
pub mod write;

pub use laws::bytes_are_one_line_at_most;
pub use line::Line;
pub use read::{ReadLineFault, read_line};
pub use short::short_line;
pub use write::write_line;

#[cfg(test)]
mod tests;
