//! All that the program does: the words of a command in, lines and a status out, over any files and any output.
//!
//! [`top`] is the one call. Its contract says what is written and with what status it ends: the
//! answer to the command over the files, or what failed.
#![tactic(auto)]

mod certificates;
pub mod command;
mod cores;
mod decisions;
mod demo;
mod ending;
mod files;
mod goals;
mod programs;
mod runs;
pub mod status;
mod stop;
mod upgrades;
mod values;
mod work;

pub use ending::{end_for_memory, top};
pub use status::Status;
