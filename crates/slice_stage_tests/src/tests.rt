// What the public calls of stages answer, a module for each crate.
mod of_counter;
mod of_expand;
mod of_parse;
