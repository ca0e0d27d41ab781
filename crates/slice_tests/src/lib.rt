//! Tests of the whole program over devices that fail, through its one call. Beside the code they would have it proved a
//! second time. No program uses this crate.
#![tactic(auto)]

#[cfg(test)]
mod tests;
