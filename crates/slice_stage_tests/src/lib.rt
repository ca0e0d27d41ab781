//! Tests of stages that no run of the program reaches, through their public calls: of what they answer and the report doesn't
//! tell. Beside the code they would have it proved a second time. No program uses this crate.
#![tactic(auto)]

#[cfg(test)]
mod tests;
