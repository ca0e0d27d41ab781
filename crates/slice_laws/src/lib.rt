//! Laws of the definitions that the contract of `top` rests on: that files and a command have exactly one answer, what each
//! command answers where nothing keeps it from coming to the end of its work, and what answers say of the protocol in the
//! file. No program uses this crate: no function does anything, its clauses are the laws.
#![tactic(auto)]

mod completeness;
mod laws;
mod replay_law;

pub use completeness::{
    certify_judges, check_gives_the_counts, demo_decides, paths_gives_the_goals,
    print_gives_the_text, replay_tells_a_run_in_range, run_tells_a_run_in_range, upgrade_judges,
    upgraded_files_are_certificates, verify_decides, verify_is_exact,
};
pub use laws::{
    answers_are_unique, answers_exist, refuted_goals_mean_fair_runs, replay_tells_the_run,
    run_tells_the_least_run, written_lines_refute_goals,
};
pub use replay_law::replay_tells_the_counterexample;
