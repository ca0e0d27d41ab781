//! When each command comes to an end of its work, whatever else the files hold: laws of the definitions that
//! `top`'s contract rests on, faults of devices and want of memory aside: its clause `answered` says that what it
//! writes is an answer, and these laws say which. No function does anything: its clauses are the laws.
ghost use Rattle.slice_laws.specs.Completeness.{CertifyJudges, CheckGivesTheCounts, DemoDecides, PathsGivesTheGoals, PrintGivesTheText, ReplayTellsARunInRange, RunTellsARunInRange, UpgradeJudges, UpgradedFilesAreCertificates, VerifyDecides, VerifyIsExact};

use slice_parse::parsings_are_unique;

/// `print F` writes the canonical text, wherever F spells a program.
pub fn print_gives_the_text()
    ensures { PrintGivesTheText }
{
    parsings_are_unique();
}

/// `check F` writes the counts of the core, wherever F spells a program that keeps the rules and passes no limit of expansion.
pub fn check_gives_the_counts()
    ensures { CheckGivesTheCounts }
{
    parsings_are_unique();
}

/// `paths F` writes all goals of the core in order, and how many they are, where moreover all of them can be made.
pub fn paths_gives_the_goals()
    ensures { PathsGivesTheGoals }
{
    parsings_are_unique();
}

/// `run F V` tells the least run on the valuations in V, done or stuck, where no number stops it.
pub fn run_tells_a_run_in_range()
    ensures { RunTellsARunInRange }
{
    parsings_are_unique();
}

/// `replay F V` tells the run on the valuations and with the answers in V, where they make one and no number stops it.
pub fn replay_tells_a_run_in_range()
    ensures { ReplayTellsARunInRange }
{
    parsings_are_unique();
}

/// `certify F C` accepts C exactly where it is a certificate, and else rejects it for the first thing that is wrong, where all
/// goals of the core can be made, C is within a certificate's limit, and the sums of its multipliers fit.
pub fn certify_judges()
    ensures { CertifyJudges }
{
    parsings_are_unique();
}

/// `upgrade F C` writes a certificate of version 2 and ends well exactly where C is one of version 1; else it ends with the first
/// thing that is wrong with C, a header of version 2 counted as such, under the premises of `certify_judges`.
pub fn upgrade_judges()
    ensures { UpgradeJudges }
{
    parsings_are_unique();
}

/// Where `upgrade F C` ends well, C is a certificate of version 1 of the program in F, and what was written is one of version 2:
/// whatever C holds, and with no premise on what fits.
pub fn upgraded_files_are_certificates()
    ensures { UpgradedFilesAreCertificates }
{}

/// `verify F` ends with envy-free or with a counterexample, where all goals of the core can be made, the pivot run of each that
/// no line takes beside its own goal ends within 100,000 pivots and fits, and no height of these is above 10^18.
pub fn verify_decides()
    ensures { VerifyDecides }
{
    parsings_are_unique();
}

/// Where `verify F` ends with envy-free or with a counterexample, it is envy-free exactly where every run of the program in F
/// is fair.
pub fn verify_is_exact()
    ensures { VerifyIsExact }
{
    parsings_are_unique();
}

/// `demo N` says that the report of `verify` on the protocol of N rounds is accepted for all goals, and how many bytes it has, or
/// writes the line of a counterexample, where that protocol has a core, `verify` decides so, and the report is within a
/// certificate's limit and the sums of its multipliers fit.
pub fn demo_decides()
    ensures { DemoDecides }
{
    parsings_are_unique();
}
