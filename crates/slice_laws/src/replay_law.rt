//! What `replay` answers to the line with which `verify` ends. The function does nothing: its clause is the law.
ghost use Rattle.slice_laws.specs.ReplayLaw.{ReplayTellsTheCounterexample};

use slice_parse::parsings_are_unique;

/// Where `verify F` ends with a counterexample and the file C holds the last line that it writes, LF included, each answer to
/// `replay F C` is negative, with the line of the run of the program in F on the valuations and with the answers of that line,
/// which is stuck at that query and on that side, or where that pair stands in the envy; or it says that a number of that
/// run doesn't fit.
pub fn replay_tells_the_counterexample()
    ensures { ReplayTellsTheCounterexample }
{
    parsings_are_unique();
}
