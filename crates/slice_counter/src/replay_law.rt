//! The closing line of a counterexample is a replay file. The function does nothing: its clause is the law.
ghost use Rattle.slice_counter.specs.ReplayLaw.{ClosingLinesReplay};

/// The line that tells the counterexample that a solution of a goal's rows gives, LF included, is a replay file of its
/// valuations and answers, and within the bytes that such a file may have.
pub fn closing_lines_are_replay_files()
    ensures { ClosingLinesReplay }
{}
