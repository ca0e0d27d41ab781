//! Laws of the definitions that `top`'s contract rests on. No function does anything: its clauses are the
//! laws.
ghost use Rattle.slice_laws.specs.Laws.{AnswersAreUnique, AnswersExist, RefutedGoalsMeanFairRuns, ReplayRefusesTheRun, ReplayTellsTheRun, RunStopsAtNumbers, RunTellsTheLeastRun, UnsolvedGoalsMeanFairRuns};
ghost use Rattle.slice_laws.specs.Written.{LinesRefuteGoals, LinesTakeAll, ReachedGoalsFollow};

use slice_parse::parsings_are_unique;

/// What `run` tells is told of the least run of the program in the file, in which each cut is answered by the least right
/// answer: its queries, shares and what is left, its share-values and those who envy; where it is done, shares and what
/// is left are disjoint and make up the cake. It is given up only where a number doesn't fit.
pub fn run_tells_the_least_run()
    ensures told { RunTellsTheLeastRun }
    ensures stops { RunStopsAtNumbers }
{}

/// What `replay` tells is told, in the same way, of the run of the program with the answers that are given; where it
/// refuses an answer, that run is refused for it.
pub fn replay_tells_the_run()
    ensures told { ReplayTellsTheRun }
    ensures refused { ReplayRefusesTheRun }
{}

/// Where no goal that `paths` tells has rows with a solution, or the rows of each are refuted by some multipliers, every run of
/// the program in the file is fair: on every list of valuations of any size, however its cuts are answered, no run is stuck,
/// and one that is done gives disjoint shares and leaves nobody envious; some run is done, and a run that was answered
/// rightly so far can always be brought to its end.
pub fn refuted_goals_mean_fair_runs()
    ensures unsolved { UnsolvedGoalsMeanFairRuns }
    ensures refuted { RefutedGoalsMeanFairRuns }
{}

/// The lines that `verify` writes, in whatever it ends, take the goals before in their order, and each of these is refuted: its
/// rows have no solution, or those behind some of its choices have none. The goal that closes the work is the core's next
/// one; where none comes, the lines took all.
pub fn written_lines_refute_goals()
    ensures refuted { LinesRefuteGoals }
    ensures next { ReachedGoalsFollow }
    ensures all { LinesTakeAll }
{}

/// Files and a command have one answer: `top`'s report leaves no choice but that of the devices and of
/// memory.
pub fn answers_are_unique()
    ensures { AnswersAreUnique }
{
    parsings_are_unique();
}

/// Files and a command have an answer, whatever the files hold.
pub fn answers_exist()
    ensures { AnswersExist }
{}
