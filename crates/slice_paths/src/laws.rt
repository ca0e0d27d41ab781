//! What the goals of a core say of its runs. Each function does nothing: its clauses are the laws.
ghost use Rattle.slice_paths.specs.Coming.{AnswersCome, ComingGoalsFit, GoalsBehindFit, GoalsComeFirst};
ghost use Rattle.slice_paths.specs.Counting.{SkipsPassOver};
ghost use Rattle.slice_paths.specs.Events.{EventsTellGoals};
ghost use Rattle.slice_paths.specs.FrontLaws.{CoversAreFronts, GoalsHaveCovers, ShortFormsRefute};
ghost use Rattle.slice_paths.specs.RunLaws.{RefutedCoresAreFair, RefutedMeansFair, RefutedOnTheWayMeansFair, RowsAreOverUnknowns, RunsObeyRows, RunsObeyRowsOnTheWay};

/// Whatever pieces are worth and whoever answers the cuts: a run that is done or stuck comes to one of the core's places, and
/// its values, brought to whole numbers with one total above 0, solve the rows of each goal as which it ends.
pub fn runs_obey_their_rows()
    ensures { RunsObeyRows }
{}

/// Where the rows of no goal have a solution, no run is stuck, and none that is done leaves envy.
pub fn refuted_goals_mean_fair_runs()
    ensures { RefutedMeansFair }
{}

/// Where each goal's rows are refuted by some multipliers, no run is stuck on any list of valuations by steps, whoever
/// answers the cuts, and none that is done leaves envy.
pub fn refuted_cores_are_fair()
    ensures { RefutedCoresAreFair }
{}

/// Each row of a goal has as many coefficients as there are unknowns: the whole, and each agent's value of each atom.
pub fn rows_are_over_the_unknowns()
    ensures { RowsAreOverUnknowns }
{}

/// The same of the rows on the way: after each front of a run's choices the rows so far have a solution.
pub fn runs_obey_the_rows_on_their_way()
    ensures { RunsObeyRowsOnTheWay }
{}

/// Where each goal's rows have no solution, or those after a front of its choices have none, every run is fair. So one
/// refutation may stand for all goals that follow a front.
pub fn goals_refuted_on_the_way_mean_fair_runs()
    ensures { RefutedOnTheWayMeansFair }
{}

/// The rows behind the first passed choices of a goal, all over as many unknowns, are those after a front of its choices. So
/// where they have no solution, they stand for all goals that follow that front, as `goals_refuted_on_the_way_mean_fair_runs`
/// says.
pub fn covers_are_fronts()
    ensures { CoversAreFronts }
{}

/// Behind a goal come, in order, those that have its first so many passed choices, and then the others. How many the former
/// are depends on no form, and what comes up behind them tells the latter.
pub fn skips_pass_over_those_that_share()
    ensures { SkipsPassOver }
{}

/// Behind so many passed choices a goal has one row for the whole, one for each agent and one for each of these choices. It has
/// none exactly where it has fewer passed choices, and then no more rows of its own than these would be.
pub fn goals_have_covers()
    ensures { GoalsHaveCovers }
{}

/// Multipliers that refute a goal's rows, and are 0 from the end of the rows behind its first passed choices on, refute these.
pub fn short_forms_refute()
    ensures { ShortFormsRefute }
{}

/// What comes up on a walk over all ways tells the goals of the core in order, up to the first number that doesn't fit.
pub fn events_tell_goals()
    ensures { EventsTellGoals }
{}

/// What a stream answers by its events is the next of what is coming: goals, and then the end or a fault. What is coming at
/// the start are the first goals of the core, and all of them where no fault comes.
pub fn streams_give_goals()
    ensures answers { AnswersCome }
    ensures goals { GoalsComeFirst }
    ensures fit { ComingGoalsFit }
{}

/// The goals that come behind all that follows some passed choices have rows over the same unknowns that fit, too.
pub fn goals_behind_fit()
    ensures { GoalsBehindFit }
{}
