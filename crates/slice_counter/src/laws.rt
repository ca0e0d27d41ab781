//! What a solution of a goal's rows gives.
ghost use Rattle.slice_counter.specs.Counter.{CounterexamplesAreUnfair, GoalsAreSolvedOnTheirWay, SolutionsGiveCounterexamples};

/// A solution of a goal's rows, as valuations with steps of width 1, and each cut answered by the boundary of its atoms, is a
/// counterexample to the goal.
pub fn solutions_give_counterexamples()
    ensures { SolutionsGiveCounterexamples }
{}

/// A run that is a counterexample to a goal of the core is stuck, or leaves envy.
pub fn counterexamples_are_unfair()
    ensures { CounterexamplesAreUnfair }
{}

/// Where the rows of a goal have a solution, those after each front of its choices have one. So what refutes the rows behind
/// the first choices of a goal leaves the goal's own rows without a solution.
pub fn goals_with_solutions_have_them_on_their_way()
    ensures { GoalsAreSolvedOnTheirWay }
{}
