//! Laws of the definitions that contracts cite. Each function does nothing: its clauses are the laws.
ghost use Rattle.slice_tableau.specs.Laws.{BasesHaveOneTableau, OneColumnEnters, OneRowLeaves, RunsKeepListsHigh, StepsKeepListsHigh, StepsRise};

/// The tableau of rows is determined by its basis, and the lawful choice of a column and a row by the tableau.
pub fn a_tableau_is_one()
    ensures basis { BasesHaveOneTableau }
    ensures column { OneColumnEnters }
    ensures row { OneRowLeaves }
{}

/// On a pivot run the lists of all rows but the objective row stay above the zeros in the order of a dictionary, and the
/// objective row's list rises at each pivot.
pub fn a_pivot_run_rises()
    ensures high { RunsKeepListsHigh }
    ensures keeps { StepsKeepListsHigh }
    ensures rises { StepsRise }
{}
