//! What the headline speaks of is there, and isn't everything.
ghost use Rattle.slice_worked.specs.Examples.{FairAndUnfairProgramsExist};

/// Some file holds a program of which every run is fair, and of some program not every run is.
pub fn fair_and_unfair_programs_exist()
    ensures { FairAndUnfairProgramsExist }
{}
