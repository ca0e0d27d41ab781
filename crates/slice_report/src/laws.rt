//! Laws of the definitions that the lines rest on.
ghost use Rattle.slice_report.specs.EnvyLaws.{ToldEnvyIsEnvy};

/// A pair of agents stands in the line of a run exactly where the first values the share of the second above its own.
pub fn told_envy_is_envy()
    ensures { ToldEnvyIsEnvy }
{}
