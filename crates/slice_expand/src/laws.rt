//! Laws of the definitions that the contracts of this crate rest on. Each function does nothing: its clauses
//! are the laws.
ghost use Rattle.slice_expand.specs.CoreLaws.{CheckedCoresAreWellFormed};
ghost use Rattle.slice_expand.specs.Kept.{RunIsKept};

/// A program's core does what the program says: for all worths of pieces, answers to cuts and lengths of the cake, the
/// run of the core ends as that of the program, with the same queries, shares and pieces that are left. It holds of every
/// program, checked or not.
pub fn run_is_kept()
    ensures { RunIsKept }
{}

/// The core of a program that a text can spell, that meets the rules and that passes no limit is well formed.
pub fn checked_cores_are_well_formed()
    ensures { CheckedCoresAreWellFormed }
{}
