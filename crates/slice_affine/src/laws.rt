//! Laws of the definitions that the contracts of this crate rest on, and one that joins it to the parser. Each
//! function does nothing: its clause is the law.
ghost use Rattle.std.specs.Prelude.{ℕ, List, ◌≡◌, ◌⊎◌};
ghost use Rattle.slice_ast.specs.Code.{PlainProgram};
ghost use Rattle.slice_ast.specs.Places.{IsRead};
ghost use Rattle.slice_affine.specs.Conditions.{HasRisingPlaces, IsParsed};
ghost use Rattle.slice_affine.specs.Rules.{MeetsRules, IsFirstFault};
ghost use Rattle.slice_affine.specs.declared.fault.AffineFault.{AffineFault};

/// A program that is read from a file has places that rise in the order of its tokens.
pub fn places_of_a_reading_rise()
    ensures { (file : List ℕ) (p : PlainProgram) → IsRead file p → HasRisingPlaces p }
{}

/// A program that is parsed meets the rules, or has a first fault.
pub fn first_faults_exist()
    ensures { (p : PlainProgram) → IsParsed p → MeetsRules p ⊎ ((f : AffineFault) × IsFirstFault p f) }
{}

/// It has one first fault at most.
pub fn first_faults_are_unique()
    ensures { (p : PlainProgram) → IsParsed p → (f g : AffineFault) → IsFirstFault p f → IsFirstFault p g → f ≡ g }
{}
