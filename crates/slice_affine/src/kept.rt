//! A program that was checked.
ghost use Rattle.slice_ast.specs.View.{program_of};
ghost use Rattle.slice_affine.specs.Conditions.{IsParsed};
ghost use Rattle.slice_affine.specs.Once.{parsed-prop};
ghost use Rattle.slice_affine.specs.Rules.{MeetsRules};

use slice_ast::Program;

/// A program that was checked: a text can spell it within the limits, its places rise in the order of its tokens,
/// and no fault stands in it. Only `check` makes one.
#[derive(Drop)]
pub struct Checked {
    pub(crate) program: Program,
    ghost parsed: { IsParsed (program_of program) } by { parsed-prop (program_of program) },
    ghost meets: { MeetsRules (program_of program) },
}
