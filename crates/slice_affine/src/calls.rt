//! A call against the procedure that it names, and the counts of names.
ghost use Rattle.std.specs.Prelude.{◌≡◌, OnOk, Some, None, length, map};
ghost use Rattle.slice_ast.specs.View.{proc_of};
ghost use Rattle.slice_affine.specs.Looks.{fit, procedure, arg_kind, call_faults, faults_calling, if_faults, pick_faults};
ghost use Rattle.slice_affine.specs.Pass as pass;
ghost use Rattle.slice_affine.specs.Found.{found_of};

use crate::checker::{Checker, is_kind};
use crate::fault::AffineFault;
use slice_ast::{Arg, Kind, Name, Param, Proc};
use slice_num::{Memory, Word};

// The kind of an argument.
fn argument_kind(argument: &Arg) -> Kind
    ensures { result ≡ arg_kind argument.now }
{
    match argument {
        Arg::Agent(_) => Kind::Agent,
        Arg::Piece(_) => Kind::Piece,
        Arg::Number(_) => Kind::Number,
    }
}

// The arguments are as many as the parameters, and of their kinds. A loop over both, since a call may have more
// arguments than a recursion would have room for.
fn fits(arguments: &[Arg], params: &[Param]) -> bool
    ensures { result ≡ fit arguments.now params.now }
{
    if arguments.len() != params.len() {
        return false;
    }
    for (index, argument) in arguments.iter().enumerate() {
        if !is_kind(argument_kind(argument), params[index].kind) {
            return false;
        }
    }
    true
}

/// The procedure of that name among these.
pub(crate) fn find<'q>(procs: &'q [Proc], word: &[u8]) -> Option<&'q Proc>
    ensures { found_of result ≡ procedure (map proc_of procs.now) word.now }
{
    for proc in procs {
        if word == proc.name.word.bytes() {
            return Some(proc);
        }
    }
    None
}

impl<'p> Checker<'p> {
    /// A call names a procedure, gives it what it wants and binds what it yields.
    #[tactic(auto, unfolding(crate::specs::Pass::noted))]
    pub fn look_at_call(
        &mut self,
        procs: &[Proc],
        callee: &Name,
        arguments: &[Arg],
        names: &[Name],
        end: usize,
    ) -> Result<(), Memory>
        ensures { OnOk result (self.new ≡ pass.looked (call_faults (map proc_of procs.now) callee.now arguments.now names.now end) self.old) }
    {
        match find(procs, callee.word.bytes()) {
            None => {
                let name = Word::new(self.alloc(), callee.word.bytes())?;
                self.note(AffineFault::Unbound {
                    name,
                    at: callee.at,
                });
            }
            Some(proc) => {
                if !fits(arguments, proc.params.as_slice()) {
                    self.note(AffineFault::Arity { at: callee.at });
                }
                if names.len() != proc.body.yields.len() {
                    self.note(AffineFault::YieldCount { at: end });
                }
            }
        }
        Ok(())
    }

    /// An `if` binds as many names as each of its blocks yields.
    #[tactic(auto, unfolding(crate::specs::Pass::noted))]
    pub fn look_at_yields(&mut self, yes: &[Name], no: &[Name], names: &[Name], end: usize)
        ensures { self.new ≡ pass.looked (if_faults yes.now no.now names.now end) self.old }
    {
        if !(names.len() == yes.len() && names.len() == no.len()) {
            self.note(AffineFault::YieldCount { at: end });
        }
    }

    /// A `pick` has two pieces or more, and binds as many names.
    #[tactic(auto, unfolding(crate::specs::Pass::noted))]
    pub fn look_at_choice(&mut self, pieces: &[Name], names: &[Name], end: usize)
        ensures { self.new ≡ pass.looked (pick_faults pieces.now names.now end) self.old }
    {
        if !(2 <= pieces.len() && names.len() == pieces.len()) {
            self.note(AffineFault::YieldCount { at: end });
        }
    }
}
