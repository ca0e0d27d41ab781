//! The check of a program.
ghost use Rattle.std.specs.Prelude.{◌≡◌, ◌≢◌, OnOk, IfOk, IfErr, map};
ghost use Rattle.slice_ast.specs.View.{proc_of, program_of};
ghost use Rattle.slice_affine.specs.Pass as pass;
ghost use Rattle.slice_affine.specs.ProgramPass as spec;
ghost use Rattle.slice_affine.specs.Answers.{Goes, Ends};
ghost use Rattle.slice_affine.specs.Conditions.{IsParsed};
ghost use Rattle.slice_affine.specs.Counts.{KeepsCounts};
ghost use Rattle.slice_affine.specs.Rules.{MeetsRules, IsFirstFault};
ghost use Rattle.slice_affine.specs.Kept.{program_in};
ghost use Rattle.slice_affine.specs.Faults.{TellsName};
ghost use Rattle.slice_affine.specs.declared.fault.AffineFault.TheVariants as fault;

use crate::calls::find;
use crate::checker::Checker;
use crate::fault::AffineFault;
use crate::kept::Checked;
use slice_ast::{Kind, Number, Param, Proc, Program};
use slice_num::{Memory, Word};
use std::alloc::Global;

/// How many procedures a program may have.
const MOST_PROCEDURES: usize = 64;

/// How many agents a protocol may have.
const MOST_AGENTS: u64 = 16;

impl<'p> Checker<'p> {
    // The procedure's name isn't that of an earlier one, and it isn't the 65th.
    #[tactic(auto, unfolding(crate::specs::Pass::noted))]
    fn look_at_definition(&mut self, earlier: &[Proc], proc: &Proc) -> Result<(), Memory>
        ensures { OnOk result (self.new ≡ pass.looked (spec.past_limit (map proc_of earlier.now) proc.now.name) (pass.looked (spec.defined_twice (map proc_of earlier.now) proc.now.name) self.old)) }
    {
        if find(earlier, proc.name.word.bytes()).is_some() {
            let name = Word::new(self.alloc(), proc.name.word.bytes())?;
            self.note(AffineFault::Rebound {
                name,
                at: proc.name.at,
            });
        }
        if earlier.len() == MOST_PROCEDURES {
            self.note(AffineFault::ProcLimit { at: proc.name.at });
        }
        Ok(())
    }

    // The block of a procedure begins with its parameters.
    fn bind_params(&mut self, params: &'p [Param]) -> Result<(), Memory>
        ensures { OnOk result (self.new ≡ pass.stepped spec.bound_param params.now self.old) }
    {
        for param in params {
            self.bind(param.kind, &param.name)?;
        }
        Ok(())
    }

    // The head of a procedure: the first fault in it.
    fn start_procedure(&mut self, earlier: &[Proc], proc: &'p Proc) -> Result<(), AffineFault>
        ensures { Goes (pass.tell (spec.head_step (map proc_of earlier.now) (proc_of proc.now) self.old)) result self.new }
    {
        self.look_at_definition(earlier, proc)?;
        self.bind_params(proc.params.as_slice())?;
        self.tell()
    }

    // The head of the protocol: it has 1 to 16 agents.
    #[tactic(auto, unfolding(crate::specs::Pass::noted))]
    fn start_protocol(&mut self, agents: &Number) -> Result<(), AffineFault>
        ensures { Goes (pass.tell (pass.looked (spec.count_faults agents.now) self.old)) result self.new }
    {
        if !(1 <= agents.value && agents.value <= MOST_AGENTS) {
            self.note(AffineFault::AgentRange { at: agents.at });
        }
        self.tell()
    }
}

// A procedure, after those before it.
fn check_procedure(
    alloc: Global,
    count: u64,
    earlier: &[Proc],
    proc: &Proc,
) -> Result<(), AffineFault>
    ensures { Ends (spec.fault_of (spec.proc_pass count (map proc_of earlier.now) (proc_of proc.now))) result }
{
    let mut checker = Checker::new(alloc, count);
    checker.start_procedure(earlier, proc)?;
    checker.statements(
        earlier,
        proc.body.stmts.as_slice(),
        proc.body.yields.as_slice(),
    )
}

// The protocol, after all procedures.
fn check_protocol(alloc: Global, program: &Program) -> Result<(), AffineFault>
    ensures { Ends (spec.fault_of (spec.protocol_pass (map proc_of program.now.procs) (program_of program.now))) result }
{
    let mut checker = Checker::with_cake(alloc, program.agents.value)?;
    checker.start_protocol(&program.agents)?;
    checker.statements(program.procs.as_slice(), program.body.as_slice(), &[])
}

// The first fault of a program, as one pass over it finds it.
fn check_blocks(alloc: Global, program: &Program) -> Result<(), AffineFault>
    ensures { Ends (spec.program_fault (program_of program.now)) result }
{
    let procs = program.procs.as_slice();
    for (index, proc) in procs.iter().enumerate() {
        check_procedure(alloc, program.agents.value, &procs[..index], proc)?;
    }
    check_protocol(alloc, program)
}

impl Checked {
    /// The program: a text can spell it within the limits, and it meets the rules. So it has 1 to 16 agents and
    /// names no other one, no denominator is 0, a `pick` has two pieces or more and a name for each, an `if` and a
    /// call bind as many names as are yielded, and a call has the arguments that an earlier procedure wants.
    pub fn program(&self) -> &Program
        ensures value { result.now ≡ program_in self.now }
        ensures parsed { IsParsed (program_of result.now) }
        ensures meets { MeetsRules (program_of result.now) }
        ensures counts { KeepsCounts (program_of result.now) }
    {
        &self.program
    }
}

/// Checks a program, in one pass that reads each procedure once, where it is defined.
///
/// `Ok` comes exactly where no fault stands in the program, and keeps it. Otherwise the first fault that stands there
/// is told: `AffineFault` says when each does, and which is the first. `Memory` comes where memory runs out. A refused
/// program is given up.
pub fn check(alloc: Global, program: Program) -> Result<Checked, AffineFault>
    requires { IsParsed (program_of program) }
    ensures kept { IfOk result (λ c. program_in c ≡ program) }
    ensures meets { OnOk result (MeetsRules (program_of program)) }
    ensures first { IfErr result (λ f. f ≢ fault.Memory → IsFirstFault (program_of program) f) }
    ensures named { IfErr result TellsName }
{
    match check_blocks(alloc, &program) {
        Ok(()) => Ok(Checked { program }),
        Err(fault) => Err(fault),
    }
}
