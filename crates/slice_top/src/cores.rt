// How a program is checked and expanded.
ghost use Rattle.std.specs.Prelude.{◌≡◌, ◌↔◌, ℕ, ◌≤◌, List, IfOk, IfErr};
ghost use Rattle.slice_ast.specs.View.{program_of};
ghost use Rattle.slice_affine.specs.Conditions.{IsParsed};
ghost use Rattle.slice_affine.specs.Kept.{program_in};
ghost use Rattle.slice_affine.specs.Rules.{MeetsRules};
ghost use Rattle.slice_core.specs.Cores.{core_of};
ghost use Rattle.slice_io.specs.Causes.{Rose};
ghost use Rattle.slice_top.specs.Cores.{RefusesRules, limit_refusal, rule_refusal};
ghost use Rattle.slice_top.specs.Stops.{StopsBy, StopsFor, stop_for};
ghost use Rattle.slice_top.specs.Turns.{HoldsCore, IsCoreOfText, RefusesCoreOfText, RefusesProtocol};

use crate::files::read_file;
use crate::programs::read_program;
use crate::stop::Stop;
use slice_affine::{AffineFault, Checked, check};
use slice_ast::Program;
use slice_core::Core;
use slice_expand::{ExpandFault, expand};
use slice_io::Shelf;
use slice_report::Refusal;
use std::alloc::Global;

/// The core of the protocol in a file.
pub(crate) fn read_core<S: Shelf>(alloc: Global, shelf: &mut S, name: &str) -> Result<Core, Stop>
    requires asked { S.CanAsk shelf.old name.now }
    ensures same { S.told shelf.new ≡ S.told shelf.old }
    ensures later { S.faults shelf.old ≤ S.faults shelf.new }
    ensures rule { (n : List ℕ) → S.CanAsk shelf.old n ↔ S.CanAsk shelf.new n }
    ensures ok { IfOk result (λ c. HoldsCore (S.told shelf.old) name.now (core_of c)) }
    ensures err { IfErr result (StopsBy (RefusesProtocol (S.told shelf.old) name.now) (λ file. file ≡ name.now) (Rose (S.faults shelf.old) (S.faults shelf.new))) }
{
    let text = match read_file(alloc, shelf, name) {
        Ok(text) => text,
        Err(stop) => return Err(stop),
    };
    core_of_text(alloc, &text)
}

/// The core of a text.
pub(crate) fn core_of_text(alloc: Global, text: &[u8]) -> Result<Core, Stop>
    ensures ok { IfOk result (λ c. IsCoreOfText text.now (core_of c)) }
    ensures err { IfErr result (StopsFor (RefusesCoreOfText text.now)) }
{
    let program = match read_program(alloc, text) {
        Ok(program) => program,
        Err(stop) => return Err(stop),
    };
    let checked = match check_program(alloc, program) {
        Ok(checked) => checked,
        Err(stop) => return Err(stop),
    };
    match expand(alloc, &checked) {
        Ok(core) => Ok(core),
        Err(fault) => Err(limit_stop(fault)),
    }
}

// The program, which keeps the rules.
fn check_program(alloc: Global, program: Program) -> Result<Checked, Stop>
    requires { IsParsed (program_of program) }
    ensures kept { IfOk result (λ c. program_in c ≡ program) }
    ensures meets { IfOk result (λ c. MeetsRules (program_of program)) }
    ensures err { IfErr result (StopsFor (RefusesRules (program_of program))) }
{
    match check(alloc, program) {
        Ok(checked) => Ok(checked),
        Err(fault) => Err(rule_stop(fault)),
    }
}

// The stop for a rule that is broken.
fn rule_stop(fault: AffineFault) -> Stop
    ensures { result ≡ stop_for (rule_refusal fault) }
{
    match fault {
        AffineFault::Unbound { name, at } => Stop::Refused(Refusal::Unbound { name, at }),
        AffineFault::Rebound { name, at } => Stop::Refused(Refusal::Rebound { name, at }),
        AffineFault::UsedTwice { name, at, first } => {
            Stop::Refused(Refusal::UsedTwice { name, at, first })
        }
        AffineFault::AgentRange { at } => Stop::Refused(Refusal::AgentRange { at }),
        AffineFault::Arity { at } => Stop::Refused(Refusal::Arity { at }),
        AffineFault::YieldCount { at } => Stop::Refused(Refusal::YieldCount { at }),
        AffineFault::ZeroDen { at } => Stop::Refused(Refusal::ZeroDen { at }),
        AffineFault::ProcLimit { at } => Stop::Refused(Refusal::ProcLimit { at }),
        AffineFault::Memory => Stop::Memory,
    }
}

// The stop for a limit that is passed.
fn limit_stop(fault: ExpandFault) -> Stop
    ensures { result ≡ stop_for (limit_refusal fault) }
{
    match fault {
        ExpandFault::NodeLimit => Stop::Refused(Refusal::NodeLimit),
        ExpandFault::DepthLimit => Stop::Refused(Refusal::DepthLimit),
        ExpandFault::CutLimit => Stop::Refused(Refusal::CutLimit),
        ExpandFault::CallLimit => Stop::Refused(Refusal::CallLimit),
        ExpandFault::Memory => Stop::Memory,
    }
}
