//! Expansion of a whole program.
ghost use Rattle.std.specs.Prelude.{◌≡◌, ◌≤◌, MatchResult, IfOk, IfErr, None, codes};
ghost use Rattle.slice_ast.specs.View.{program_of};
ghost use Rattle.slice_affine.specs.Kept.{program_in};
ghost use Rattle.slice_core.specs.Cores as cores;
ghost use Rattle.slice_expand.specs.Expansion.{core_of, marked};
ghost use Rattle.slice_expand.specs.Limits.{first_limit, IsFirst};
ghost use Rattle.slice_expand.specs.Trail.{build};
ghost use Rattle.slice_expand.specs.Frames.{build_at};
ghost use Rattle.slice_expand.specs.Spots.{spot_of};
ghost use Rattle.slice_expand.specs.Made.{plain_core, first_trail};

use crate::build::{Builder, Frame};
use crate::fault::ExpandFault;
use crate::grow::advance;
use crate::names::{Meaning, Names};
use crate::trail::Trail;
use slice_affine::Checked;
use slice_ast::{Name, Program};
use slice_core::{Core, Node};
use slice_num::Word;
use std::alloc::Global;

// The core of a program, made and not yet known to be well formed.
#[derive(Drop)]
pub struct Expanded {
    pub name: Word,
    pub agents: u32,
    pub root: Node,
}

// Where expansion begins: the name `cake` is piece 0.
fn start<'a>(
    alloc: Global,
    program: &'a Program,
    cake: &'a Name,
) -> Result<Builder<'a>, ExpandFault>
    requires { cake.now.word ≡ codes "cake" }
    ensures built { IfOk result (λ b. build_at (spot_of b) ≡ build (marked (program_of program.now)) first_trail) }
    ensures depth { IfOk result (λ b. b.trail.depth ≡ 0) }
    ensures fault { IfErr result (λ e. e ≡ ExpandFault.Memory) }
{
    let mut names = Names::new();
    if names.bind(alloc, cake, Meaning::Piece(0)).is_err() {
        return Err(ExpandFault::Memory);
    }
    let top = Frame {
        stmts: program.body.as_slice(),
        names,
        yields: &[],
        targets: &[],
        procs: program.procs.as_slice(),
    };
    let trail = Trail {
        steps: Vec::new(alloc),
        depth: 0,
        cuts: 0,
        regs: 0,
        pieces: 1,
        nodes: 0,
        calls: 0,
    };
    Ok(Builder {
        top,
        outer: Vec::new(alloc),
        trail,
    })
}

/// The core of a program that was checked: its procedures in line, numbers in place of names, and what follows an `if` or a
/// `pick` under each arm. It is well formed, and its runs are those of the program (`laws::run_is_kept`).
///
/// A limit comes exactly where it is the first that the program passes, in the order in which the core is made, depth first,
/// `yes` before `no`: `NodeLimit` at the 200,001st node, `DepthLimit` at the 513th node of a way, its end counted, `CutLimit` at
/// the 65th cut of a way, in this order at a node, and `CallLimit` at the 100,001st call, where it begins. The one other error
/// is want of memory. A look-up of a name takes time by its length alone, and a test shares all names with its arms.
pub fn expand(alloc: Global, checked: &Checked) -> Result<Core, ExpandFault>
    ensures core { IfOk result (λ c. cores.core_of c ≡ core_of (program_of (program_in checked.now))) }
    ensures limits { MatchResult result (λ c. first_limit (program_of (program_in checked.now)) ≡ None) (λ e. IsFirst e (first_limit (program_of (program_in checked.now)))) }
{
    let made = make(alloc, checked.program())?;
    Ok(Core::new(made.name, made.agents, made.root))
}

// The same of any program of so few agents.
fn make(alloc: Global, program: &Program) -> Result<Expanded, ExpandFault>
    requires { (program_of program.now).agents.value ≤ 16 }
    ensures core { IfOk result (λ c. plain_core c ≡ core_of (program_of program.now)) }
    ensures limits { MatchResult result (λ c. first_limit (program_of program.now) ≡ None) (λ e. IsFirst e (first_limit (program_of program.now))) }
{
    let Ok(word) = Word::new(alloc, b"cake") else {
        return Err(ExpandFault::Memory);
    };
    let cake = Name { word, at: 0 };
    let builder = start(alloc, program, &cake)?;
    let built = advance(alloc, builder)?;
    let Ok(name) = Word::new(alloc, program.name.word.bytes()) else {
        return Err(ExpandFault::Memory);
    };
    let agents = program.agents.value as u32;
    let root = built.root;
    Ok(Expanded { name, agents, root })
}
