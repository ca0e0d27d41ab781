//! The interpreter: a core is run on valuations, and each cut is answered by the least right answer or by a given one.
ghost use Rattle.std.specs.Prelude.{◌≡◌, ℕ, ◌+◌, ◌<◌, ◌≤◌, ◌^◌, List, [], ◌∷◌, length, map, IfOk, IfErr, OnOk, OnErr};
ghost use Rattle.slice_core.specs.Cores.{core_of};
ghost use Rattle.slice_core.specs.Nodes.{tree_of};
ghost use Rattle.slice_num.specs.Pieces.{joined};
ghost use Rattle.slice_run.specs.Answers.{answers_of};
ghost use Rattle.slice_num.specs.Valuation.{Valuation};
ghost use Rattle.slice_run.specs.Walk.{Good, walk, outcome, Least, Given, Answers as Left};
ghost use Rattle.slice_run.specs.RunLaws.{run_on, IsLeastRun, Tells, TellsValues};
ghost use Rattle.slice_run.specs.Outcomes.{told_of, FaultIs, RefusalIs, IsStop, Divides};
ghost use Rattle.slice_run.specs.Tables.{Ready, board_of, halt_of, tell_left};
ghost use Rattle.slice_run.specs.Steps.{goes_on, StaysReady, test_tree};
ghost use Rattle.slice_core.specs.Measures.{length_of};

use crate::answers::Answers;
use crate::outcome::{Finish, Outcome, RunFault};
use crate::pieces::Pieces;
use crate::table::{Stop, Table};
use crate::values::values;
use slice_core::Node::{self, Ask, Cut, Done, Give, Join, Set, Test};
use slice_core::{Core, CutAnswer, Lin, Query};
use slice_piece::Book;
use slice_step::Valuations;
use std::alloc::Global;

// What a node leads to: another node, or where the walk halts.
enum Leads<'a> {
    On(&'a Node),
    Halt(Stop),
}

// Does what one node says.
fn step<'a>(
    node: &'a Node,
    valuations: &Valuations,
    answers: &mut Answers<'_>,
    table: &mut Table,
) -> Result<Leads<'a>, RunFault>
    requires ready { Ready (length valuations.now) (length table.old.registers.items) (tree_of node.now) (board_of table.old) }
    requires spare { table.old.book.spare ≡ 65 }
    ensures ok { IfOk result (λ s.
        walk valuations.now (tree_of node.now) table.old.registers.items (answers_of answers.old) (board_of table.old)
        ≡ goes_on valuations.now s table.new.registers.items (answers_of answers.new) (board_of table.new)) }
    ensures ready { IfOk result (λ s.
        StaysReady (length valuations.now) (length table.new.registers.items) (tree_of node.now) (board_of table.new) s) }
    ensures err { IfErr result (λ f. FaultIs f
        (walk valuations.now (tree_of node.now) table.old.registers.items (answers_of answers.old) (board_of table.old))) }
    ensures room { OnErr result (length (joined table.new.pieces) ≤ table.new.book.spare) }
    ensures spare { OnOk result (table.new.book.spare ≡ 65) }
    ensures left { OnOk result (table.new.book.left ≡ table.old.book.left) }
{
    match node {
        Ask {
            agent,
            piece,
            next,
            ..
        } => {
            table.ask(valuations.get(*agent), *agent, *piece)?;
            Ok(Leads::On(next.get()))
        }
        Set { sum, next, .. } => {
            table.set(sum)?;
            Ok(Leads::On(next.get()))
        }
        Cut {
            agent,
            piece,
            amount,
            next,
            ..
        } => match table.cut(valuations.get(*agent), answers, *agent, *piece, amount)? {
            None => Ok(Leads::On(next.get())),
            Some(side) => Ok(Leads::Halt(Stop::Stuck(side))),
        },
        Join {
            first,
            second,
            next,
            ..
        } => {
            table.join(*first, *second)?;
            Ok(Leads::On(next.get()))
        }
        Test {
            left,
            right,
            strict,
            yes,
            no,
        } => arm(table, left, right, *strict, yes.get(), no.get()),
        Give { piece, agent, next } => {
            table.give(*piece, *agent)?;
            Ok(Leads::On(next.get()))
        }
        Done if answers.are_left() => Err(RunFault::TooManyAnswers),
        Done => Ok(Leads::Halt(Stop::End)),
    }
}

// The arm that a test of the two sums takes; the left one comes first.
fn arm<'a>(
    table: &Table,
    left: &Lin,
    right: &Lin,
    strict: bool,
    yes: &'a Node,
    no: &'a Node,
) -> Result<Leads<'a>, RunFault>
    requires few { length table.now.queries.items < 2 ^ 32 }
    ensures ok { IfOk result (λ s. (vs : List Valuation) → (answers : Left)
        → walk vs (test_tree left.now right.now strict yes.now no.now) table.now.registers.items answers (board_of table.now)
        ≡ goes_on vs s table.now.registers.items answers (board_of table.now)) }
    ensures ready { IfOk result (λ s. (agents : ℕ)
        → Ready agents (length table.now.registers.items) (test_tree left.now right.now strict yes.now no.now) (board_of table.now)
        → StaysReady agents (length table.now.registers.items) (test_tree left.now right.now strict yes.now no.now) (board_of table.now) s) }
    ensures err { IfErr result (λ f. (vs : List Valuation) → (answers : Left) → FaultIs f
        (walk vs (test_tree left.now right.now strict yes.now no.now) table.now.registers.items answers (board_of table.now))) }
{
    if table.test(left, right, strict)? {
        Ok(Leads::On(yes))
    } else {
        Ok(Leads::On(no))
    }
}

// Walks the core from the table as it lies, and spends no piece that it doesn't cut, join or give.
fn walk(
    root: &Node,
    valuations: &Valuations,
    answers: &mut Answers<'_>,
    table: &mut Table,
) -> Result<Stop, RunFault>
    requires ready { Ready (length valuations.now) (length table.old.registers.items) (tree_of root.now) (board_of table.old) }
    requires spare { table.old.book.spare ≡ 65 }
    ensures ok { IfOk result (λ s.
        walk valuations.now (tree_of root.now) table.old.registers.items (answers_of answers.old) (board_of table.old)
        ≡ Good (halt_of s (board_of table.new))) }
    ensures err { IfErr result (λ f. FaultIs f
        (walk valuations.now (tree_of root.now) table.old.registers.items (answers_of answers.old) (board_of table.old))) }
    ensures room { length (joined table.new.pieces) ≤ table.new.book.spare }
    ensures left { OnOk result (table.new.book.left ≡ table.old.book.left) }
    ensures shares { OnOk result (length table.new.book.shares ≡ length valuations.now) }
    ensures few { OnOk result (length table.new.queries.items ≤ 512) }
{
    let mut node = root;
    loop {
        match step(node, valuations, answers, table) {
            Ok(Leads::On(next)) => node = next,
            Ok(Leads::Halt(stop)) => return Ok(stop),
            Err(fault) => return Err(fault),
        }
    }
}

// So many stretches can be left: a way has at most 64 cuts, and each makes one stretch more.
const ROOM: usize = 65;

/// Runs the core on the valuations, one for each agent. Each cut, a query of Robertson and Webb, is answered by the least
/// right answer: the first part of the piece in which there is a right point, and the least such point there. A run is
/// `Done` at the core's end, or `Stuck` at the first cut that has no right answer.
///
/// `Overflow` comes exactly where the first number that doesn't fit belongs to that query, where numbers are made in this
/// order: at an asking the share-value; at a cut its amount, the share-value of the piece, the amount times the total, the
/// values of the parts and their sums, and the point; sums of registers as they come, the left one of a test first; at
/// the end all share-values, agent by agent. `Memory` comes only for want of memory. No other fault comes.
pub fn run_least(alloc: Global, core: &Core, valuations: &Valuations) -> Result<Outcome, RunFault>
    requires agents { (core_of core.now).agents ≡ length valuations.now }
    ensures ok { IfOk result (λ o. outcome valuations.now (core_of core.now) Least ≡ Good (told_of o)) }
    ensures least { IfOk result (λ o. IsLeastRun (run_on valuations.now (core_of core.now)) (told_of o)) }
    ensures values { IfOk result (λ o. TellsValues valuations.now (told_of o)) }
    ensures division { IfOk result (λ o. Divides (length_of valuations.now) (told_of o)) }
    ensures err { IfErr result (λ f. FaultIs f (outcome valuations.now (core_of core.now) Least)) }
    ensures stops { IfErr result (λ f. IsStop f) }
{
    let _bounds = valuations.len();
    let _formed = core.agents();
    play(alloc, core, valuations, &mut Answers::Least)
}

/// Runs the core on the valuations, one for each agent, with these answers to its cuts, one for each.
///
/// `BadAnswer` comes exactly where the run is refused for that answer, `TooFewAnswers` exactly where a cut that has a
/// right answer finds none left, and `TooManyAnswers` exactly where the run has ended, done or stuck, and answers remain:
/// unless a number before doesn't fit. `Overflow` comes exactly where the first number that doesn't fit belongs to that
/// query, in the order of `run_least`, where a cut makes, in place of the numbers of the least answer, the share-value of
/// what lies before the point, if the part is there and the point lies in it. `Memory` comes only for want of memory.
pub fn replay(
    alloc: Global,
    core: &Core,
    valuations: &Valuations,
    cuts: &[CutAnswer],
) -> Result<Outcome, RunFault>
    requires agents { (core_of core.now).agents ≡ length valuations.now }
    ensures ok { IfOk result (λ o. outcome valuations.now (core_of core.now) (Given cuts.now) ≡ Good (told_of o)) }
    ensures told { IfOk result (λ o. Tells (run_on valuations.now (core_of core.now) cuts.now) (told_of o)) }
    ensures values { IfOk result (λ o. TellsValues valuations.now (told_of o)) }
    ensures division { IfOk result (λ o. Divides (length_of valuations.now) (told_of o)) }
    ensures err { IfErr result (λ f. FaultIs f (outcome valuations.now (core_of core.now) (Given cuts.now))) }
    ensures refused { IfErr result (λ f. RefusalIs f (run_on valuations.now (core_of core.now) cuts.now)) }
{
    let _bounds = valuations.len();
    let _formed = core.agents();
    play(alloc, core, valuations, &mut Answers::Given(cuts))
}

// What comes of a run whose cuts are answered so.
fn play(
    alloc: Global,
    core: &Core,
    valuations: &Valuations,
    answers: &mut Answers<'_>,
) -> Result<Outcome, RunFault>
    requires agents { (core_of core.now).agents ≡ length valuations.now }
    ensures ok { IfOk result (λ o.
        outcome valuations.now (core_of core.now) (answers_of answers.old) ≡ Good (told_of o)) }
    ensures err { IfErr result (λ f. FaultIs f
        (outcome valuations.now (core_of core.now) (answers_of answers.old))) }
{
    let agents = core.agents();
    let Ok(book) = Book::new(alloc, agents, ROOM) else {
        return Err(RunFault::Memory);
    };
    let Ok(pieces) = Pieces::start(alloc, valuations.length()) else {
        return Err(RunFault::Memory);
    };
    let mut table = Table {
        pieces,
        book,
        queries: Vec::new(alloc),
        registers: Vec::new(alloc),
    };
    let stop = walk(core.root(), valuations, answers, &mut table);
    let Table {
        pieces,
        mut book,
        queries,
        registers,
    } = table;
    drop(registers);
    pieces.leave_all(&mut book);
    match stop {
        Ok(stop) => finish(alloc, valuations, stop, book, queries),
        Err(fault) => Err(fault),
    }
}

// What is told where the walk halted, all pieces being spent.
fn finish(
    alloc: Global,
    valuations: &Valuations,
    stop: Stop,
    book: Book,
    queries: Vec<Query>,
) -> Result<Outcome, RunFault>
    requires few { length queries.items ≤ 512 }
    requires agents { length valuations.now ≤ 16 }
    requires shares { length book.shares ≡ length valuations.now }
    ensures ok { IfOk result (λ o.
        tell_left valuations.now stop queries.items book.shares book.left ≡ Good (told_of o)) }
    ensures err { IfErr result (λ f.
        FaultIs f (tell_left valuations.now stop queries.items book.shares book.left)) }
{
    let query = queries.len() as u32;
    match stop {
        Stop::Stuck(side) => Ok(Outcome::Stuck {
            queries,
            query,
            side,
        }),
        Stop::End => match values(alloc, valuations, &book, query) {
            Ok(values) => Ok(Outcome::Done(Finish {
                queries,
                book,
                values,
            })),
            Err(fault) => Err(fault),
        },
    }
}
