//! Why a command is refused, and the line that says so.
ghost use Rattle.std.specs.Prelude.{◌≡◌, IfOk, IsTrue};
ghost use Rattle.std.specs.Str.{IsUtf8};
ghost use Rattle.serde_json.specs.View.{view};
ghost use Rattle.slice_json.specs.Texts.{line_of};
ghost use Rattle.slice_num.specs.Name.{is_name};
ghost use Rattle.slice_report.specs.Refusals.{HasTexts, at_goal, at_name, at_place, at_query, named, of_agent, of_entry, of_file, refused_json};

use crate::line::{line_of, name_of, text_of};
use serde_json::{Value, json};
use slice_num::Word;
use std::alloc::{AllocError, Global};

/// Why a command is refused. `file` is the word as it was given, which is UTF-8; `at` and `first` are places in the
/// protocol's text, in bytes from 0, and `name` is a name in it. Agents are numbered from 1; queries, goals, entries of
/// `cuts`, rows, columns, unknowns and atoms from 0.
#[derive(Debug, Drop)]
pub enum Refusal {
    /// The words are no command.
    Usage,
    /// The file couldn't be read.
    ReadFault {
        file: Word,
    },
    /// The file is longer than its limit.
    TooLong {
        file: Word,
    },

    /// The byte begins no token and is no layout, or it is a letter or `_` directly behind a number.
    BadByte {
        at: usize,
    },
    /// A word of more than 64 bytes begins here.
    LongWord {
        at: usize,
    },
    /// A number of more than 18 digits, the first not `0`, begins here.
    LongNumber {
        at: usize,
    },
    /// A number of two or more digits that begins with `0` begins here.
    LeadingZero {
        at: usize,
    },
    /// No program goes on so from here, or at the end of the text, more is needed.
    Syntax {
        at: usize,
    },
    /// The brace here opens a block inside 64 others.
    DeepBlock {
        at: usize,
    },
    /// The sign here comes before the 65th term of a sum.
    LongSum {
        at: usize,
    },

    /// The name isn't in scope as the kind wanted, or no procedure of that name is defined earlier.
    Unbound {
        name: Word,
        at: usize,
    },
    /// The name is bound where it is in scope already.
    Rebound {
        name: Word,
        at: usize,
    },
    /// The piece was used before on some way; `first` is the least place of such a use.
    UsedTwice {
        name: Word,
        at: usize,
        first: usize,
    },
    /// The agent's number, or the count of agents, is out of range.
    AgentRange {
        at: usize,
    },
    /// The arguments of the call differ from the parameters in number or kind.
    Arity {
        at: usize,
    },
    /// The names of an `if`, a call or a `pick` don't fit what it yields.
    YieldCount {
        at: usize,
    },
    /// The denominator is 0.
    ZeroDen {
        at: usize,
    },
    /// This is the 65th procedure.
    ProcLimit {
        at: usize,
    },

    /// The second file is no JSON.
    Json,
    /// It doesn't have as many valuations as the protocol has agents.
    AgentCount,
    /// The valuation has no arrays of one length within the limits; of agent 0, the file has another outer form.
    Shape {
        agent: u32,
    },
    /// A number of the valuation isn't whole.
    NotWhole {
        agent: u32,
    },
    /// The ends don't rise strictly above 0, or the last one is too great.
    EndsOrder {
        agent: u32,
    },
    /// A height is below 0 or too great.
    HeightRange {
        agent: u32,
    },
    /// All heights are 0.
    NoTotal {
        agent: u32,
    },
    /// The last end isn't that of agent 1.
    LengthsDiffer {
        agent: u32,
    },
    /// The entry of `cuts` is no answer to a cut.
    CutForm {
        index: usize,
    },

    /// The answer to that cut is wrong.
    BadAnswer {
        query: u32,
    },
    /// No answer is left for that cut.
    TooFewAnswers {
        query: u32,
    },
    /// The run has ended, and answers remain.
    TooManyAnswers,

    /// The core has a 200,001st node.
    NodeLimit,
    /// A way has a 513th node.
    DepthLimit,
    /// A way has a 65th cut.
    CutLimit,
    /// A 100,001st call is put in line.
    CallLimit,
    /// The core has a 1,000,001st goal.
    GoalLimit,
    /// A number of the run doesn't fit; it belongs to that query.
    RunOverflow {
        query: u32,
    },
    /// A number of a form doesn't fit, after so many goals.
    FormOverflow {
        goal: u64,
    },
    /// A number of the prover doesn't fit, after so many pivots on the goal, at that cell.
    ProverOverflow {
        goal: u64,
        pivots: u64,
        row: usize,
        col: usize,
    },
    /// A number of the check of the goal's multipliers doesn't fit, at that unknown.
    CheckOverflow {
        goal: u64,
        unknown: usize,
    },
    /// The goal isn't decided after 100,000 pivots.
    PivotLimit {
        goal: u64,
    },
    /// A height of the goal's counterexample is above 10^18: that of the agent at the atom.
    HeightLimit {
        goal: u64,
        agent: u32,
        atom: u32,
    },
}

/// The line of the refusal, with its LF. The one error is want of memory.
pub fn refusal_line(alloc: Global, refusal: &Refusal) -> Result<Vec<u8>, AllocError>
    requires texts { HasTexts refusal.now }
    ensures { IfOk result (λ v. v.items ≡ line_of (refused_json refusal.now)) }
{
    line_of(alloc, &refusal_value(alloc, refusal)?)
}

// The line's value: a row for each refusal.
fn refusal_value(alloc: Global, refusal: &Refusal) -> Result<Value, AllocError>
    requires { HasTexts refusal.now }
    ensures { IfOk result (λ v. view v ≡ refused_json refusal.now) }
{
    match refusal {
        Refusal::Usage => named(alloc, "Usage"),
        Refusal::ReadFault { file } => of_file(alloc, file, "ReadFault"),
        Refusal::TooLong { file } => of_file(alloc, file, "TooLong"),
        Refusal::BadByte { at } => at_place(alloc, *at, "BadByte"),
        Refusal::LongWord { at } => at_place(alloc, *at, "LongWord"),
        Refusal::LongNumber { at } => at_place(alloc, *at, "LongNumber"),
        Refusal::LeadingZero { at } => at_place(alloc, *at, "LeadingZero"),
        Refusal::Syntax { at } => at_place(alloc, *at, "Syntax"),
        Refusal::DeepBlock { at } => at_place(alloc, *at, "DeepBlock"),
        Refusal::LongSum { at } => at_place(alloc, *at, "LongSum"),
        Refusal::Unbound { name, at } => at_name(alloc, name, *at, "Unbound"),
        Refusal::Rebound { name, at } => at_name(alloc, name, *at, "Rebound"),
        Refusal::UsedTwice { name, at, first } => used_twice(alloc, name, *at, *first),
        Refusal::AgentRange { at } => at_place(alloc, *at, "AgentRange"),
        Refusal::Arity { at } => at_place(alloc, *at, "Arity"),
        Refusal::YieldCount { at } => at_place(alloc, *at, "YieldCount"),
        Refusal::ZeroDen { at } => at_place(alloc, *at, "ZeroDen"),
        Refusal::ProcLimit { at } => at_place(alloc, *at, "ProcLimit"),
        Refusal::Json => named(alloc, "Json"),
        Refusal::AgentCount => named(alloc, "AgentCount"),
        Refusal::Shape { agent } => of_agent(alloc, *agent, "Shape"),
        Refusal::NotWhole { agent } => of_agent(alloc, *agent, "NotWhole"),
        Refusal::EndsOrder { agent } => of_agent(alloc, *agent, "EndsOrder"),
        Refusal::HeightRange { agent } => of_agent(alloc, *agent, "HeightRange"),
        Refusal::NoTotal { agent } => of_agent(alloc, *agent, "NoTotal"),
        Refusal::LengthsDiffer { agent } => of_agent(alloc, *agent, "LengthsDiffer"),
        Refusal::CutForm { index } => of_entry(alloc, *index, "CutForm"),
        Refusal::BadAnswer { query } => at_query(alloc, *query, "BadAnswer"),
        Refusal::TooFewAnswers { query } => at_query(alloc, *query, "TooFewAnswers"),
        Refusal::TooManyAnswers => named(alloc, "TooManyAnswers"),
        Refusal::NodeLimit => named(alloc, "NodeLimit"),
        Refusal::DepthLimit => named(alloc, "DepthLimit"),
        Refusal::CutLimit => named(alloc, "CutLimit"),
        Refusal::CallLimit => named(alloc, "CallLimit"),
        Refusal::GoalLimit => named(alloc, "GoalLimit"),
        Refusal::RunOverflow { query } => at_query(alloc, *query, "Overflow"),
        Refusal::FormOverflow { goal } => at_goal(alloc, *goal, "Overflow"),
        Refusal::ProverOverflow {
            goal,
            pivots,
            row,
            col,
        } => at_cell(alloc, *goal, *pivots, *row, *col),
        Refusal::CheckOverflow { goal, unknown } => at_unknown(alloc, *goal, *unknown),
        Refusal::PivotLimit { goal } => at_goal(alloc, *goal, "PivotLimit"),
        Refusal::HeightLimit { goal, agent, atom } => at_height(alloc, *goal, *agent, *atom),
    }
}

fn named(alloc: Global, name: &str) -> Result<Value, AllocError>
    ensures { IfOk result (λ v. view v ≡ named name.now) }
{
    json!(in alloc; {"refused": name})
}

fn of_file(alloc: Global, file: &Word, name: &str) -> Result<Value, AllocError>
    requires { IsUtf8 file.now }
    ensures { IfOk result (λ v. view v ≡ of_file file.now name.now) }
{
    json!(in alloc; {"file": text_of(file), "refused": name})
}

fn at_place(alloc: Global, at: usize, name: &str) -> Result<Value, AllocError>
    ensures { IfOk result (λ v. view v ≡ at_place at name.now) }
{
    json!(in alloc; {"at": at as u64, "refused": name})
}

fn at_name(alloc: Global, word: &Word, at: usize, name: &str) -> Result<Value, AllocError>
    requires { IsTrue (is_name word.now) }
    ensures { IfOk result (λ v. view v ≡ at_name word.now at name.now) }
{
    json!(in alloc; {"at": at as u64, "name": name_of(word), "refused": name})
}

fn used_twice(alloc: Global, name: &Word, at: usize, first: usize) -> Result<Value, AllocError>
    requires { IsTrue (is_name name.now) }
    ensures { IfOk result (λ v. view v ≡ refused_json (Refusal.UsedTwice name.now at first)) }
{
    json!(in alloc; {"at": at as u64, "first": first as u64, "name": name_of(name), "refused": "UsedTwice"})
}

fn of_agent(alloc: Global, agent: u32, name: &str) -> Result<Value, AllocError>
    ensures { IfOk result (λ v. view v ≡ of_agent agent name.now) }
{
    json!(in alloc; {"agent": agent, "refused": name})
}

fn of_entry(alloc: Global, index: usize, name: &str) -> Result<Value, AllocError>
    ensures { IfOk result (λ v. view v ≡ of_entry index name.now) }
{
    json!(in alloc; {"index": index as u64, "refused": name})
}

fn at_query(alloc: Global, query: u32, name: &str) -> Result<Value, AllocError>
    ensures { IfOk result (λ v. view v ≡ at_query query name.now) }
{
    json!(in alloc; {"query": query, "refused": name})
}

fn at_goal(alloc: Global, goal: u64, name: &str) -> Result<Value, AllocError>
    ensures { IfOk result (λ v. view v ≡ at_goal goal name.now) }
{
    json!(in alloc; {"goal": goal, "refused": name})
}

fn at_cell(
    alloc: Global,
    goal: u64,
    pivots: u64,
    row: usize,
    col: usize,
) -> Result<Value, AllocError>
    ensures { IfOk result (λ v. view v ≡ refused_json (Refusal.ProverOverflow goal pivots row col)) }
{
    json!(in alloc; {"col": col as u64, "goal": goal, "pivots": pivots, "refused": "Overflow", "row": row as u64})
}

fn at_unknown(alloc: Global, goal: u64, unknown: usize) -> Result<Value, AllocError>
    ensures { IfOk result (λ v. view v ≡ refused_json (Refusal.CheckOverflow goal unknown)) }
{
    json!(in alloc; {"goal": goal, "refused": "Overflow", "unknown": unknown as u64})
}

fn at_height(alloc: Global, goal: u64, agent: u32, atom: u32) -> Result<Value, AllocError>
    ensures { IfOk result (λ v. view v ≡ refused_json (Refusal.HeightLimit goal agent atom)) }
{
    json!(in alloc; {"agent": agent, "atom": atom, "goal": goal, "refused": "HeightLimit"})
}
