//! The line of a run.
ghost use Rattle.std.specs.Prelude.{◌≡◌, ◌≢◌, ◌≤◌, ◌++◌, map, IfOk, OnOk};
ghost use Rattle.serde_json.specs.View.{view};
ghost use Rattle.slice_json.specs.Texts.{line_of, list_of};
ghost use Rattle.slice_run.specs.Walk.{Divided};
ghost use Rattle.slice_run.specs.Outcomes.{told_of};
ghost use Rattle.slice_report.specs.RunReport.{told_json, plain-told_json, asked_json, query_json, pair_json, piece_json, row_json, side_json, envy, envy_of, envies, value_of};

use serde_json::{Value, json};
use slice_core::{Query, QueryKind};
use slice_json::{ToJson, json_line, list};
use slice_num::{Frac, Side};
use slice_piece::Book;
use slice_run::{Finish, Outcome};
use std::alloc::{AllocError, Global};
use std::cmp::Ordering;

/// The line of a run, with its LF. Of a run that came to its end it has the pairs of agents of
/// whom the first values the other's share above its own, what is left, the queries, the shares
/// and the share-values; of a run that got stuck, the queries, the one that is stuck and its side.
/// The one error is want of memory.
pub fn run_line(alloc: Global, outcome: &Outcome) -> Result<Vec<u8>, AllocError>
    ensures { IfOk result (λ v. v.items ≡ line_of (told_json (told_of outcome.now))) }
{
    json_line(alloc, &RunReport { outcome })
}

// What is written of a run.
#[derive(Clone, Copy)]
struct RunReport<'a> {
    outcome: &'a Outcome,
}

impl<'a> ToJson for RunReport<'a> {
    ghost as_json = { λ r. told_json (told_of r.outcome.now) };

    ghost plain = { λ r. plain-told_json (told_of r.outcome.now) };

    fn to_json(&self, alloc: Global) -> Result<Value, AllocError> {
        match self.outcome {
            Outcome::Done(finish) => done_json(alloc, finish),
            Outcome::Stuck {
                queries,
                query,
                side,
            } => {
                let queries = queries_json(alloc, queries)?;
                let side = side_json(alloc, *side)?;
                json!(in alloc; {"outcome": "stuck", "queries": queries, "query": *query, "side": side})
            }
        }
    }
}

fn done_json(alloc: Global, finish: &Finish) -> Result<Value, AllocError>
    ensures { IfOk result (λ v. view v ≡ told_json (Divided finish.now.queries.items finish.now.book.shares finish.now.book.left (map (λ row. row.items) finish.now.values.items))) }
{
    let pairs = envy(alloc, &finish.values)?;
    let envy = pairs_json(alloc, &pairs)?;
    let left = list(alloc, finish.book.left())?;
    let queries = queries_json(alloc, &finish.queries)?;
    let shares = shares_json(alloc, &finish.book)?;
    let values = values_json(alloc, &finish.values)?;
    json!(in alloc; {"envy": envy, "left": left, "outcome": "done", "queries": queries, "shares": shares, "values": values})
}

fn shares_json(alloc: Global, book: &Book) -> Result<Value, AllocError>
    ensures { IfOk result (λ v. view v ≡ list_of piece_json book.now.shares) }
{
    list(alloc, book.shares())
}

fn values_json(alloc: Global, values: &Vec<Vec<Frac>>) -> Result<Value, AllocError>
    ensures { IfOk result (λ v. view v ≡ list_of row_json (map (λ row. row.items) values.now.items)) }
{
    list(alloc, values)
}

fn queries_json(alloc: Global, queries: &[Query]) -> Result<Value, AllocError>
    ensures { IfOk result (λ v. view v ≡ list_of query_json queries.now) }
{
    let mut values = Vec::new(alloc);
    for query in queries {
        values.push(query_json(alloc, query)?)?;
    }
    Ok(Value::Array(values))
}

fn query_json(alloc: Global, query: &Query) -> Result<Value, AllocError>
    ensures { IfOk result (λ v. view v ≡ query_json query.now) }
{
    match query.kind {
        QueryKind::Eval => eval_json(alloc, query.agent, query.answer),
        QueryKind::Cut { amount, part: 0 } => cut_json(alloc, query.agent, amount, query.answer),
        QueryKind::Cut { amount, part } => part_json(
            alloc,
            query.agent,
            amount,
            part,
            query.answer,
        ),
    }
}

// A question of value that was answered.
fn eval_json(alloc: Global, agent: u32, answer: Frac) -> Result<Value, AllocError>
    ensures { IfOk result (λ v. view v ≡ asked_json agent QueryKind.Eval answer) }
{
    let answer = answer.to_json(alloc)?;
    json!(in alloc; {"agent": agent, "answer": answer, "kind": "eval"})
}

// A cut that was answered in the first part of the piece.
fn cut_json(alloc: Global, agent: u32, amount: Frac, answer: Frac) -> Result<Value, AllocError>
    ensures { IfOk result (λ v. view v ≡ asked_json agent (QueryKind.Cut amount 0) answer) }
{
    let amount = amount.to_json(alloc)?;
    let answer = answer.to_json(alloc)?;
    json!(in alloc; {"agent": agent, "amount": amount, "answer": answer, "kind": "cut"})
}

// A cut that was answered in another part of the piece, which is told.
fn part_json(
    alloc: Global,
    agent: u32,
    amount: Frac,
    part: u32,
    answer: Frac,
) -> Result<Value, AllocError>
    requires { part ≢ 0 }
    ensures { IfOk result (λ v. view v ≡ asked_json agent (QueryKind.Cut amount part) answer) }
{
    let amount = amount.to_json(alloc)?;
    let answer = answer.to_json(alloc)?;
    json!(in alloc; {"agent": agent, "amount": amount, "answer": answer, "kind": "cut", "part": part})
}

fn pairs_json(alloc: Global, pairs: &[(u64, u64)]) -> Result<Value, AllocError>
    ensures { IfOk result (λ v. view v ≡ list_of pair_json pairs.now) }
{
    let mut values = Vec::new(alloc);
    for (agent, whom) in pairs {
        values.push(json!(in alloc; [*agent, *whom])?)?;
    }
    Ok(Value::Array(values))
}

fn side_json(alloc: Global, side: Side) -> Result<Value, AllocError>
    ensures { IfOk result (λ v. view v ≡ side_json side) }
{
    match side {
        Side::Low => json!(in alloc; "low"),
        Side::High => json!(in alloc; "high"),
    }
}

/// The pairs of agents of whom the first values the share of the second above its own, by the first and then by the second:
/// `values[a - 1][b - 1]` is agent a's share-value of agent b's share. The one error is want of memory.
pub fn envy(alloc: Global, values: &[Vec<Frac>]) -> Result<Vec<(u64, u64)>, AllocError>
    ensures { IfOk result (λ v. v.items ≡ envy (map (λ row. row.items) values.now)) }
{
    let mut pairs = Vec::new(alloc);
    for i in 0..values.len() {
        add_envy(&mut pairs, values, i + 1)?;
    }
    Ok(pairs)
}

// Adds the pairs of that agent and each that it envies.
fn add_envy(
    pairs: &mut Vec<(u64, u64)>,
    values: &[Vec<Frac>],
    agent: usize,
) -> Result<(), AllocError>
    requires from_one { 1 ≤ agent }
    ensures { OnOk result (pairs.new.items ≡ pairs.old.items ++ envy_of (map (λ row. row.items) values.now) agent) }
{
    for i in 0..values.len() {
        if envies(values, agent, i + 1) {
            pairs.push((agent as u64, i as u64 + 1))?;
        }
    }
    Ok(())
}

fn envies(values: &[Vec<Frac>], agent: usize, whom: usize) -> bool
    requires agent { 1 ≤ agent }
    requires whom { 1 ≤ whom }
    ensures { result ≡ envies (map (λ row. row.items) values.now) agent whom }
{
    let own = value_of(values, agent, agent);
    own.compare(&value_of(values, agent, whom)) == Ordering::Less
}

// The agent's share-value of the other's share, or 0 where there is none.
fn value_of(values: &[Vec<Frac>], agent: usize, whom: usize) -> Frac
    requires agent { 1 ≤ agent }
    requires whom { 1 ≤ whom }
    ensures { result ≡ value_of (map (λ row. row.items) values.now) agent whom }
{
    if agent > values.len() || whom > values[agent - 1].len() {
        return Frac::whole(0);
    }
    values[agent - 1][whom - 1]
}
