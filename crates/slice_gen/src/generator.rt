//! The protocol `rounds`: in each round agent 1 cuts off two parts of one worth, and agent 2 takes the one that it
//! prefers.
ghost use Rattle.std.specs.Prelude.{◌≡◌, ◌↔◌, ◌⊎◌, ◌≤◌, ◌<◌, ◌∷◌, [], ◌++◌, ◌-◌, ◌*◌, ◌+◌, map, IfOk, IfErr, OnOk};
ghost use Rattle.slice_ast.specs.View.{head_of, block_of, program_of};
ghost use Rattle.slice_gen.specs.declared.generator.GenFault.TheVariants as fault;
ghost use Rattle.slice_gen.specs.Rounds.{agent, choice, cut_off, first_rounds, gifts, l, last_round, left_after, named, number, one_of, only, q, round, rounds_program, rounds_text, worth};

use slice_ast::{
    AgentRef, Block, Cmp, Fraction, Name, Number, Operand, Program, Stmt, Sum, Term, print,
};
use slice_num::{Memory, Word};
use sqlite_items::Items;
use std::alloc::Global;

/// Why no protocol was made.
#[derive(Clone, Copy, Debug, PartialEq, Eq)]
pub enum GenFault {
    /// The number of rounds isn't from 1 to 8.
    Range,
    /// There was too little memory.
    Memory,
}

impl From<Memory> for GenFault {
    ghost from_gives = { λ _ e. e ≡ fault.Memory };

    fn from(_memory: Memory) -> GenFault {
        GenFault::Memory
    }
}

/// The canonical text of the protocol `rounds` for two agents: `n` rounds, in each of which agent 1 cuts off two parts that
/// are worth `1 / (2 * n)` of the cake to it, and agent 2 takes the one that it prefers. `Range` comes exactly where `n`
/// isn't from 1 to 8, `Memory` only for want of memory.
pub fn rounds(alloc: Global, n: u32) -> Result<Vec<u8>, GenFault>
    ensures text { IfOk result (λ v. v.items ≡ rounds_text n) }
    ensures within { IfOk result (λ _. (1 ≤ n) × (n ≤ 8)) }
    ensures range { IfErr result (λ e. (e ≡ GenFault.Range) ↔ ((n ≡ 0) ⊎ (8 < n))) }
{
    if n == 0 || n > 8 {
        return Err(GenFault::Range);
    }
    Ok(rounds_text(alloc, n)?)
}

// The text of so many rounds.
fn rounds_text(alloc: Global, n: u32) -> Result<Vec<u8>, Memory>
    requires some { 1 ≤ n }
    requires few { n ≤ 8 }
    ensures { IfOk result (λ v. v.items ≡ rounds_text n) }
{
    let program = program(alloc, n)?;
    print(alloc, &program)
}

// The protocol of so many rounds.
fn program(alloc: Global, n: u32) -> Result<Program, Memory>
    requires some { 1 ≤ n }
    requires few { n ≤ 8 }
    ensures { IfOk result (λ p. program_of p ≡ rounds_program n) }
{
    let name = named(alloc, b"rounds")?;
    let body = statements(alloc, n)?;
    Ok(Program {
        procs: Items::new(alloc),
        name,
        agents: number(2),
        body,
    })
}

// The statements of so many rounds.
fn statements(alloc: Global, n: u32) -> Result<Items<Stmt>, Memory>
    requires some { 1 ≤ n }
    requires few { n ≤ 8 }
    ensures { IfOk result (λ stmts. map head_of stmts ≡ first_rounds (2 * n) (n - 1) ++ last_round (2 * n) n) }
{
    let mut stmts = Items::new(alloc);
    for i in 1..n {
        push_round(alloc, &mut stmts, 2 * n, i)?;
    }
    push_last_round(alloc, &mut stmts, 2 * n, n)?;
    Ok(stmts)
}

// A round after which something is left.
fn push_round(alloc: Global, stmts: &mut Items<Stmt>, parts: u32, i: u32) -> Result<(), Memory>
    requires some { 1 ≤ i }
    requires few { i ≤ 9 }
    ensures { OnOk result (map head_of stmts.new ≡ map head_of stmts.old ++ round parts i) }
{
    let first = cut_off(
        alloc,
        parts,
        left_after(alloc, i - 1)?,
        piece(alloc, b'l', i)?,
        piece(alloc, b's', i)?,
    )?;
    push(stmts, first)?;
    let second = cut_off(
        alloc,
        parts,
        piece(alloc, b's', i)?,
        piece(alloc, b'q', i)?,
        piece(alloc, b'r', i)?,
    )?;
    push(stmts, second)?;
    push(stmts, choice(alloc, i)?)
}

// The last round, which shares out all that is left.
fn push_last_round(alloc: Global, stmts: &mut Items<Stmt>, parts: u32, n: u32) -> Result<(), Memory>
    requires some { 1 ≤ n }
    requires few { n ≤ 9 }
    ensures { OnOk result (map head_of stmts.new ≡ map head_of stmts.old ++ last_round parts n) }
{
    let cut = cut_off(
        alloc,
        parts,
        left_after(alloc, n - 1)?,
        piece(alloc, b'l', n)?,
        piece(alloc, b'q', n)?,
    )?;
    push(stmts, cut)?;
    push(stmts, choice(alloc, n)?)
}

// One more statement.
fn push(stmts: &mut Items<Stmt>, stmt: Stmt) -> Result<(), Memory>
    ensures { OnOk result (map head_of stmts.new ≡ map head_of stmts.old ++ head_of stmt ∷ []) }
{
    match stmts.push(stmt) {
        Ok(()) => Ok(()),
        Err(_) => Err(Memory),
    }
}

// Agent 1 cuts one of so many equal shares off a piece.
fn cut_off(alloc: Global, parts: u32, piece: Name, left: Name, right: Name) -> Result<Stmt, Memory>
    ensures { IfOk result (λ stmt. head_of stmt ≡ cut_off parts piece left right) }
{
    Ok(Stmt::Cut {
        agent: agent(1),
        piece,
        amount: one_of(alloc, parts)?,
        left,
        right,
    })
}

// Agent 2 takes the one of the two pieces of round i that it prefers, and agent 1 gets the other.
fn choice(alloc: Global, i: u32) -> Result<Stmt, Memory>
    requires { i ≤ 9 }
    ensures { IfOk result (λ stmt. head_of stmt ≡ choice (l i) (q i)) }
{
    Ok(Stmt::If {
        left: worth(alloc, 2, piece(alloc, b'l', i)?)?,
        cmp: Cmp::AtLeast,
        right: worth(alloc, 2, piece(alloc, b'q', i)?)?,
        yes: gifts(alloc, piece(alloc, b'l', i)?, piece(alloc, b'q', i)?)?,
        no: gifts(alloc, piece(alloc, b'q', i)?, piece(alloc, b'l', i)?)?,
        names: Items::new(alloc),
        end: 0,
    })
}

// Agent 2 gets one piece, and agent 1 another.
fn gifts(alloc: Global, to_2: Name, to_1: Name) -> Result<Block, Memory>
    ensures { IfOk result (λ block. block_of block ≡ gifts to_2 to_1) }
{
    let mut stmts = Items::new(alloc);
    push(
        &mut stmts,
        Stmt::Give {
            piece: to_2,
            agent: agent(2),
        },
    )?;
    push(
        &mut stmts,
        Stmt::Give {
            piece: to_1,
            agent: agent(1),
        },
    )?;
    Ok(Block {
        stmts,
        yields: Items::new(alloc),
    })
}

// What is left of the cake after so many rounds.
fn left_after(alloc: Global, rounds: u32) -> Result<Name, Memory>
    requires { rounds ≤ 9 }
    ensures { IfOk result (λ name. name ≡ left_after rounds) }
{
    if rounds == 0 {
        named(alloc, b"cake")
    } else {
        piece(alloc, b'r', rounds)
    }
}

// A piece of round i.
fn piece(alloc: Global, letter: u8, i: u32) -> Result<Name, Memory>
    requires { i ≤ 9 }
    ensures { IfOk result (λ name. name ≡ named (letter ∷ (48 + i) ∷ [])) }
{
    named(alloc, &[letter, b'0' + i as u8])
}

// A name that stands nowhere yet.
fn named(alloc: Global, text: &[u8]) -> Result<Name, Memory>
    ensures { IfOk result (λ name. name ≡ named text.now) }
{
    let word = Word::new(alloc, text)?;
    Ok(Name { word, at: 0 })
}

// One of so many equal shares of the cake.
fn one_of(alloc: Global, parts: u32) -> Result<Sum, Memory>
    ensures { IfOk result (λ sum. sum ≡ one_of parts) }
{
    only(
        alloc,
        Operand::Fraction(Fraction {
            num: number(1),
            den: Some(number(parts)),
        }),
    )
}

// What a piece is worth to an agent.
fn worth(alloc: Global, holder: u32, piece: Name) -> Result<Sum, Memory>
    ensures { IfOk result (λ sum. sum ≡ worth holder piece) }
{
    only(
        alloc,
        Operand::Value {
            agent: agent(holder),
            piece,
        },
    )
}

// A sum of one term.
fn only(alloc: Global, operand: Operand) -> Result<Sum, Memory>
    ensures { IfOk result (λ sum. sum ≡ only operand) }
{
    let mut terms = Items::new(alloc);
    let term = Term {
        minus: false,
        factor: None,
        operand,
    };
    match terms.push(term) {
        Ok(()) => Ok(Sum { terms }),
        Err(_) => Err(Memory),
    }
}

// An agent by its number.
fn agent(which: u32) -> AgentRef
    ensures { result ≡ agent which }
{
    AgentRef::Fixed(number(which))
}

// A number that stands nowhere yet.
fn number(value: u32) -> Number
    ensures { result ≡ number value }
{
    Number {
        value: value as u64,
        at: 0,
    }
}
