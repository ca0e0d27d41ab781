//! The walk over a tree, from the first of its tokens to the last.
#![tactic(auto, using(crate::proofs::TakingLemmas::taking))]

ghost use Rattle.std.specs.Prelude.{◌≡◌, ◌∷◌, [], OnOk, List, ℕ};
ghost use Rattle.slice_ast.specs.Tokens.{name_marks, names_after, ref_marks, fraction_marks, operand_marks, factor_marks, term_marks, sum_marks, arg_marks, param_marks, listed, yield_marks, if_end, cmp_text, test_marks, head_marks, open_marks, proc_marks, protocol_marks, program_marks, Mark};
ghost use Rattle.slice_ast.specs.Code.{ACut, ALet, AJoin, AGive, AnIf, APick, ACall};
ghost use Rattle.slice_ast.specs.View.{head_of, block_of, code_of, proc_of, program_of};
ghost use Rattle.slice_ast.specs.Taking.{taken};

use crate::taking::TakesTokens;
use crate::tree::{
    AgentRef, Arg, Block, Cmp, Fraction, Kind, Name, Number, Operand, Param, Proc, Program, Stmt,
    Sum, Term,
};
use slice_num::Memory;

/// What is written as tokens: `marks` says which.
pub(crate) trait Written {
    ghost marks: { Self → List Mark };

    /// Gives the tokens in order. The one error is want of memory.
    fn write<T: TakesTokens>(&self, out: &mut T) -> Result<(), Memory>
        ensures { OnOk result (out.new ≡ taken T.after out.old (marks self.now)) };
}

impl Written for Name {
    ghost marks = { name_marks };

    fn write<T: TakesTokens>(&self, out: &mut T) -> Result<(), Memory> {
        out.put(self.word.bytes())
    }
}

impl Written for AgentRef {
    ghost marks = { ref_marks };

    fn write<T: TakesTokens>(&self, out: &mut T) -> Result<(), Memory> {
        match self {
            AgentRef::Fixed(number) => out.put_number(number.value),
            AgentRef::Named(name) => name.write(out),
        }
    }
}

impl Written for Fraction {
    ghost marks = { fraction_marks };

    fn write<T: TakesTokens>(&self, out: &mut T) -> Result<(), Memory> {
        out.put_number(self.num.value)?;
        match &self.den {
            Some(den) => {
                out.put(b"/")?;
                out.put_number(den.value)
            }
            None => Ok(()),
        }
    }
}

impl Written for Operand {
    ghost marks = { operand_marks };

    fn write<T: TakesTokens>(&self, out: &mut T) -> Result<(), Memory> {
        match self {
            Operand::Fraction(fraction) => fraction.write(out),
            Operand::Named(name) => name.write(out),
            Operand::Value { agent, piece } => {
                out.put(b"value")?;
                out.put(b"(")?;
                agent.write(out)?;
                out.put(b",")?;
                piece.write(out)?;
                out.put(b")")
            }
        }
    }
}

/// A term without its sign.
impl Written for Term {
    ghost marks = { term_marks };

    fn write<T: TakesTokens>(&self, out: &mut T) -> Result<(), Memory> {
        if let Some(factor) = &self.factor {
            factor.write(out)?;
            out.put(b"*")?;
        }
        self.operand.write(out)
    }
}

impl Written for Sum {
    ghost marks = { sum_marks };

    fn write<T: TakesTokens>(&self, out: &mut T) -> Result<(), Memory> {
        let Some((first, more)) = self.terms.as_slice().split_first() else {
            return Ok(());
        };
        first.write(out)?;
        for term in more {
            out.put(if term.minus { b"-" } else { b"+" })?;
            term.write(out)?;
        }
        Ok(())
    }
}

impl Written for Param {
    ghost marks = { param_marks };

    fn write<T: TakesTokens>(&self, out: &mut T) -> Result<(), Memory> {
        match self.kind {
            Kind::Agent => out.put(b"agent")?,
            Kind::Piece => out.put(b"piece")?,
            Kind::Number => out.put(b"number")?,
        }
        self.name.write(out)
    }
}

impl Written for Arg {
    ghost marks = { arg_marks };

    fn write<T: TakesTokens>(&self, out: &mut T) -> Result<(), Memory> {
        match self {
            Arg::Agent(agent) => {
                out.put(b"agent")?;
                agent.write(out)
            }
            Arg::Piece(name) => {
                out.put(b"piece")?;
                name.write(out)
            }
            Arg::Number(sum) => {
                out.put(b"number")?;
                sum.write(out)
            }
        }
    }
}

// The items, with commas between.
fn write_listed<W: Written, T: TakesTokens>(items: &[W], out: &mut T) -> Result<(), Memory>
    ensures { OnOk result (out.new ≡ taken T.after out.old (listed W.marks items.now)) }
{
    let Some((first, more)) = items.split_first() else {
        return Ok(());
    };
    first.write(out)?;
    for item in more {
        out.put(b",")?;
        item.write(out)?;
    }
    Ok(())
}

// A keyword and the names after it, where there are any.
fn write_names<T: TakesTokens>(word: &[u8], names: &[Name], out: &mut T) -> Result<(), Memory>
    ensures { OnOk result (out.new ≡ taken T.after out.old (names_after word.now names.now)) }
{
    if names.is_empty() {
        return Ok(());
    }
    out.put(word)?;
    write_listed(names, out)
}

fn write_cut<T: TakesTokens>(
    agent: &AgentRef,
    piece: &Name,
    amount: &Sum,
    left: &Name,
    right: &Name,
    out: &mut T,
) -> Result<(), Memory>
    ensures { OnOk result (out.new ≡ taken T.after out.old (head_marks (ACut agent.now piece.now amount.now left.now right.now))) }
{
    out.put(b"cut")?;
    agent.write(out)?;
    piece.write(out)?;
    out.put(b"at")?;
    amount.write(out)?;
    out.put(b"as")?;
    left.write(out)?;
    out.put(b",")?;
    right.write(out)?;
    out.put(b";")
}

fn write_let<T: TakesTokens>(name: &Name, sum: &Sum, out: &mut T) -> Result<(), Memory>
    ensures { OnOk result (out.new ≡ taken T.after out.old (head_marks (ALet name.now sum.now))) }
{
    out.put(b"let")?;
    name.write(out)?;
    out.put(b"=")?;
    sum.write(out)?;
    out.put(b";")
}

fn write_join<T: TakesTokens>(
    first: &Name,
    second: &Name,
    name: &Name,
    out: &mut T,
) -> Result<(), Memory>
    ensures { OnOk result (out.new ≡ taken T.after out.old (head_marks (AJoin first.now second.now name.now))) }
{
    out.put(b"join")?;
    first.write(out)?;
    out.put(b",")?;
    second.write(out)?;
    out.put(b"as")?;
    name.write(out)?;
    out.put(b";")
}

fn write_give<T: TakesTokens>(piece: &Name, agent: &AgentRef, out: &mut T) -> Result<(), Memory>
    ensures { OnOk result (out.new ≡ taken T.after out.old (head_marks (AGive piece.now agent.now))) }
{
    out.put(b"give")?;
    piece.write(out)?;
    out.put(b"to")?;
    agent.write(out)?;
    out.put(b";")
}

fn write_pick<T: TakesTokens>(
    agent: &AgentRef,
    pieces: &[Name],
    names: &[Name],
    out: &mut T,
) -> Result<(), Memory>
    ensures { (end : ℕ) → OnOk result (out.new ≡ taken T.after out.old (head_marks (APick agent.now pieces.now names.now end))) }
{
    out.put(b"pick")?;
    agent.write(out)?;
    write_names(b"from", pieces, out)?;
    write_names(b"as", names, out)?;
    out.put(b";")
}

fn write_call<T: TakesTokens>(
    callee: &Name,
    args: &[Arg],
    names: &[Name],
    out: &mut T,
) -> Result<(), Memory>
    ensures { (end : ℕ) → OnOk result (out.new ≡ taken T.after out.old (head_marks (ACall callee.now args.now names.now end))) }
{
    out.put(b"call")?;
    callee.write(out)?;
    out.put(b"(")?;
    write_listed(args, out)?;
    out.put(b")")?;
    write_names(b"as", names, out)?;
    out.put(b";")
}

// The `yield` of a block, where it has one.
fn write_yields<T: TakesTokens>(yields: &[Name], out: &mut T) -> Result<(), Memory>
    ensures { OnOk result (out.new ≡ taken T.after out.old (yield_marks yields.now)) }
{
    if yields.is_empty() {
        return Ok(());
    }
    write_names(b"yield", yields, out)?;
    out.put(b";")
}

// The end of an `if`: the brace of its second block, then its names, where it has any.
fn write_if_end<T: TakesTokens>(names: &[Name], out: &mut T) -> Result<(), Memory>
    ensures { OnOk result (out.new ≡ taken T.after out.old (if_end names.now 0)) }
{
    out.put(b"}")?;
    if names.is_empty() {
        return Ok(());
    }
    write_names(b"as", names, out)?;
    out.put(b";")
}

fn write_cmp<T: TakesTokens>(cmp: Cmp, out: &mut T) -> Result<(), Memory>
    ensures { OnOk result (out.new ≡ T.after out.old (cmp_text cmp)) }
{
    match cmp {
        Cmp::Less => out.put(b"<"),
        Cmp::AtMost => out.put(b"<="),
        Cmp::More => out.put(b">"),
        Cmp::AtLeast => out.put(b">="),
    }
}

// What an `if` tests.
fn write_test<T: TakesTokens>(left: &Sum, cmp: Cmp, right: &Sum, out: &mut T) -> Result<(), Memory>
    ensures { OnOk result (out.new ≡ taken T.after out.old (test_marks left.now cmp right.now)) }
{
    out.put(b"if")?;
    left.write(out)?;
    write_cmp(cmp, out)?;
    right.write(out)
}

// A block, without the brace that ends it.
#[cycle(blocks)]
fn write_block<T: TakesTokens>(block: &Block, out: &mut T) -> Result<(), Memory>
    ensures { OnOk result (out.new ≡ taken T.after out.old (open_marks (block_of block.now))) }
{
    out.put(b"{")?;
    for stmt in block.stmts.as_slice() {
        write_stmt(stmt, out)?;
    }
    write_yields(block.yields.as_slice(), out)
}

#[cycle(blocks)]
#[tactic(auto, using(crate::proofs::TakingLemmas::taking, crate::proofs::Rows::branches))]
fn write_stmt<T: TakesTokens>(stmt: &Stmt, out: &mut T) -> Result<(), Memory>
    ensures { OnOk result (out.new ≡ taken T.after out.old (head_marks (head_of stmt.now))) }
{
    match stmt {
        Stmt::Cut {
            agent,
            piece,
            amount,
            left,
            right,
        } => write_cut(agent, piece, amount, left, right, out),
        Stmt::Let { name, sum } => write_let(name, sum, out),
        Stmt::Join {
            first,
            second,
            name,
        } => write_join(first, second, name, out),
        Stmt::Give { piece, agent } => write_give(piece, agent, out),
        Stmt::If {
            left,
            cmp,
            right,
            yes,
            no,
            names,
            ..
        } => {
            write_test(left, *cmp, right, out)?;
            write_block(yes, out)?;
            out.put(b"}")?;
            out.put(b"else")?;
            write_block(no, out)?;
            write_if_end(names.as_slice(), out)
        }
        Stmt::Pick {
            agent,
            pieces,
            names,
            ..
        } => write_pick(agent, pieces.as_slice(), names.as_slice(), out),
        Stmt::Call {
            callee,
            args,
            names,
            ..
        } => write_call(callee, args.as_slice(), names.as_slice(), out),
    }
}

impl Written for Proc {
    ghost marks = { λ p. proc_marks (proc_of p) };

    fn write<T: TakesTokens>(&self, out: &mut T) -> Result<(), Memory> {
        out.put(b"procedure")?;
        self.name.write(out)?;
        out.put(b"(")?;
        write_listed(self.params.as_slice(), out)?;
        out.put(b")")?;
        write_block(&self.body, out)?;
        out.put(b"}")
    }
}

impl Written for Program {
    ghost marks = { λ p. program_marks (program_of p) };

    fn write<T: TakesTokens>(&self, out: &mut T) -> Result<(), Memory> {
        for proc in self.procs.as_slice() {
            proc.write(out)?;
        }
        write_protocol(&self.name, &self.agents, self.body.as_slice(), out)
    }
}

// The protocol, after the procedures.
fn write_protocol<T: TakesTokens>(
    name: &Name,
    agents: &Number,
    body: &[Stmt],
    out: &mut T,
) -> Result<(), Memory>
    ensures { OnOk result (out.new ≡ taken T.after out.old (protocol_marks name.now agents.now (code_of body.now))) }
{
    out.put(b"protocol")?;
    name.write(out)?;
    out.put(b"agents")?;
    out.put_number(agents.value)?;
    out.put(b"{")?;
    for stmt in body {
        write_stmt(stmt, out)?;
    }
    out.put(b"}")
}
