//! The tree of a program, as it is read. Places are byte offsets of where a token begins.
use slice_num::Word;
use sqlite_items::Items;

/// A name, and where it stands.
#[derive(Drop)]
pub struct Name {
    pub word: Word,
    pub at: usize,
}

/// A whole number, and where it stands.
#[derive(Drop)]
pub struct Number {
    pub value: u64,
    pub at: usize,
}

/// A program: its procedures in order, then its protocol.
#[derive(Drop)]
pub struct Program {
    pub procs: Items<Proc>,
    pub name: Name,
    /// How many agents the protocol has.
    pub agents: Number,
    /// The protocol's own block, which yields nothing.
    pub body: Items<Stmt>,
}

/// A procedure, whose block may yield pieces.
#[derive(Drop)]
pub struct Proc {
    pub name: Name,
    pub params: Items<Param>,
    pub body: Block,
}

/// What a parameter stands for.
#[derive(Clone, Copy, Debug, PartialEq, Eq)]
pub enum Kind {
    Agent,
    Piece,
    Number,
}

/// A parameter of a procedure.
#[derive(Drop)]
pub struct Param {
    pub kind: Kind,
    pub name: Name,
}

/// An agent: by its number, from 1 on, or by the name of a parameter.
#[derive(Drop)]
pub enum AgentRef {
    Fixed(Number),
    Named(Name),
}

/// A fraction as it is written; a whole number has no denominator.
#[derive(Drop)]
pub struct Fraction {
    pub num: Number,
    pub den: Option<Number>,
}

/// A number of a sum: a fraction, a name, or what a piece is worth to an agent, in shares of the whole cake.
#[derive(Drop)]
pub enum Operand {
    Fraction(Fraction),
    Named(Name),
    Value { agent: AgentRef, piece: Name },
}

/// A term of a sum: an operand, maybe times a factor, which is added, or subtracted where `minus` is set.
#[derive(Drop)]
pub struct Term {
    pub minus: bool,
    pub factor: Option<Fraction>,
    pub operand: Operand,
}

/// One term or more; the first has no sign, so that its `minus` is false.
#[derive(Drop)]
pub struct Sum {
    pub terms: Items<Term>,
}

/// How the two sums of an `if` are compared: `<`, `<=`, `>` or `>=`.
#[derive(Clone, Copy, Debug, PartialEq, Eq)]
pub enum Cmp {
    Less,
    AtMost,
    More,
    AtLeast,
}

/// An argument of a call.
#[derive(Drop)]
pub enum Arg {
    Agent(AgentRef),
    Piece(Name),
    Number(Sum),
}

/// A statement. `end` is the place of its last token.
#[cycle(ast)]
#[derive(Drop)]
pub enum Stmt {
    /// `cut agent piece at amount as left, right;`
    Cut {
        agent: AgentRef,
        piece: Name,
        amount: Sum,
        left: Name,
        right: Name,
    },
    /// `let name = sum;`
    Let {
        name: Name,
        sum: Sum,
    },
    /// `join first, second as name;`
    Join {
        first: Name,
        second: Name,
        name: Name,
    },
    /// `give piece to agent;`
    Give {
        piece: Name,
        agent: AgentRef,
    },
    /// `if left cmp right yes else no as names;`, where the names and their `as` may be left out.
    If {
        left: Sum,
        cmp: Cmp,
        right: Sum,
        yes: Block,
        no: Block,
        names: Items<Name>,
        end: usize,
    },
    /// `pick agent from pieces as names;`
    Pick {
        agent: AgentRef,
        pieces: Items<Name>,
        names: Items<Name>,
        end: usize,
    },
    /// `call callee(args) as names;`, where the names and their `as` may be left out.
    Call {
        callee: Name,
        args: Items<Arg>,
        names: Items<Name>,
        end: usize,
    },
}

/// Statements in braces, and the pieces that they yield; none where there is no `yield`.
#[cycle(ast)]
#[derive(Drop)]
pub struct Block {
    pub stmts: Items<Stmt>,
    pub yields: Items<Name>,
}
