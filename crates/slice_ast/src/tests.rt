use super::*;
use slice_num::Word;
use sqlite_items::Items;
use std::alloc::AllocGlobal;
use std::process::Abort;

const CUT_AND_CHOOSE: &str = "\
protocol cc agents 2 {
  cut 1 cake at 1/2 as l, r;
  if value(2, l) >= value(2, r) {
    give l to 2;
    give r to 1;
  } else {
    give r to 2;
    give l to 1;
  }
}
";

const EVERY_RULE: &str = "\
procedure one() {
}
procedure two(agent a, piece p, number n) {
  yield p;
}
protocol every agents 12 {
  let x = 1/2 * value(a, p) - n + 3 * y;
  join p, q as w;
  pick a from p, q as s, t;
  call one();
  call two(agent 1, piece w, number n - 1/10) as v, u;
  if x < 0 {
    if x <= 1 {
    } else {
      yield s, t;
    } as x, y;
    yield s;
  } else {
    cut a p at 7 as b, c;
  } as z;
  if x > y {
  } else {
  }
}
";

fn name(rt: &(impl AllocGlobal + Abort), text: &[u8]) -> Name {
    Name {
        word: Word::new(rt.alloc(), text).expect(rt, "memory"),
        at: 0,
    }
}

fn names(rt: &(impl AllocGlobal + Abort), texts: &[&[u8]]) -> Items<Name> {
    let mut list = Items::new(rt.alloc());
    for text in texts {
        list.push(name(rt, *text)).expect(rt, "memory");
    }
    list
}

fn one<T: Drop>(rt: &(impl AllocGlobal + Abort), item: T) -> Vec<T> {
    let mut list = Vec::new(rt.alloc());
    list.push(item).expect(rt, "memory");
    list
}

fn two<T: Drop>(rt: &(impl AllocGlobal + Abort), first: T, second: T) -> Vec<T> {
    let mut list = one(rt, first);
    list.push(second).expect(rt, "memory");
    list
}

fn three<T: Drop>(rt: &(impl AllocGlobal + Abort), first: T, second: T, third: T) -> Vec<T> {
    let mut list = two(rt, first, second);
    list.push(third).expect(rt, "memory");
    list
}

fn number(value: u64) -> Number {
    Number { value, at: 0 }
}

fn agent(value: u64) -> AgentRef {
    AgentRef::Fixed(number(value))
}

fn holder(rt: &(impl AllocGlobal + Abort)) -> AgentRef {
    AgentRef::Named(name(rt, b"a"))
}

// A fraction, or a whole number where the denominator is 1.
fn fraction(num: u64, den: u64) -> Fraction {
    let den = if den == 1 { None } else { Some(number(den)) };
    Fraction {
        num: number(num),
        den,
    }
}

fn parts(num: u64, den: u64) -> Operand {
    Operand::Fraction(fraction(num, den))
}

fn named(rt: &(impl AllocGlobal + Abort), text: &[u8]) -> Operand {
    Operand::Named(name(rt, text))
}

fn worth(rt: &(impl AllocGlobal + Abort), agent: AgentRef, piece: &[u8]) -> Operand {
    let piece = name(rt, piece);
    Operand::Value { agent, piece }
}

fn term(minus: bool, factor: Option<Fraction>, operand: Operand) -> Term {
    Term {
        minus,
        factor,
        operand,
    }
}

fn sum(terms: Vec<Term>) -> Sum {
    Sum {
        terms: Items::from_vec(terms),
    }
}

// A sum of one term.
fn only(rt: &(impl AllocGlobal + Abort), operand: Operand) -> Sum {
    sum(one(rt, term(false, None, operand)))
}

fn block(rt: &(impl AllocGlobal + Abort), stmts: Vec<Stmt>, yields: &[&[u8]]) -> Block {
    Block {
        stmts: Items::from_vec(stmts),
        yields: names(rt, yields),
    }
}

fn empty(rt: &(impl AllocGlobal + Abort)) -> Block {
    block(rt, Vec::new(rt.alloc()), &[])
}

fn give(rt: &(impl AllocGlobal + Abort), piece: &[u8], to: u64) -> Stmt {
    Stmt::Give {
        piece: name(rt, piece),
        agent: agent(to),
    }
}

fn cut(
    rt: &(impl AllocGlobal + Abort),
    agent: AgentRef,
    piece: &[u8],
    amount: Operand,
    into: [&[u8]; 2],
) -> Stmt {
    let [left, right] = into;
    Stmt::Cut {
        agent,
        piece: name(rt, piece),
        amount: only(rt, amount),
        left: name(rt, left),
        right: name(rt, right),
    }
}

fn call(rt: &(impl AllocGlobal + Abort), callee: &[u8], args: Vec<Arg>, yields: &[&[u8]]) -> Stmt {
    Stmt::Call {
        callee: name(rt, callee),
        args: Items::from_vec(args),
        names: names(rt, yields),
        end: 0,
    }
}

// An `if`, with the names that it binds.
fn choice(
    rt: &(impl AllocGlobal + Abort),
    left: Operand,
    cmp: Cmp,
    right: Operand,
    blocks: (Block, Block),
    binds: &[&[u8]],
) -> Stmt {
    let (yes, no) = blocks;
    Stmt::If {
        left: only(rt, left),
        cmp,
        right: only(rt, right),
        yes,
        no,
        names: names(rt, binds),
        end: 0,
    }
}

fn gives(rt: &(impl AllocGlobal + Abort), second: &[u8], first: &[u8]) -> Block {
    block(rt, two(rt, give(rt, second, 2), give(rt, first, 1)), &[])
}

fn cut_and_choose(rt: &(impl AllocGlobal + Abort)) -> Program {
    let halves = cut(rt, agent(1), b"cake", parts(1, 2), [b"l", b"r"]);
    let left = worth(rt, agent(2), b"l");
    let right = worth(rt, agent(2), b"r");
    let blocks = (gives(rt, b"l", b"r"), gives(rt, b"r", b"l"));
    let picked = choice(rt, left, Cmp::AtLeast, right, blocks, &[]);
    Program {
        procs: Items::new(rt.alloc()),
        name: name(rt, b"cc"),
        agents: number(2),
        body: Items::from_vec(two(rt, halves, picked)),
    }
}

fn param(rt: &(impl AllocGlobal + Abort), kind: Kind, text: &[u8]) -> Param {
    Param {
        kind,
        name: name(rt, text),
    }
}

fn procedure(
    rt: &(impl AllocGlobal + Abort),
    text: &[u8],
    params: Vec<Param>,
    yields: &[&[u8]],
) -> Proc {
    Proc {
        name: name(rt, text),
        params: Items::from_vec(params),
        body: block(rt, Vec::new(rt.alloc()), yields),
    }
}

fn procedures(rt: &(impl AllocGlobal + Abort)) -> Vec<Proc> {
    let agent = param(rt, Kind::Agent, b"a");
    let piece = param(rt, Kind::Piece, b"p");
    let number = param(rt, Kind::Number, b"n");
    let params = three(rt, agent, piece, number);
    two(
        rt,
        procedure(rt, b"one", Vec::new(rt.alloc()), &[]),
        procedure(rt, b"two", params, &[b"p"]),
    )
}

fn long_sum(rt: &(impl AllocGlobal + Abort)) -> Stmt {
    let first = term(false, Some(fraction(1, 2)), worth(rt, holder(rt), b"p"));
    let second = term(true, None, named(rt, b"n"));
    let third = term(false, Some(fraction(3, 1)), named(rt, b"y"));
    Stmt::Let {
        name: name(rt, b"x"),
        sum: sum(three(rt, first, second, third)),
    }
}

fn join(rt: &(impl AllocGlobal + Abort)) -> Stmt {
    Stmt::Join {
        first: name(rt, b"p"),
        second: name(rt, b"q"),
        name: name(rt, b"w"),
    }
}

fn pick(rt: &(impl AllocGlobal + Abort)) -> Stmt {
    Stmt::Pick {
        agent: holder(rt),
        pieces: names(rt, &[b"p", b"q"]),
        names: names(rt, &[b"s", b"t"]),
        end: 0,
    }
}

fn arguments(rt: &(impl AllocGlobal + Abort)) -> Vec<Arg> {
    let less = two(
        rt,
        term(false, None, named(rt, b"n")),
        term(true, None, parts(1, 10)),
    );
    three(
        rt,
        Arg::Agent(agent(1)),
        Arg::Piece(name(rt, b"w")),
        Arg::Number(sum(less)),
    )
}

fn nested_choice(rt: &(impl AllocGlobal + Abort)) -> Stmt {
    let both = block(rt, Vec::new(rt.alloc()), &[b"s", b"t"]);
    let blocks = (empty(rt), both);
    let inner = choice(
        rt,
        named(rt, b"x"),
        Cmp::AtMost,
        parts(1, 1),
        blocks,
        &[b"x", b"y"],
    );
    let halves = cut(rt, holder(rt), b"p", parts(7, 1), [b"b", b"c"]);
    let yes = block(rt, one(rt, inner), &[b"s"]);
    let no = block(rt, one(rt, halves), &[]);
    choice(
        rt,
        named(rt, b"x"),
        Cmp::Less,
        parts(0, 1),
        (yes, no),
        &[b"z"],
    )
}

fn every_rule(rt: &(impl AllocGlobal + Abort)) -> Program {
    let mut body = three(rt, long_sum(rt), join(rt), pick(rt));
    let plain = call(rt, b"one", Vec::new(rt.alloc()), &[]);
    body.push(plain).expect(rt, "memory");
    let full = call(rt, b"two", arguments(rt), &[b"v", b"u"]);
    body.push(full).expect(rt, "memory");
    body.push(nested_choice(rt)).expect(rt, "memory");
    let blocks = (empty(rt), empty(rt));
    let last = choice(rt, named(rt, b"x"), Cmp::More, named(rt, b"y"), blocks, &[]);
    body.push(last).expect(rt, "memory");
    Program {
        procs: Items::from_vec(procedures(rt)),
        name: name(rt, b"every"),
        agents: number(12),
        body: Items::from_vec(body),
    }
}

#[test]
fn prints_cut_and_choose(rt: HostRuntime) {
    let program = cut_and_choose(&rt);
    let text = print(rt.alloc(), &program).expect(&rt, "memory");
    assert!(rt; text.as_slice() == CUT_AND_CHOOSE.as_bytes());
}

#[test]
fn prints_every_rule(rt: HostRuntime) {
    let program = every_rule(&rt);
    let text = print(rt.alloc(), &program).expect(&rt, "memory");
    assert!(rt; text.as_slice() == EVERY_RULE.as_bytes());
}

#[test]
fn lists_the_tokens_of_cut_and_choose(rt: HostRuntime) {
    let wanted = "protocol cc agents 2 { cut 1 cake at 1 / 2 as l , r ; \
        if value ( 2 , l ) >= value ( 2 , r ) { give l to 2 ; give r to 1 ; } \
        else { give r to 2 ; give l to 1 ; } }";
    let program = cut_and_choose(&rt);
    let tokens = tokens_of(rt.alloc(), &program).expect(&rt, "memory");
    let mut text = Vec::new(rt.alloc());
    for token in &tokens {
        text.extend_from_slice(token.as_slice())
            .expect(&rt, "memory");
        text.push(b' ').expect(&rt, "memory");
    }
    assert_eq!(rt; tokens.len(), 57);
    assert!(rt; text.as_slice().strip_suffix(b" ") == Some(wanted.as_bytes()));
}
