//! What lies on the table while a core is run: pieces, shares, answered queries and registers.
ghost use Rattle.std.specs.Prelude.{◌≡◌, ℕ, ◌+◌, ◌<◌, ◌≤◌, ◌^◌, List, [], ◌∷◌, ◌++◌, length, MatchOption, IfOk, IfErr, OnOk, OnErr, ⊤, Bool};
ghost use Rattle.slice_num.specs.Rational.{Rational};
ghost use Rattle.slice_num.specs.Fitting.{below};
ghost use Rattle.slice_num.specs.Pieces.{piece_at, emptied, joined};
ghost use Rattle.slice_core.specs.Run.{Board, ask_on, join_on, give_on, goes_yes};
ghost use Rattle.slice_step.specs.Arithmetic.{share_in};
ghost use Rattle.slice_run.specs.Sums.{lin_in};
ghost use Rattle.slice_step.specs.Exact.{CanCut};
ghost use Rattle.slice_run.specs.Outcomes.{FaultIs};
ghost use Rattle.slice_run.specs.Walk.{Walked, Answers as Left, Onward, Halt, walk_on, walk_cut, cut_answered, cut_board};
ghost use Rattle.slice_run.specs.Tables.{at_side, after, IsCut, AllInOrder};
ghost use Rattle.slice_step.specs.Exact.{LiesIn};

use crate::answers::Answers;
use crate::outcome::RunFault;
use crate::pieces::Pieces;
use crate::sums::sum_value;
use slice_core::{CutAnswer, Lin, Query, QueryKind};
use slice_num::{Frac, Side};
use slice_piece::Book;
use slice_step::Valuation;
use std::cmp::Ordering;

/// The pieces by number, the shares with what is left, the queries that were answered, in order, and the numbers that the
/// registers hold.
pub(crate) struct Table {
    pub(crate) pieces: Pieces,
    pub(crate) book: Book,
    pub(crate) queries: Vec<Query>,
    pub(crate) registers: Vec<Frac>,
}

impl Table {
    ghost use Rattle.slice_run.specs.Answers.{answers_of};
    ghost use Rattle.slice_run.specs.Tables.{board_of};

    // The number of the query that is next: that of the queries so far.
    fn query(&self) -> u32
        requires few { length self.now.queries.items < 2 ^ 32 }
        ensures { result ≡ length self.now.queries.items }
    {
        self.queries.len() as u32
    }

    /// The agent is asked what the piece of that number is worth, and the next register holds it.
    pub(crate) fn ask(
        &mut self,
        valuation: &Valuation,
        agent: u32,
        piece: u32,
    ) -> Result<(), RunFault>
        requires there { piece < length self.old.pieces }
        requires few { length self.old.queries.items < 2 ^ 32 }
        ensures ok { OnOk result ((go : List Rational → Board → Walked Halt)
            → walk_on (length self.old.queries.items) (share_in valuation.now (piece_at self.old.pieces piece)) (λ x.
            go (self.old.registers.items ++ x ∷ []) (ask_on agent x (board_of self.old)))
            ≡ go self.new.registers.items (board_of self.new)) }
        ensures err { IfErr result (λ f. (go : Rational → Walked Halt) → FaultIs f
            (walk_on (length self.old.queries.items) (share_in valuation.now (piece_at self.old.pieces piece)) go)) }
        ensures pieces { self.new.pieces ≡ self.old.pieces }
        ensures book { self.new.book ≡ self.old.book }
        ensures queries { OnOk result (length self.new.queries.items ≡ length self.old.queries.items + 1) }
        ensures registers { OnOk result (length self.new.registers.items ≡ length self.old.registers.items + 1) }
    {
        let query = self.query();
        let Ok(worth) = valuation.share(self.pieces.stretches(piece as usize)) else {
            return Err(RunFault::Overflow { query });
        };
        if self.registers.push(worth).is_err() {
            return Err(RunFault::Memory);
        }
        let asked = Query {
            agent,
            kind: QueryKind::Eval,
            answer: worth,
        };
        if self.queries.push(asked).is_err() {
            return Err(RunFault::Memory);
        }
        Ok(())
    }

    // The value of the sum; its numbers belong to the next query.
    fn sum(&self, sum: &Lin) -> Result<Frac, RunFault>
        requires few { length self.now.queries.items < 2 ^ 32 }
        ensures ok { IfOk result (λ x. (go : Rational → Walked Halt)
            → walk_on (length self.now.queries.items) (lin_in self.now.registers.items sum.now.terms) go ≡ go x) }
        ensures err { IfErr result (λ f. (go : Rational → Walked Halt)
            → FaultIs f (walk_on (length self.now.queries.items) (lin_in self.now.registers.items sum.now.terms) go)) }
    {
        let query = self.query();
        match sum_value(&self.registers, sum) {
            Ok(value) => Ok(value),
            Err(_) => Err(RunFault::Overflow { query }),
        }
    }

    /// The next register holds the value of the sum.
    pub(crate) fn set(&mut self, sum: &Lin) -> Result<(), RunFault>
        requires few { length self.old.queries.items < 2 ^ 32 }
        ensures ok { OnOk result ((go : List Rational → Walked Halt)
            → walk_on (length self.old.queries.items) (lin_in self.old.registers.items sum.now.terms) (λ x.
            go (self.old.registers.items ++ x ∷ []))
            ≡ go self.new.registers.items) }
        ensures err { IfErr result (λ f. (go : Rational → Walked Halt)
            → FaultIs f (walk_on (length self.old.queries.items) (lin_in self.old.registers.items sum.now.terms) go)) }
        ensures pieces { self.new.pieces ≡ self.old.pieces }
        ensures book { self.new.book ≡ self.old.book }
        ensures queries { self.new.queries ≡ self.old.queries }
        ensures registers { OnOk result (length self.new.registers.items ≡ length self.old.registers.items + 1) }
    {
        let value = match self.sum(sum) {
            Ok(value) => value,
            Err(fault) => return Err(fault),
        };
        if self.registers.push(value).is_err() {
            return Err(RunFault::Memory);
        }
        Ok(())
    }

    /// Whether a test of the two sums goes to yes; left comes first.
    pub(crate) fn test(&self, left: &Lin, right: &Lin, strict: bool) -> Result<bool, RunFault>
        requires few { length self.now.queries.items < 2 ^ 32 }
        ensures ok { IfOk result (λ t. (go : Bool → Walked Halt)
            → walk_on (length self.now.queries.items) (lin_in self.now.registers.items left.now.terms) (λ x.
            walk_on (length self.now.queries.items) (lin_in self.now.registers.items right.now.terms) (λ y.
            go (goes_yes strict x y)))
            ≡ go t) }
        ensures err { IfErr result (λ f. (go : Rational → Rational → Walked Halt) → FaultIs f
            (walk_on (length self.now.queries.items) (lin_in self.now.registers.items left.now.terms) (λ x.
            walk_on (length self.now.queries.items) (lin_in self.now.registers.items right.now.terms) (λ y.
            go x y)))) }
    {
        let left = match self.sum(left) {
            Ok(left) => left,
            Err(fault) => return Err(fault),
        };
        let right = match self.sum(right) {
            Ok(right) => right,
            Err(fault) => return Err(fault),
        };
        Ok(goes_yes(strict, &left, &right))
    }

    // The side at which the cut is stuck, if it has no right answer.
    fn side(
        &self,
        valuation: &Valuation,
        piece: u32,
        amount: &Frac,
    ) -> Result<Option<Side>, RunFault>
        requires there { piece < length self.now.pieces }
        requires few { length self.now.queries.items < 2 ^ 32 }
        ensures ok { IfOk result (λ o. (agent : ℕ) → (go : Onward) → (answers : Left)
            → walk_cut valuation.now agent piece amount.now go answers (board_of self.now)
            ≡ at_side o valuation.now agent piece amount.now go answers (board_of self.now)) }
        ensures err { IfErr result (λ f. (agent : ℕ) → (go : Onward) → (answers : Left)
            → FaultIs f (walk_cut valuation.now agent piece amount.now go answers (board_of self.now))) }
        ensures can { AllInOrder self.now.pieces
            → IfOk result (λ o. MatchOption o (CanCut valuation.now (piece_at self.now.pieces piece) amount.now) (λ side. ⊤)) }
    {
        let query = self.query();
        if is_below(amount, &Frac::whole(0)) {
            return Ok(Some(Side::Low));
        }
        let Ok(held) = valuation.share(self.pieces.stretches(piece as usize)) else {
            return Err(RunFault::Overflow { query });
        };
        if is_below(&held, amount) {
            return Ok(Some(Side::High));
        }
        Ok(None)
    }

    // The answer to a cut that has a right one: the least, or the next that is given.
    fn answer(
        &self,
        valuation: &Valuation,
        answers: &mut Answers<'_>,
        piece: u32,
        amount: &Frac,
    ) -> Result<CutAnswer, RunFault>
        requires there { piece < length self.now.pieces }
        requires some { 0 < length (piece_at self.now.pieces piece) }
        requires parts { length (piece_at self.now.pieces piece) < 2 ^ 32 }
        requires ordered { AllInOrder self.now.pieces }
        requires can { CanCut valuation.now (piece_at self.now.pieces piece) amount.now }
        requires few { length self.now.queries.items < 2 ^ 32 }
        ensures ok { IfOk result (λ y. (agent : ℕ) → (go : Onward)
            → cut_answered valuation.now agent piece amount.now go (answers_of answers.old) (board_of self.now)
            ≡ go (answers_of answers.new) (cut_board agent piece amount.now y (board_of self.now))) }
        ensures err { IfErr result (λ f. (agent : ℕ) → (go : Onward)
            → FaultIs f (cut_answered valuation.now agent piece amount.now go (answers_of answers.old) (board_of self.now))) }
        ensures lies { IfOk result (λ y. LiesIn (piece_at self.now.pieces piece) y) }
    {
        let query = self.query();
        let stretches = self.pieces.stretches(piece as usize);
        if answers.are_least() {
            return match valuation.least_answer(stretches, amount) {
                Ok(answer) => Ok(answer),
                Err(_) => Err(RunFault::Overflow { query }),
            };
        }
        let Some(answer) = answers.next() else {
            return Err(RunFault::TooFewAnswers { query });
        };
        match valuation.is_right(stretches, amount, &answer) {
            Ok(true) => Ok(answer),
            Ok(false) => Err(RunFault::BadAnswer { query }),
            Err(_) => Err(RunFault::Overflow { query }),
        }
    }

    // The piece is cut where the answer says, and the query is told.
    fn cut_there(
        &mut self,
        agent: u32,
        piece: u32,
        amount: &Frac,
        answer: &CutAnswer,
    ) -> Result<(), RunFault>
        requires lies { LiesIn (piece_at self.old.pieces piece) answer.now }
        requires room { length (joined self.old.pieces) ≤ self.old.book.spare }
        ensures ok { OnOk result (board_of self.new ≡ cut_board agent piece amount.now answer.now (board_of self.old)) }
        ensures err { IfErr result (λ f. f ≡ RunFault.Memory) }
        ensures pieces { OnOk result (IsCut self.old.pieces piece self.new.pieces) }
        ensures book { OnOk result (self.new.book ≡ self.old.book) }
        ensures queries { length self.new.queries.items ≤ length self.old.queries.items + 1 }
        ensures registers { self.new.registers ≡ self.old.registers }
        ensures room { OnErr result (length (joined self.new.pieces) ≤ self.new.book.spare) }
    {
        if self.queries.reserve(1).is_err() {
            return Err(RunFault::Memory);
        }
        let part = answer.part as usize;
        let y = answer.point;
        if self
            .pieces
            .cut(piece as usize, part, &y, &mut self.book)
            .is_err()
        {
            return Err(RunFault::Memory);
        }
        let asked = Query {
            agent,
            kind: QueryKind::Cut {
                amount: *amount,
                part: answer.part,
            },
            answer: y,
        };
        self.queries.push(asked).unwrap();
        Ok(())
    }

    // The agent cuts the piece of that number at that amount, where the next answer says, or is stuck at the side told.
    fn cut_at(
        &mut self,
        valuation: &Valuation,
        answers: &mut Answers<'_>,
        agent: u32,
        piece: u32,
        amount: &Frac,
    ) -> Result<Option<Side>, RunFault>
        requires there { piece < length self.old.pieces }
        requires some { 0 < length (piece_at self.old.pieces piece) }
        requires parts { length (piece_at self.old.pieces piece) < 2 ^ 32 }
        requires ordered { AllInOrder self.old.pieces }
        requires room { length (joined self.old.pieces) ≤ self.old.book.spare }
        requires few { length self.old.queries.items < 2 ^ 32 }
        ensures ok { IfOk result (λ o. (go : Onward)
            → walk_cut valuation.now agent piece amount.now go (answers_of answers.old) (board_of self.old)
            ≡ after o go (answers_of answers.new) (board_of self.new)) }
        ensures err { IfErr result (λ f. (go : Onward)
            → FaultIs f (walk_cut valuation.now agent piece amount.now go (answers_of answers.old) (board_of self.old))) }
        ensures pieces { IfOk result (λ o. MatchOption o
            (IsCut self.old.pieces piece self.new.pieces)
            (λ side. self.new.pieces ≡ self.old.pieces)) }
        ensures book { OnOk result (self.new.book ≡ self.old.book) }
        ensures queries { length self.new.queries.items ≤ length self.old.queries.items + 1 }
        ensures registers { self.new.registers ≡ self.old.registers }
        ensures room { OnErr result (length (joined self.new.pieces) ≤ self.new.book.spare) }
    {
        let side = match self.side(valuation, piece, amount) {
            Ok(side) => side,
            Err(fault) => return Err(fault),
        };
        if let Some(at) = side {
            if answers.are_left() {
                return Err(RunFault::TooManyAnswers);
            }
            return Ok(Some(at));
        }
        let answer = match self.answer(valuation, answers, piece, amount) {
            Ok(answer) => answer,
            Err(fault) => return Err(fault),
        };
        match self.cut_there(agent, piece, amount, &answer) {
            Ok(()) => Ok(None),
            Err(fault) => Err(fault),
        }
    }

    /// The agent cuts the piece of that number at the sum, where the next answer says, or the cut is stuck at the side that
    /// is told. Its numbers, and an answer that is refused, belong to the query whose number is that of the queries so far.
    pub(crate) fn cut(
        &mut self,
        valuation: &Valuation,
        answers: &mut Answers<'_>,
        agent: u32,
        piece: u32,
        amount: &Lin,
    ) -> Result<Option<Side>, RunFault>
        requires there { piece < length self.old.pieces }
        requires some { 0 < length (piece_at self.old.pieces piece) }
        requires parts { length (piece_at self.old.pieces piece) < 2 ^ 32 }
        requires ordered { AllInOrder self.old.pieces }
        requires room { length (joined self.old.pieces) ≤ self.old.book.spare }
        requires few { length self.old.queries.items < 2 ^ 32 }
        ensures ok { IfOk result (λ o. (go : Onward)
            → walk_on (length self.old.queries.items) (lin_in self.old.registers.items amount.now.terms) (λ share.
            walk_cut valuation.now agent piece share go (answers_of answers.old) (board_of self.old))
            ≡ after o go (answers_of answers.new) (board_of self.new)) }
        ensures err { IfErr result (λ f. (go : Onward) → FaultIs f
            (walk_on (length self.old.queries.items) (lin_in self.old.registers.items amount.now.terms) (λ share.
            walk_cut valuation.now agent piece share go (answers_of answers.old) (board_of self.old)))) }
        ensures pieces { IfOk result (λ o. MatchOption o
            (IsCut self.old.pieces piece self.new.pieces)
            (λ side. self.new.pieces ≡ self.old.pieces)) }
        ensures book { OnOk result (self.new.book ≡ self.old.book) }
        ensures queries { length self.new.queries.items ≤ length self.old.queries.items + 1 }
        ensures registers { self.new.registers ≡ self.old.registers }
        ensures room { OnErr result (length (joined self.new.pieces) ≤ self.new.book.spare) }
    {
        let amount = match self.sum(amount) {
            Ok(amount) => amount,
            Err(fault) => return Err(fault),
        };
        self.cut_at(valuation, answers, agent, piece, &amount)
    }

    /// The two pieces become one.
    pub(crate) fn join(&mut self, first: u32, second: u32) -> Result<(), RunFault>
        requires first_held { 0 < length (piece_at self.old.pieces first) }
        requires second_held { 0 < length (piece_at (emptied self.old.pieces first) second) }
        requires room { length (joined self.old.pieces) ≤ self.old.book.spare }
        ensures ok { OnOk result (board_of self.new ≡ join_on first second (board_of self.old)) }
        ensures err { IfErr result (λ f. f ≡ RunFault.Memory) }
        ensures book { OnOk result (self.new.book ≡ self.old.book) }
        ensures queries { self.new.queries ≡ self.old.queries }
        ensures registers { self.new.registers ≡ self.old.registers }
        ensures room { OnErr result (length (joined self.new.pieces) ≤ self.new.book.spare) }
    {
        if self
            .pieces
            .join(first as usize, second as usize, &mut self.book)
            .is_err()
        {
            return Err(RunFault::Memory);
        }
        Ok(())
    }

    /// The piece of that number goes to the agent.
    pub(crate) fn give(&mut self, piece: u32, agent: u32) -> Result<(), RunFault>
        requires held { 0 < length (piece_at self.old.pieces piece) }
        requires from_one { 1 ≤ agent }
        requires there { agent ≤ length self.old.book.shares }
        requires room { length (joined self.old.pieces) ≤ self.old.book.spare }
        ensures ok { OnOk result (board_of self.new ≡ give_on piece agent (board_of self.old)) }
        ensures err { IfErr result (λ f. f ≡ RunFault.Memory) }
        ensures left { OnOk result (self.new.book.left ≡ self.old.book.left) }
        ensures spare { OnOk result (self.new.book.spare ≡ self.old.book.spare) }
        ensures queries { self.new.queries ≡ self.old.queries }
        ensures registers { self.new.registers ≡ self.old.registers }
        ensures room { OnErr result (length (joined self.new.pieces) ≤ self.new.book.spare) }
    {
        if self
            .pieces
            .give(piece as usize, &mut self.book, agent)
            .is_err()
        {
            return Err(RunFault::Memory);
        }
        Ok(())
    }
}

// Whether the first fraction is below the second.
fn is_below(a: &Frac, b: &Frac) -> bool
    ensures { result ≡ below a.now b.now }
{
    a.compare(b) == Ordering::Less
}

// Whether a test goes to yes.
fn goes_yes(strict: bool, left: &Frac, right: &Frac) -> bool
    ensures { result ≡ goes_yes strict left.now right.now }
{
    if strict {
        is_below(right, left)
    } else {
        !is_below(left, right)
    }
}

/// Where a walk halts: at the end, or at a cut that has no right answer.
#[derive(Clone, Copy)]
pub(crate) enum Stop {
    End,
    Stuck(Side),
}
