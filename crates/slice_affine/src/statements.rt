//! Statements, and the blocks in which they stand.
ghost use Rattle.std.specs.Prelude.{◌≡◌, OnOk, length, map};
ghost use Rattle.slice_ast.specs.View.{head_of, block_of, code_of, proc_of};
ghost use Rattle.slice_affine.specs.Pass as pass;
ghost use Rattle.slice_affine.specs.Answers.{Goes, Closes};

use crate::checker::Checker;
use crate::fault::AffineFault;
use crate::trail::Use;
use slice_ast::{AgentRef, Arg, Block, Kind, Name, Proc, Stmt, Sum};

impl<'p> Checker<'p> {
    // A cut: its amount is asked before its piece is used.
    fn cut(
        &mut self,
        agent: &AgentRef,
        piece: &Name,
        amount: &Sum,
        left: &'p Name,
        right: &'p Name,
    ) -> Result<(), AffineFault>
        ensures { Goes (pass.tell (pass.cut_step agent.now piece.now amount.now left.now right.now self.old)) result self.new }
    {
        self.look_at_agent(agent)?;
        self.look_up(Kind::Piece, piece)?;
        self.look_at_sum(amount)?;
        self.ask_in_sum(amount)?;
        self.use_up(piece)?;
        self.bind(Kind::Piece, left)?;
        self.bind(Kind::Piece, right)?;
        self.tell()
    }

    // A number gets a name, which is in scope only after it.
    fn let_number(&mut self, name: &'p Name, sum: &Sum) -> Result<(), AffineFault>
        ensures { Goes (pass.tell (pass.let_step name.now sum.now self.old)) result self.new }
    {
        self.look_at_sum(sum)?;
        self.ask_in_sum(sum)?;
        self.bind(Kind::Number, name)?;
        self.tell()
    }

    // Two pieces become one.
    fn join(&mut self, first: &Name, second: &Name, name: &'p Name) -> Result<(), AffineFault>
        ensures { Goes (pass.tell (pass.join_step first.now second.now name.now self.old)) result self.new }
    {
        self.look_up(Kind::Piece, first)?;
        self.look_up(Kind::Piece, second)?;
        self.use_up(first)?;
        self.use_up(second)?;
        self.bind(Kind::Piece, name)?;
        self.tell()
    }

    // A piece is given to an agent.
    fn give(&mut self, piece: &Name, agent: &AgentRef) -> Result<(), AffineFault>
        ensures { Goes (pass.tell (pass.give_step piece.now agent.now self.old)) result self.new }
    {
        self.look_up(Kind::Piece, piece)?;
        self.look_at_agent(agent)?;
        self.use_up(piece)?;
        self.tell()
    }

    // An agent picks one of the pieces; all of them are used, and the names stand for them in another order.
    fn pick(
        &mut self,
        agent: &AgentRef,
        pieces: &[Name],
        names: &'p [Name],
        end: usize,
    ) -> Result<(), AffineFault>
        ensures { Goes (pass.tell (pass.pick_step agent.now pieces.now names.now end self.old)) result self.new }
    {
        self.look_at_agent(agent)?;
        self.look_at_pieces(pieces)?;
        self.look_at_choice(pieces, names, end);
        self.use_all(pieces)?;
        self.bind_all(Kind::Piece, names)?;
        self.tell()
    }

    // A call: whatever its procedure does was checked where it is defined. Here it only asks and uses its arguments and binds its names.
    fn call(
        &mut self,
        procs: &[Proc],
        callee: &Name,
        arguments: &[Arg],
        names: &'p [Name],
        end: usize,
    ) -> Result<(), AffineFault>
        ensures { Goes (pass.tell (pass.call_step (map proc_of procs.now) callee.now arguments.now names.now end self.old)) result self.new }
    {
        self.look_at_call(procs, callee, arguments, names, end)?;
        self.look_at_arguments(arguments)?;
        self.ask_in_arguments(arguments)?;
        self.use_arguments(arguments)?;
        self.bind_all(Kind::Piece, names)?;
        self.tell()
    }

    // The test of an `if`.
    fn test(&mut self, left: &Sum, right: &Sum) -> Result<(), AffineFault>
        ensures { Goes (pass.tell (pass.test_step left.now right.now self.old)) result self.new }
    {
        self.look_at_sum(left)?;
        self.look_at_sum(right)?;
        self.ask_in_sum(left)?;
        self.ask_in_sum(right)?;
        self.tell()
    }

    // The end of an `if`: the names for the pieces that its blocks yield.
    #[tactic(auto, using(crate::proofs::BlockLemmas::block_parts))]
    fn end_choice(
        &mut self,
        yes: &Block,
        no: &Block,
        names: &'p [Name],
        end: usize,
    ) -> Result<(), AffineFault>
        ensures { Goes (pass.tell (pass.end_step (block_of yes.now).yields (block_of no.now).yields names.now end self.old)) result self.new }
    {
        self.look_at_yields(yes.yields.as_slice(), no.yields.as_slice(), names, end);
        self.bind_all(Kind::Piece, names)?;
        self.tell()
    }

    // The end of a block: the pieces that it yields are used.
    fn yield_pieces(&mut self, yields: &[Name]) -> Result<(), AffineFault>
        ensures { Goes (pass.tell (pass.yield_step yields.now self.old)) result self.new }
    {
        self.look_at_pieces(yields)?;
        self.use_all(yields)?;
        self.tell()
    }

    /// The statements of a block, and what it yields.
    #[cycle(blocks)]
    pub fn statements(
        &mut self,
        procs: &[Proc],
        stmts: &'p [Stmt],
        yields: &[Name],
    ) -> Result<(), AffineFault>
        ensures { Goes (pass.pass (map proc_of procs.now) (code_of stmts.now) yields.now self.old) result self.new }
    {
        for stmt in stmts {
            self.statement(procs, stmt)?;
        }
        self.yield_pieces(yields)
    }

    // A statement, with all that stands inside it. After an `if` a piece counts as used that either block used.
    #[cycle(blocks)]
    fn statement(&mut self, procs: &[Proc], stmt: &'p Stmt) -> Result<(), AffineFault>
        ensures { Goes (pass.one_pass (map proc_of procs.now) (head_of stmt.now) self.old) result self.new }
    {
        match stmt {
            Stmt::Cut {
                agent,
                piece,
                amount,
                left,
                right,
            } => self.cut(agent, piece, amount, left, right),
            Stmt::Let { name, sum } => self.let_number(name, sum),
            Stmt::Join {
                first,
                second,
                name,
            } => self.join(first, second, name),
            Stmt::Give { piece, agent } => self.give(piece, agent),
            Stmt::If {
                left,
                right,
                yes,
                no,
                names,
                end,
                ..
            } => {
                self.test(left, right)?;
                let uses = self.block(procs, yes)?;
                let more = self.block(procs, no)?;
                self.remark(uses.as_slice())?;
                self.remark(more.as_slice())?;
                self.end_choice(yes, no, names.as_slice(), *end)
            }
            Stmt::Pick {
                agent,
                pieces,
                names,
                end,
            } => self.pick(agent, pieces.as_slice(), names.as_slice(), *end),
            Stmt::Call {
                callee,
                args,
                names,
                end,
            } => self.call(procs, callee, args.as_slice(), names.as_slice(), *end),
        }
    }

    // A block inside: the uses that it made.
    #[cycle(blocks)]
    fn block(&mut self, procs: &[Proc], block: &'p Block) -> Result<Vec<Use>, AffineFault>
        ensures { Closes (λ v. v.items) (pass.block_pass (map proc_of procs.now) (block_of block.now) self.old) result self.new }
    {
        let len = self.len();
        let trail = self.enter();
        self.statements(procs, block.stmts.as_slice(), block.yields.as_slice())?;
        Ok(self.leave(len, trail))
    }
}
