//! A core made by hand: the cake is halved, joined and halved again.
ghost use Rattle.std.specs.Prelude.{IfOk};
ghost use Rattle.slice_core.specs.WellFormed.{IsSumOver};

use crate::{Core, Lin, LinTerm, Node, Size, Source};
use slice_num::{Frac, Word};
use sqlite_items::{Boxed, Items};
use std::test::Fail;

fn half(rt: &HostRuntime) -> Result<Lin, Fail>
    ensures { IfOk result (λ sum. IsSumOver 0 sum.terms) }
{
    let term = LinTerm {
        minus: false,
        factor: None,
        source: Source::Const(Frac::new(1, 2)?),
    };
    let terms = vec![in rt.alloc(); term]?;
    Ok(Lin {
        terms: Items::from_vec(terms),
    })
}

#[test]
fn counts_nodes(rt: HostRuntime) -> Result<(), Fail> {
    let again = Node::Cut {
        agent: 1,
        piece: 3,
        amount: half(&rt)?,
        left: 4,
        right: 5,
        next: Boxed::new(rt.alloc(), Node::Done)?,
    };
    let join = Node::Join {
        first: 1,
        second: 2,
        piece: 3,
        next: Boxed::new(rt.alloc(), again)?,
    };
    let root = Node::Cut {
        agent: 1,
        piece: 0,
        amount: half(&rt)?,
        left: 1,
        right: 2,
        next: Boxed::new(rt.alloc(), join)?,
    };
    let core = Core::new(Word::new(rt.alloc(), b"p")?, 1, root);
    let size = Size {
        nodes: 4,
        depth: 4,
        cuts: 2,
    };
    assert_eq!(rt; core.size(), size);
    assert_eq!(rt; core.agents(), 1);
    assert_eq!(rt; core.name().bytes(), b"p".as_slice());
    let is_cut = matches!(core.root(), Node::Cut { piece: 0, .. });
    assert!(rt; is_cut, "the root");
    Ok(())
}
