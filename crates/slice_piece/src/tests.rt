//! Pieces that are spent in each way, with ample memory.
use crate::{Back, BackTwo, Book, Interval, Piece};
use slice_num::Frac;
use std::test::Fail;

#[test]
fn makes_books(rt: HostRuntime) -> Result<(), Fail> {
    let book = Book::new(rt.alloc(), 2, 65)?;
    assert_eq!(rt; book.agents(), 2);
    assert_eq!(rt; book.spare(), 65);
    assert_eq!(rt; book.shares().len(), 2);
    assert!(rt; book.share(1).is_empty() && book.share(2).is_empty());
    assert!(rt; book.left().is_empty());
    Ok(())
}

// A cake of length 4 is cut at 3/2; the right part and then the left one are joined and given to agent 2. Another cake,
// of length 1, is left.
#[test]
fn spends_pieces(rt: HostRuntime) -> Result<(), Fail> {
    let y = Frac::new(3, 2)?;
    let mut book = Book::new(rt.alloc(), 2, 3)?;
    let other = Piece::cake(rt.alloc(), 1)?;
    other.leave(&mut book);
    let whole = Piece::cake(rt.alloc(), 4)?;
    let parts = whole.intervals().len();
    match whole.cut(0, &y) {
        Ok((left, right)) => match right.join(left) {
            Ok(piece) => match piece.give(&mut book, 2) {
                Ok(()) => {}
                Err(Back { piece }) => piece.leave(&mut book),
            },
            Err(BackTwo { first, second }) => {
                first.leave(&mut book);
                second.leave(&mut book);
            }
        },
        Err(Back { piece }) => piece.leave(&mut book),
    }
    let (zero, one, four) = (Frac::whole(0), Frac::whole(1), Frac::whole(4));
    let right_and_left = [
        Interval { from: y, to: four },
        Interval { from: zero, to: y },
    ];
    assert_eq!(rt; parts, 1);
    assert!(rt; book.share(1).is_empty());
    assert_eq!(rt; book.share(2), right_and_left.as_slice());
    assert_eq!(rt;
        book.left(),
        [Interval {
            from: zero,
            to: one
        }]
        .as_slice()
    );
    assert_eq!(rt; book.spare(), 2);
    Ok(())
}
