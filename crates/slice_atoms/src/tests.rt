// Atoms of cakes that were cut by hand: their order, the parts of pieces, and what is cut out of a joined piece.
use crate::{Atoms, Split};
use slice_num::Key;
use std::alloc::Global;
use std::test::Fail;

// The right half is cut before the left one: the atoms that are made last lie leftmost.
#[test]
fn orders_atoms_from_left_to_right(rt: HostRuntime) -> Result<(), Fail> {
    let alloc = rt.alloc();
    let mut atoms = Atoms::new(alloc, 2)?;
    assert_eq!(rt; atoms.order(), [1].as_slice());
    atoms.cut(0, 0, 1, 2)?;
    assert_eq!(rt; atoms.order(), [2, 3].as_slice());
    atoms.cut(2, 0, 3, 4)?;
    assert_eq!(rt; atoms.order(), [2, 4, 5].as_slice());
    let split = atoms.cut(1, 0, 5, 6)?;
    let want = Split {
        old: 2,
        left: 6,
        right: 7,
    };
    assert_eq!(rt; split, want);
    assert_eq!(rt; atoms.order(), [6, 7, 4, 5].as_slice());
    Ok(())
}

// The halves are joined, the right one first, and what was the left half is cut again.
#[test]
fn cuts_a_joined_piece_in_its_second_part(rt: HostRuntime) -> Result<(), Fail> {
    let alloc = rt.alloc();
    let mut atoms = Atoms::new(alloc, 2)?;
    atoms.cut(0, 0, 1, 2)?;
    atoms.join(2, 1, 3)?;
    assert_eq!(rt; atoms.parts(3), 2);
    atoms.cut(3, 1, 4, 5)?;
    assert_eq!(rt; atoms.pieces(), 6);
    assert_eq!(rt; atoms.order(), [4, 5, 3].as_slice());
    for (piece, want) in [
        (3, [].as_slice()),
        (
            4,
            [Key { agent: 2, atom: 3 }, Key { agent: 2, atom: 4 }].as_slice(),
        ),
        (5, [Key { agent: 2, atom: 5 }].as_slice()),
    ] {
        assert_eq!(rt;
            atoms.unknowns_of(alloc, 2, piece)?.as_slice(),
            want,
            "piece {piece}"
        );
    }
    let keys = atoms.copy(alloc)?.keys(alloc)?;
    let want = [(0, 0), (1, 4), (1, 5), (1, 3), (2, 4), (2, 5), (2, 3)];
    for (key, (agent, atom)) in keys.as_slice().iter().zip(want) {
        assert_eq!(rt; *key, Key { agent, atom });
    }
    assert_eq!(rt; keys.len(), want.len());
    Ok(())
}
