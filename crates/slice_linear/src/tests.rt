// Rows of forms against rows worked by hand, and the numbers at which calls refuse.
use crate::{Form, Row, RowKind, holds, reduce};
use slice_num::{Frac, Key, NoFit};
use std::alloc::Global;
use std::test::Fail;

const MOST: i128 = i128::MAX;

const HIGH: i128 = 1 << 126;

// The unknowns of cut-and-choose after its cut: the whole, and what each of two atoms is worth to each agent.
const WHOLE: Key = Key { agent: 0, atom: 0 };

const LEFT_TO_1: Key = Key { agent: 1, atom: 1 };

const RIGHT_TO_1: Key = Key { agent: 1, atom: 2 };

const LEFT_TO_2: Key = Key { agent: 2, atom: 1 };

const RIGHT_TO_2: Key = Key { agent: 2, atom: 2 };

// A number of times the whole, and one unknown more, and one less; each where it isn't the whole itself.
fn form_of(alloc: Global, wholes: (i128, i128), plus: Key, minus: Key) -> Result<Form, Fail> {
    let mut form = Form::whole(alloc, Frac::new(wholes.0, wholes.1)?)?;
    if plus != WHOLE {
        form = form.add(alloc, &Form::of_keys(alloc, &[plus])?)?;
    }
    if minus != WHOLE {
        form = form.sub(alloc, &Form::of_keys(alloc, &[minus])?)?;
    }
    Ok(form)
}

fn row_of(alloc: Global, form: &Form) -> Result<Row, Fail> {
    let order = [WHOLE, LEFT_TO_1, RIGHT_TO_1, LEFT_TO_2, RIGHT_TO_2];
    Ok(form.to_row(alloc, RowKind::Zero, &order)?)
}

// The rows of cut-and-choose: the whole; a cut at a half; the chooser's comparison both ways; the cutter's envy both ways.
#[test]
fn makes_the_rows_of_cut_and_choose(rt: HostRuntime) -> Result<(), Fail> {
    let alloc = rt.alloc();
    for (wholes, plus, minus, want) in [
        ((1, 1), WHOLE, WHOLE, [1, 0, 0, 0, 0]),
        ((-1, 2), LEFT_TO_1, WHOLE, [-1, 2, 0, 0, 0]),
        ((0, 1), LEFT_TO_2, RIGHT_TO_2, [0, 0, 0, 1, -1]),
        ((0, 1), RIGHT_TO_2, LEFT_TO_2, [0, 0, 0, -1, 1]),
        ((0, 1), LEFT_TO_1, RIGHT_TO_1, [0, 1, -1, 0, 0]),
        ((0, 1), RIGHT_TO_1, LEFT_TO_1, [0, -1, 1, 0, 0]),
        ((0, 1), LEFT_TO_2, LEFT_TO_2, [0, 0, 0, 0, 0]),
        ((MOST, 3), LEFT_TO_2, WHOLE, [MOST, 0, 0, 3, 0]),
    ] {
        let form = form_of(alloc, wholes, plus, minus)?;
        let row = row_of(alloc, &form)?;
        assert_eq!(rt;
            row.coefs(),
            want.as_slice(),
            "{plus:?} less {minus:?}, {wholes:?}"
        );
    }
    Ok(())
}

// An agent's atoms make up the whole.
#[test]
fn adds_atoms(rt: HostRuntime) -> Result<(), Fail> {
    let alloc = rt.alloc();
    let atoms = Form::of_keys(alloc, &[RIGHT_TO_2, LEFT_TO_2])?;
    let sum = atoms.sub(alloc, &Form::whole(alloc, Frac::whole(1))?)?;
    let row = row_of(alloc, &sum)?;
    assert_eq!(rt; row.coefs(), [-1, 0, 0, 1, 1].as_slice());
    Ok(())
}

// A cut puts two atoms in the place of one.
#[test]
fn replaces_an_atom(rt: HostRuntime) -> Result<(), Fail> {
    let alloc = rt.alloc();
    let half = Frac::new(1, 2)?;
    let cake = Form::whole(alloc, half)?;
    let cut = cake.replace(alloc, WHOLE, RIGHT_TO_1, LEFT_TO_1)?;
    assert_eq!(rt; row_of(alloc, &cut)?.coefs(), [0, 1, 1, 0, 0].as_slice());
    let same = cake
        .copy(alloc)?
        .replace(alloc, RIGHT_TO_2, RIGHT_TO_1, LEFT_TO_1)?;
    assert_eq!(rt; row_of(alloc, &same)?.coefs(), [1, 0, 0, 0, 0].as_slice());
    Ok(())
}

// The sum of a number of times the whole and another, the product of the two, and the row of one in the whole and the
// other in an unknown: whether each is made.
fn made(alloc: Global, first: Frac, second: Frac) -> Result<(bool, bool, bool), Fail> {
    let left = Form::whole(alloc, first)?;
    let right = Form::of_keys(alloc, &[LEFT_TO_1])?.scale(alloc, &second)?;
    let order = [WHOLE, LEFT_TO_1];
    let row = left
        .add(alloc, &right)?
        .to_row(alloc, RowKind::Above, &order);
    let sum = left.add(alloc, &Form::whole(alloc, second)?);
    Ok((sum.is_ok(), right.scale(alloc, &first).is_ok(), row.is_ok()))
}

#[test]
fn refuses_numbers_that_do_not_fit(rt: HostRuntime) -> Result<(), Fail> {
    for (first, second, want) in [
        ((MOST, 1), (1, 1), (false, true, true)),
        ((MOST - 1, 1), (1, 1), (true, true, true)),
        ((-MOST, 1), (-1, 1), (false, true, true)),
        ((MOST, 1), (2, 1), (false, false, true)),
        ((MOST, 1), (1, 2), (false, true, false)),
        ((HIGH, 1), (1, 2), (false, true, false)),
        ((HIGH - 1, 1), (1, 2), (true, true, true)),
        ((1, MOST), (1, 2), (false, false, false)),
        ((1, MOST), (1, MOST), (true, false, true)),
        ((1, MOST), (0, 1), (true, true, true)),
    ] {
        let found = made(
            rt.alloc(),
            Frac::new(first.0, first.1)?,
            Frac::new(second.0, second.1)?,
        )?;
        assert_eq!(rt; found, want, "{first:?} and {second:?}");
    }
    Ok(())
}

// Whether rows with these coefficients hold: a Zero row, an AtLeast row, an Above row.
fn held(alloc: Global, coefs: [i128; 3], xs: [i128; 3]) -> Result<[Result<bool, NoFit>; 3], Fail> {
    let zero = Row {
        kind: RowKind::Zero,
        coefs: Vec::from_array(alloc, coefs)?,
    };
    let at_least = Row {
        kind: RowKind::AtLeast,
        coefs: Vec::from_array(alloc, coefs)?,
    };
    let above = Row {
        kind: RowKind::Above,
        coefs: Vec::from_array(alloc, coefs)?,
    };
    Ok([holds(&zero, &xs), holds(&at_least, &xs), holds(&above, &xs)])
}

#[test]
fn tells_where_rows_hold(rt: HostRuntime) -> Result<(), Fail> {
    for (coefs, xs, want) in [
        ([1, -1, 0], [3, 3, 9], [Ok(true), Ok(true), Ok(false)]),
        ([1, -1, 0], [3, 2, 9], [Ok(false), Ok(true), Ok(true)]),
        ([1, -1, 0], [2, 3, 9], [Ok(false); 3]),
        ([MOST, -MOST, 1], [1, 1, 0], [Ok(true), Ok(true), Ok(false)]),
        ([MOST, 1, -1], [1, 1, 1], [Err(NoFit); 3]),
        ([MOST, -1, 1], [1, 1, 1], [Ok(false), Ok(true), Ok(true)]),
        ([-MOST, -1, 0], [1, 1, 1], [Err(NoFit); 3]),
        ([-MOST, 0, 0], [1, 1, 1], [Ok(false); 3]),
        ([HIGH, 0, 0], [2, 0, 0], [Err(NoFit); 3]),
        ([-HIGH, 0, 0], [2, 0, 0], [Err(NoFit); 3]),
        ([0, HIGH - 1, 0], [0, 2, 0], [Ok(false), Ok(true), Ok(true)]),
    ] {
        assert_eq!(rt; held(rt.alloc(), coefs, xs)?, want, "{coefs:?} at {xs:?}");
    }
    Ok(())
}

#[test]
fn reduces(rt: HostRuntime) {
    for (numbers, want) in [
        ([4, -6, 0], [2, -3, 0]),
        ([0, 0, 0], [0, 0, 0]),
        ([0, -5, 0], [0, -1, 0]),
        ([3, 5, 30], [3, 5, 30]),
        ([-MOST, MOST, 0], [-1, 1, 0]),
    ] {
        let mut reduced = numbers;
        reduce(&mut reduced);
        assert_eq!(rt; reduced, want);
    }
}
