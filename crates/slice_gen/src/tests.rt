// What no clause says: that texts are made, and one of them whole.
use crate::{GenFault, rounds};
use std::test::Fail;

const ONE: &[u8] = b"\
protocol rounds agents 2 {
  cut 1 cake at 1/2 as l1, q1;
  if value(2, l1) >= value(2, q1) {
    give l1 to 2;
    give q1 to 1;
  } else {
    give q1 to 2;
    give l1 to 1;
  }
}
";

const TWO: &[u8] = b"\
protocol rounds agents 2 {
  cut 1 cake at 1/4 as l1, s1;
  cut 1 s1 at 1/4 as q1, r1;
  if value(2, l1) >= value(2, q1) {
    give l1 to 2;
    give q1 to 1;
  } else {
    give q1 to 2;
    give l1 to 1;
  }
  cut 1 r1 at 1/4 as l2, q2;
  if value(2, l2) >= value(2, q2) {
    give l2 to 2;
    give q2 to 1;
  } else {
    give q2 to 2;
    give l2 to 1;
  }
}
";

#[test]
fn makes_rounds(rt: HostRuntime) -> Result<(), Fail> {
    let alloc = rt.alloc();
    let one = rounds(alloc, 1)?;
    assert_eq!(rt; one.as_slice(), ONE);
    let two = rounds(alloc, 2)?;
    assert_eq!(rt; two.as_slice(), TWO);
    // Each round but the last has 181 bytes, and from round 5 on each share has two digits.
    for (n, long) in [
        (3, 545),
        (4, 726),
        (5, 916),
        (6, 1099),
        (7, 1282),
        (8, 1465),
    ] {
        let text = rounds(alloc, n)?;
        assert_eq!(rt; text.len(), long, "rounds {n}");
    }
    Ok(())
}

#[test]
fn refuses_other_numbers(rt: HostRuntime) {
    for n in [0, 9, 10, u32::MAX] {
        match rounds(rt.alloc(), n) {
            Ok(_) => assert!(rt; false, "made"),
            Err(fault) => assert_eq!(rt; fault, GenFault::Range),
        }
    }
}
