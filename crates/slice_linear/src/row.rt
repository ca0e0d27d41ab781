//! Rows, and where they hold.
ghost use Rattle.std.specs.Prelude.{◌≡◌, ◌↔◌, length, IsTrue, IfOk, IfErr};
ghost use Rattle.slice_linear.specs.Rows.{dot, DotFits, KindHolds};

use crate::sums::dot_of;
use slice_num::NoFit;
use std::marker::Model;

/// What a row says of the sum of its coefficients times the unknowns.
#[derive(Clone, Copy, Debug, PartialEq, Eq)]
pub enum RowKind {
    /// The sum is 0.
    Zero,
    /// The sum is at least 0.
    AtLeast,
    /// The sum is above 0.
    Above,
}

/// A row: its kind, and a whole coefficient for each unknown. Contracts see it as a `LinearRow`.
#[derive(Debug, Drop)]
pub struct Row {
    /// What the row says of its sum.
    pub kind: RowKind,
    /// The coefficients, from unknown 0 on.
    pub coefs: Vec<i128>,
}

impl Model for Row {
    ghost use Rattle.slice_linear.specs.Rows.{LinearRow};

    ghost Value = { LinearRow };

    ghost view = { λ r. record { kind = r.kind; coefs = r.coefs.items } };
}

impl Row {
    /// What the row says of its sum.
    pub fn kind(&self) -> RowKind
        ensures { result ≡ self.now.kind }
    {
        self.kind
    }

    /// The coefficients, from unknown 0 on.
    pub fn coefs(&self) -> &[i128]
        ensures { result.now ≡ self.now.coefs }
    {
        self.coefs.as_slice()
    }
}

/// Whether the row holds at the numbers, one for each coefficient. NoFit comes exactly where a product of coefficient and
/// number, or a sum of the first of these, in order of the unknowns, doesn't fit. It takes no memory.
pub fn holds(row: &Row, xs: &[i128]) -> Result<bool, NoFit>
    requires { length row.now.coefs ≡ length xs.now }
    ensures holds { IfOk result (λ b. IsTrue b ↔ KindHolds row.now.kind (dot row.now.coefs xs.now)) }
    ensures fits { IfOk result (λ _. DotFits row.now.coefs xs.now) }
    ensures no_fit { IfErr result (λ _. DotFits row.now.coefs xs.now → ⊥) }
{
    let sum = dot_of(row.coefs(), xs)?;
    Ok(kind_holds(row.kind(), sum))
}

// What a row of that kind says of its sum.
fn kind_holds(kind: RowKind, sum: i128) -> bool
    ensures { IsTrue result ↔ KindHolds kind sum }
{
    match kind {
        RowKind::Zero => sum == 0,
        RowKind::AtLeast => sum >= 0,
        RowKind::Above => sum > 0,
    }
}
