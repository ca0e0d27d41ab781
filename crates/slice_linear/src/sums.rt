//! Sums of products, where every number on the way fits.
ghost use Rattle.std.specs.Prelude.{◌≡◌, length, IfOk, OnErr};
ghost use Rattle.slice_linear.specs.Rows.{dot, DotFits};

use slice_num::{NoFit, product, sum};

// The sum of coefficients times xs, where each product and each partial sum fits.
pub(crate) fn dot_of(coefs: &[i128], xs: &[i128]) -> Result<i128, NoFit>
    requires { length coefs.now ≡ length xs.now }
    ensures value { IfOk result (λ s. s ≡ dot coefs.now xs.now) }
    ensures fits { IfOk result (λ s. DotFits coefs.now xs.now) }
    ensures no_fit { OnErr result (DotFits coefs.now xs.now → ⊥) }
{
    let mut total = 0;
    for j in 0..xs.len() {
        let term = product(coefs[j], xs[j])?;
        total = sum(total, term)?;
    }
    Ok(total)
}
