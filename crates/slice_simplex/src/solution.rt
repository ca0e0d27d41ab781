//! The end solution: the values of the unknowns at the last basis, in lowest whole numbers.
ghost use Rattle.std.specs.Prelude.{◌≡◌, ℕ, ◌<◌, ◌^◌, map, pos, ◌<ℤ◌, IfOk, IfErr, OkIff};
ghost use Rattle.std.specs.List.{range_with_len};
ghost use Rattle.slice_num.specs.Rational.{Fits};
ghost use Rattle.slice_linear.specs.Sums.{at};
ghost use Rattle.slice_tableau.specs.Table.{basic_at};
ghost use Rattle.slice_simplex.specs.Ends.{basic_value, multiple_to, whole_at, whole_of, end_solution, EndFits};
ghost use Rattle.slice_simplex.specs.declared.solution.EndFault.TheVariants.{Memory};
ghost use Rattle.slice_simplex.specs.Working.{EndFaultMeans, HasBasis};

use slice_linear::reduce;
use slice_num::{NoFit, divide, gcd, lcm, product};
use slice_tableau::Tableau;
use std::alloc::{AllocError, Global};

// Why the values have no whole numbers.
pub(crate) enum EndFault {
    // A multiple or a product doesn't fit, first at this row.
    Unfit(usize),
    // No memory was left.
    Memory,
}

impl From<AllocError> for EndFault {
    ghost from_gives = { λ _ e. e ≡ Memory };

    fn from(_error: AllocError) -> EndFault {
        EndFault::Memory
    }
}

// The value of the basic column of a row in lowest terms: its numerator and its denominator.
fn basic_value(tableau: &Tableau, row: usize) -> (i128, i128)
    requires row { row < tableau.now.height }
    requires basis { HasBasis tableau.now }
    ensures num { result.0 ≡ (basic_value tableau.now row).num }
    ensures den { result.1 ≡ pos (basic_value tableau.now row).den }
    ensures above { pos 0 <ℤ result.1 }
{
    let right = tableau.cell(row, tableau.right());
    let basic = tableau.cell(row, tableau.basic(row));
    let common = gcd(right, basic);
    (divide(right, common), divide(basic, common))
}

// The least common multiple of the denominators of the unknowns that are basic.
fn common_multiple(tableau: &Tableau) -> Result<i128, EndFault>
    requires { HasBasis tableau.now }
    ensures value { IfOk result (λ m. m ≡ pos (multiple_to tableau.now tableau.now.height)) }
    ensures above { IfOk result (λ m. pos 0 <ℤ m) }
    ensures fits { IfOk result (λ _. multiple_to tableau.now tableau.now.height < 2 ^ 127) }
    ensures fault { IfErr result (λ e. EndFaultMeans tableau.now e) }
{
    let mut multiple = 1;
    for row in 0..tableau.height() {
        if tableau.basic(row) < tableau.unknowns() {
            let (_, den) = basic_value(tableau, row);
            match lcm(multiple, den) {
                Ok(more) => multiple = more,
                Err(NoFit) => return Err(EndFault::Unfit(row)),
            }
        }
    }
    Ok(multiple)
}

// The value of the unknown that is basic in a row times the multiple.
fn whole(tableau: &Tableau, row: usize, multiple: i128) -> Result<i128, NoFit>
    requires row { row < tableau.now.height }
    requires basis { HasBasis tableau.now }
    requires unknown { basic_at tableau.now row < tableau.now.unknowns }
    requires multiple { multiple ≡ pos (multiple_to tableau.now tableau.now.height) }
    ensures { OkIff result (Fits (whole_at tableau.now row)) (whole_at tableau.now row) }
{
    let (num, den) = basic_value(tableau, row);
    product(num, divide(multiple, den))
}

// The values of the unknowns times the multiple.
fn whole_numbers(alloc: Global, tableau: &Tableau, multiple: i128) -> Result<Vec<i128>, EndFault>
    requires basis { HasBasis tableau.now }
    requires multiple { multiple ≡ pos (multiple_to tableau.now tableau.now.height) }
    ensures value { IfOk result (λ v. v.items ≡ map (whole_of tableau.now) (range_with_len 0 tableau.now.unknowns)) }
    ensures products { IfOk result (λ _. (l : ℕ) → l < tableau.now.height → Fits (whole_at tableau.now l)) }
    ensures fits { IfOk result (λ v. (j : ℕ) → Fits (at v.items j)) }
    ensures fault { IfErr result (λ e. EndFaultMeans tableau.now e) }
{
    let mut numbers = vec![in alloc; 0; tableau.unknowns()]?;
    for row in 0..tableau.height() {
        let col = tableau.basic(row);
        if col < tableau.unknowns() {
            match whole(tableau, row, multiple) {
                Ok(number) => numbers[col] = number,
                Err(NoFit) => return Err(EndFault::Unfit(row)),
            }
        }
    }
    Ok(numbers)
}

// The end solution, one number for each unknown.
pub(crate) fn end_solution(alloc: Global, tableau: &Tableau) -> Result<Vec<i128>, EndFault>
    requires { HasBasis tableau.now }
    ensures value { IfOk result (λ v. v.items ≡ end_solution tableau.now) }
    ensures made { IfOk result (λ _. EndFits tableau.now) }
    ensures fits { IfOk result (λ v. (j : ℕ) → Fits (at v.items j)) }
    ensures fault { IfErr result (λ e. EndFaultMeans tableau.now e) }
{
    let multiple = common_multiple(tableau)?;
    let mut numbers = whole_numbers(alloc, tableau, multiple)?;
    reduce(&mut numbers);
    Ok(numbers)
}
