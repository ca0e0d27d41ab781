//! The short form of a line.
ghost use Rattle.std.specs.Prelude.{◌≡◌, ◌<◌, ◌≤◌, ◌^◌, length};
ghost use Rattle.std.specs.List.{All};
ghost use Rattle.slice_num.specs.Rational.{Fits};
ghost use Rattle.slice_cert.specs.CertLines.{MayStand};
ghost use Rattle.slice_cert.specs.ShortForms.{short_line, used};

use crate::line::Line;
use sqlite_items::Items;

/// The short form of the line with these multipliers for the rows of a goal, in a protocol of so many agents. Where that of
/// the goal's own row, the last, isn't 0, it is the goal's line. Otherwise it covers all goals with the same first passed
/// choices, as few of them as the multipliers need: the first `1 + agents` rows hold on every way, and one more comes with
/// each choice. It has the multipliers of these rows, and the others are 0. Where all multipliers fit, it may stand.
pub fn short_line(agents: u32, goal: u64, multipliers: Vec<i128>) -> Line
    requires few { length multipliers.items < 2 ^ 32 }
    ensures line { result ≡ short_line agents goal multipliers.items }
    ensures may { All Fits multipliers.items → MayStand result }
{
    let used = used(multipliers.as_slice());
    if used == multipliers.len() {
        return Line::Refutation {
            goal,
            multipliers: Items::from_vec(multipliers),
        };
    }
    let first = agents as usize + 1;
    let passed = used.saturating_sub(first);
    let mut multipliers = multipliers;
    multipliers.truncate(first + passed);
    Line::Cover {
        goal,
        passed: passed as u32,
        multipliers: Items::from_vec(multipliers),
    }
}

// How many multipliers there are up to the last that isn't 0.
fn used(multipliers: &[i128]) -> usize
    ensures count { result ≡ used multipliers.now }
    ensures within { result ≤ length multipliers.now }
{
    match multipliers {
        [] => 0,
        [front @ .., last] => {
            if *last == 0 {
                used(front)
            } else {
                multipliers.len()
            }
        }
    }
}
