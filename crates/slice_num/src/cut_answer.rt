//! Answers to cuts.
use crate::Frac;

/// The answer to a cut: which part of the piece is cut, counted from 0 in the order of its parts, and the point in it
/// where it is cut, from 0 to the length of the cake.
#[derive(Clone, Copy, Debug, PartialEq, Eq)]
pub struct CutAnswer {
    pub part: u32,
    pub point: Frac,
}
