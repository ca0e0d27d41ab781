//! What is left to do at a spot.
ghost use Rattle.std.specs.Prelude.{◌≡◌, ◌++◌, ◌∷◌, [], OnOk, OnErr};

use crate::goal::Goal;
use crate::spot::Spot;
use slice_core::Node;
use slice_linear::Form;
use slice_num::Memory;

/// A cut that is met: who cuts which piece, the form of its amount, and what follows.
#[derive(Drop)]
pub(crate) struct CutHere<'a> {
    pub(crate) agent: u32,
    pub(crate) piece: u32,
    pub(crate) amount: Form,
    pub(crate) next: &'a Node,
}

/// The no of a test: the forms of its sides, and what follows.
#[derive(Drop)]
pub(crate) struct NoHere<'a> {
    pub(crate) left: Form,
    pub(crate) right: Form,
    pub(crate) strict: bool,
    pub(crate) next: &'a Node,
}

/// What is left at a spot: to walk on from a node; the goals at a cut, and then what follows an answer in its parts from
/// one on; the no of a test; or the pairs at an end, from one on.
#[derive(Drop)]
pub(crate) enum Rest<'a> {
    Walk(&'a Node),
    Low(CutHere<'a>),
    High(CutHere<'a>),
    Parts(CutHere<'a>, u32),
    No(NoHere<'a>),
    Pairs(u32, u32),
}

/// A spot, and what is left to do there.
#[derive(Drop)]
pub(crate) struct Frame<'a> {
    pub(crate) rest: Rest<'a>,
    pub(crate) spot: Spot,
}

/// The frames that a quiet step leaves: what comes up next is in the last one.
#[derive(Drop)]
pub(crate) enum Onward<'a> {
    End,
    One(Frame<'a>),
    Two(Frame<'a>, Frame<'a>),
}

/// A step: a quiet one, or a goal and the frame behind it.
#[derive(Drop)]
pub(crate) enum Step<'a> {
    Quiet(Onward<'a>),
    Told(Goal, Frame<'a>),
}

/// Puts a frame behind the others. `Err` comes only for want of memory.
pub(crate) fn put_frame<'a>(frames: &mut Vec<Frame<'a>>, frame: Frame<'a>) -> Result<(), Memory>
    ensures ok { OnOk result (frames.new.items ≡ frames.old.items ++ frame.entry ∷ []) }
    ensures err { OnErr result (frames.new.items ≡ frames.old.items) }
{
    if frames.push(frame).is_err() {
        return Err(Memory);
    }
    Ok(())
}
