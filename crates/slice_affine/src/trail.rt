//! Uses of pieces, as the checker notes them in order: the trail of a block. So no scope is copied for an `if`: what
//! a block used is taken back after it, and noted again after the whole `if`.

/// A use of the name at an index of those in scope, and the place where it stands.
#[derive(Clone, Copy)]
pub(crate) struct Use {
    pub index: usize,
    pub place: usize,
}
