//! The path stack: the names from the first of an initial path down to the node that is shown.
ghost use Rattle.std.specs.Prelude.{◌≤◌, min, length};

/// A path over lent memory, for names of any tree. Of memory over its limit only the first 128 places are used.
#[derive(Drop)]
pub struct PathStack<'a, N> {
    pub(crate) places: &'a mut [N],
    pub(crate) len: usize,
    ghost fits: { len ≤ min (length places.now) 128 },
}
