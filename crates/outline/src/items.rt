//! What is held of an entry.

use crate::entries::Entry;

/// An entry as its line tells it.
#[derive(Drop)]
pub struct Item {
    /// How many levels it is below the outermost.
    pub(crate) depth: usize,
    /// Its text.
    pub(crate) text: String,
}

/// An entry in its outline, with what is below it.
#[derive(Drop)]
pub struct Branch {
    /// The entry itself.
    pub(crate) item: Item,
    /// 1 for a leaf, else one more than its highest child.
    pub(crate) height: usize,
    /// Its children, in the order of their lines.
    pub(crate) children: Vec<Entry>,
}
