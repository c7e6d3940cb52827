//! The names of an outline's entries, and the fault at a name that it does not have.
ghost use Rattle.tree.specs.declared.faults.Layer.TheVariants.{Table};

use tree::faults::{Fault, Layer};

/// The name of an entry: its number among the entries of the outline, in the order of the lines, from 0.
#[derive(Clone, Copy, PartialEq, Eq, Debug)]
pub struct Entry {
    pub number: usize,
}

/// Fault 2: the outline has no such entry, or the entry no such child.
#[derive(Clone, Copy, PartialEq, Eq, Debug)]
pub struct NoEntry {
    pub entry: Entry,
}

impl Fault for NoEntry {
    ghost numbered = { λ _. 2 };

    ghost found = { λ _. Table };

    fn number(&self) -> u8 {
        2
    }

    fn layer(&self) -> Layer {
        Layer::Table
    }
}
