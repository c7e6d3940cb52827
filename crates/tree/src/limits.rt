//! The memories that a caller lends, and the limit of each.
ghost use Rattle.std.specs.Prelude.{◌≡◌, ◌<◌, ◌≤◌, MatchResult};
ghost use Rattle.tree.specs.Faults.{memory_layer, memory_number};
ghost use Rattle.tree.specs.Limits.{limit_of};

use crate::faults::{Fault, Layer};

/// What a lent memory is for.
#[derive(Clone, Copy, PartialEq, Eq, Debug)]
pub enum Memory {
    Nodes,
    Links,
    Values,
    Items,
    Path,
    Text,
}

impl Memory {
    /// How many places of this memory may be lent at most.
    pub fn limit(self) -> usize
        ensures { result ≡ limit_of self }
    {
        match self {
            Memory::Nodes => 4096,
            Memory::Links => 8192,
            Memory::Values => 4096,
            Memory::Items => 8192,
            Memory::Path => 128,
            Memory::Text => 65535,
        }
    }

    /// Fault 1 where more places are lent than the limit, and only there.
    pub fn check(self, places: usize) -> Result<(), MemoryFault>
        ensures { MatchResult result (λ _. places ≤ limit_of self) (λ f. (limit_of self < places) × (f.memory ≡ self)) }
    {
        if places <= self.limit() {
            Ok(())
        } else {
            Err(MemoryFault { memory: self })
        }
    }
}

/// Fault 1: more memory is lent than its limit. The layer is the memory's own, the place 0.
#[derive(Clone, Copy, PartialEq, Eq, Debug)]
pub struct MemoryFault {
    pub memory: Memory,
}

impl Fault for MemoryFault {
    ghost numbered = { memory_number };

    ghost found = { memory_layer };

    fn number(&self) -> u8 {
        1
    }

    fn layer(&self) -> Layer {
        Layer::Memory
    }
}
