//! How high a node to be put would be, and how many lines it would have.
ghost use Rattle.std.specs.Prelude.{◌≡◌, ℕ, suc, ◌<◌, min, length, slice_index};
ghost use Rattle.node.specs.Parts.{kids};
ghost use Rattle.table.specs.State.{all_lines, highest, state_of, walked};

use crate::children::Family;
use crate::memory::Memory;

/// A height, and a number of lines that is exact up to 65,535 and 65,536 beyond.
#[derive(Clone, Copy)]
pub(crate) struct Measure {
    pub(crate) height: usize,
    pub(crate) lines: usize,
}

impl Memory<'_> {
    // What the walked children of a node to be put come to.
    pub(crate) fn measure(&self, family: &Family<'_, &[usize]>) -> Measure
        requires { (k : ℕ) → k < kids family.now.parts.now → slice_index family.now.named.now k < length self.now.nodes.now }
        ensures height { result.height ≡ suc (highest (state_of self.now) (walked (λ k. slice_index family.now.named.now k) family.now.details.now family.now.parts.now)) }
        ensures lines { result.lines ≡ min (suc (all_lines (state_of self.now) (walked (λ k. slice_index family.now.named.now k) family.now.details.now family.now.parts.now))) 65536 }
    {
        let mut height: usize = 0;
        let mut lines: usize = 1;
        for i in 0..family.child_count() {
            let child = self.nodes[family.child(i)];
            height = height.max(child.height as usize);
            lines = (lines + child.lines as usize).min(65536);
        }
        Measure {
            height: height + 1,
            lines,
        }
    }
}
