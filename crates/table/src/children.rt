//! Where a node's children stand among its links.
ghost use Rattle.std.specs.Prelude.{◌≡◌, ℕ, ◌+◌, ◌<◌, ◌≤◌, length, get_or, slice_index, slice_index_or};
ghost use Rattle.node.specs.Parts.{kids, references};
ghost use Rattle.table.specs.Finds.{arm_count, child_count};
ghost use Rattle.table.specs.State.{blank_link, referred, walked};

use node::records::{Details, Link, Parts};

/// What the links of a node name, by their numbers within the node's run.
pub(crate) trait Named {
    ghost names: { Self → ℕ → ℕ };

    ghost reach: { Self → ℕ };

    fn name_at(&self, k: usize) -> usize
        requires { k < reach self.now }
        ensures { result ≡ names self.now k };
}

/// The places that are handed in for a node to be put.
impl Named for &[usize] {
    ghost names = { λ h k. slice_index h.now k };

    ghost reach = { λ h. length h.now };

    fn name_at(&self, k: usize) -> usize {
        self[k]
    }
}

/// The links of a node in the table.
impl Named for &[Link] {
    ghost names = { λ l k. (get_or l.now k blank_link).place };

    ghost reach = { λ l. length l.now };

    fn name_at(&self, k: usize) -> usize {
        self[k].place as usize
    }
}

/// A node as far as its children go: its details and parts, and what its links name.
#[derive(Drop)]
pub(crate) struct Family<'f, N: Named> {
    pub(crate) named: N,
    pub(crate) details: &'f Details,
    pub(crate) parts: &'f Parts,
    ghost reach: { kids parts.now + references parts.now ≤ N.reach named },
    ghost arms: { (j : ℕ) → j < length (referred (N.names named) details.now parts.now) → slice_index (referred (N.names named) details.now parts.now) j < parts.now.arms },
}

impl<N: Named> Family<'_, N> {
    // How many children are walked.
    #[tactic(auto, using(crate::proofs::Found::length_walked))]
    pub(crate) fn child_count(&self) -> usize
        ensures value { result ≡ child_count self.now.details.now self.now.parts.now }
        ensures length { result ≡ length (walked (N.names self.now.named) self.now.details.now self.now.parts.now) }
        ensures bound { result ≤ 2000000 }
    {
        let blocks = self.details.kind.shape().blocks;
        let arms = self.parts.references() + self.details.default_arm().is_some() as usize;
        self.parts.stretch(blocks).count + (arms + arms)
    }

    // The arm that is referred to at a number, the default behind all references.
    fn reference(&self, k: usize) -> usize
        requires { k < arm_count self.now.details.now self.now.parts.now }
        ensures bound { result ≤ 400000 }
        ensures there { result < self.now.parts.now.arms }
        ensures value { result ≡ slice_index (referred (N.names self.now.named) self.now.details.now self.now.parts.now) k }
    {
        let first = self.parts.kids();
        if k < self.parts.references() {
            self.named.name_at(first + k)
        } else {
            self.details.default_arm().unwrap()
        }
    }

    // The child at a number, in walk order.
    pub(crate) fn child(&self, i: usize) -> usize
        requires { i < child_count self.now.details.now self.now.parts.now }
        ensures { (d : ℕ) → result ≡ slice_index_or (walked (N.names self.now.named) self.now.details.now self.now.parts.now) i d }
    {
        let run = self.parts.stretch(self.details.kind.shape().blocks);
        if i < run.count {
            return self.named.name_at(run.from + i);
        }
        let past = i - run.count;
        let arm = self.reference(past / 2);
        self.named.name_at(self.parts.held() + arm + arm + past % 2)
    }
}
