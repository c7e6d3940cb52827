//! How a node's run of links is parted: how many belong to what, and where each part begins.
ghost use Rattle.node.specs.Parts.{default_arm, held, kids, links, references, run_count, run_from};
ghost use Rattle.std.specs.Prelude.{◌≡◌, ◌+◌, ◌≤◌};

use crate::records::{Details, Parts, Second};
use kind::shapes::Blocks;

/// The walked ones of head, body and branch, which lie side by side: from one link on, so many.
#[derive(Clone, Copy, PartialEq, Eq, Debug)]
pub struct Stretch {
    pub from: usize,
    pub count: usize,
}

impl Parts {
    /// How many children head, body and branch hold; behind them the arms begin.
    pub fn held(&self) -> usize
        ensures value { result ≡ held self.now }
        ensures bound { result ≤ 196605 }
    {
        self.head as usize + self.body as usize + self.branch as usize
    }

    /// How many children there are: each arm holds two.
    pub fn kids(&self) -> usize
        ensures value { result ≡ kids self.now }
        ensures bound { result ≤ 327675 }
    {
        self.held() + self.arms as usize + self.arms as usize
    }

    /// How many references to arms there are.
    pub fn references(&self) -> usize
        ensures value { result ≡ references self.now }
        ensures bound { result ≤ 131070 }
    {
        self.values as usize + self.ranges as usize
    }

    /// How many links there are.
    pub fn links(&self) -> usize
        ensures value { result ≡ links self.now }
        ensures bound { result ≤ 524280 }
    {
        self.kids() + self.references() + self.shared as usize
    }

    /// Which of head, body and branch a kind with these lists has walked.
    pub fn stretch(&self, blocks: Option<Blocks>) -> Stretch
        ensures from { result.from ≡ run_from blocks self.now }
        ensures count { result.count ≡ run_count blocks self.now }
        ensures bound { result.from + result.count ≤ 196605 }
    {
        let head = self.head as usize;
        let body = self.body as usize;
        let branch = self.branch as usize;
        let (from, count) = match blocks {
            None => (0, head),
            Some(Blocks::List) => (head, body),
            Some(Blocks::Walked) => (0, head + body + branch),
            Some(Blocks::Held) => (0, head + body),
            Some(Blocks::Catch) => (head, body + branch),
        };
        Stretch { from, count }
    }
}

impl Details {
    /// The arm that a switch falls back to, where it has a default.
    pub fn default_arm(&self) -> Option<usize>
        ensures { result ≡ default_arm self.now.second }
    {
        match self.second {
            Some(Second::Default(arm)) => Some(usize::from(arm)),
            Some(Second::Name(_) | Second::Namespace(_)) | None => None,
        }
    }
}
