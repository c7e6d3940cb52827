//! The counted children of a node.
ghost use Rattle.std.specs.Prelude.{◌≡◌, ◌+◌, ◌<◌, ◌≤◌, length, slice_index_or};
ghost use Rattle.marks.specs.Asks.{IsKidAt, record_of, state};
ghost use Rattle.marks.specs.Marks.{counted, counted_blocks};
ghost use Rattle.node.specs.Parts.{run_count, run_from};
ghost use Rattle.table.specs.Facts.{kid};
ghost use Rattle.table.specs.State.{condition_of, value_of};

use crate::asks::KnownNode;
use kind::kinds::{Kind, StmtKind};
use kind::shapes::Blocks;
use node::parts::Stretch;

// Which of head, body and branch count: as they are walked, but at a While the head only, and at a TryCatch the head too.
fn counted_blocks(kind: Kind) -> Option<Blocks>
    ensures { result ≡ counted_blocks kind }
{
    match kind {
        Kind::Stmt(StmtKind::While) => None,
        Kind::Stmt(StmtKind::TryCatch) => Some(Blocks::Walked),
        Kind::Stmt(_) | Kind::Expr(_) => kind.shape().blocks,
    }
}

impl KnownNode<'_, '_> {
    // The counted ones of its head, body and branch.
    fn counted_stretch(&self) -> Stretch
        ensures from { result.from ≡ run_from (counted_blocks (record_of self.now).details.kind) (record_of self.now).parts }
        ensures count { result.count ≡ run_count (counted_blocks (record_of self.now).details.kind) (record_of self.now).parts }
        ensures bound { result.from + result.count ≤ 196605 }
    {
        let node = self.record();
        node.parts.stretch(counted_blocks(node.details.kind))
    }

    /// How many of its children count.
    #[tactic(auto, using(crate::proofs::Links::counted_length))]
    pub(crate) fn counted_count(&self) -> usize
        ensures { result ≡ length (counted (state self.now) self.now.n) }
    {
        let node = self.record();
        let defaults = usize::from(node.details.default_arm().is_some());
        self.counted_stretch().count + 2 * node.parts.references() + defaults
    }
}

impl<'t, 'a> KnownNode<'t, 'a> {
    // The condition of an arm.
    fn condition(&self, arm: usize) -> KnownNode<'t, 'a>
        requires { arm < (record_of self.now).parts.arms }
        ensures { IsKidAt self.now (condition_of (kid (state self.now) self.now.n) (record_of self.now).parts arm) result }
    {
        self.kid(self.record().parts.held() + arm + arm)
    }

    // The value of an arm.
    fn value(&self, arm: usize) -> KnownNode<'t, 'a>
        requires { arm < (record_of self.now).parts.arms }
        ensures { IsKidAt self.now (value_of (kid (state self.now) self.now.n) (record_of self.now).parts arm) result }
    {
        self.kid(self.record().parts.held() + arm + arm + 1)
    }

    /// Its child at a number among those that count.
    #[tactic(auto, using(crate::proofs::Links::counted_places))]
    pub(crate) fn counted_child(&self, i: usize) -> KnownNode<'t, 'a>
        requires { i < length (counted (state self.now) self.now.n) }
        ensures { IsKidAt self.now (slice_index_or (counted (state self.now) self.now.n) i self.now.n) result }
    {
        let node = self.record();
        let stretch = self.counted_stretch();
        if i < stretch.count {
            return self.kid(stretch.from + i);
        }
        let past = i - stretch.count;
        if let Some(arm) = node.details.default_arm()
            && past >= 2 * node.parts.references()
        {
            return self.value(arm);
        }
        let arm = self.reference(past / 2);
        if past % 2 == 0 {
            self.condition(arm)
        } else {
            self.value(arm)
        }
    }
}
