//! Whether a node is pure. Statements ask expressions and expressions ask statements, each node at most once.
ghost use Rattle.marks.specs.Asks.{record_of, state};
ghost use Rattle.marks.specs.Marks.{IsPure, harmless};
ghost use Rattle.marks.specs.Runs.{AllPure};
ghost use Rattle.kind.specs.declared.kinds.Kind.TheVariants.{Expr, Stmt};
ghost use Rattle.std.specs.Prelude.{◌≡◌, true, Decides};

use crate::asks::KnownNode;
use crate::harmless::expr_is_harmless;
use kind::kinds::{ExprKind, Kind, StmtKind};
use table::seen::Seen;

impl KnownNode<'_, '_> {
    /// Whether it is pure.
    #[cycle(purity)]
    pub(crate) fn is_pure(&self, found: &mut Seen) -> bool
        requires { AllPure (state self.now) found.old }
        ensures mark { Decides result (IsPure (state self.now) self.now.n) }
        ensures found { AllPure (state self.now) found.new }
    {
        match self.record().details.kind {
            Kind::Stmt(kind) => self.stmt_is_pure(kind, found),
            Kind::Expr(kind) => self.expr_is_pure(kind, found),
        }
    }

    // Whether a statement of this kind is pure.
    #[cycle(purity)]
    #[tactic(auto, using(crate::proofs::Lines::pure_here))]
    fn stmt_is_pure(&self, kind: StmtKind, found: &mut Seen) -> bool
        requires kind { (record_of self.now).details.kind ≡ Stmt kind }
        requires found { AllPure (state self.now) found.old }
        ensures mark { Decides result (IsPure (state self.now) self.now.n) }
        ensures found { AllPure (state self.now) found.new }
    {
        self.stmt_is_harmless(kind) && self.harmless_is_pure(found)
    }

    // Whether an expression of this kind is pure.
    #[cycle(purity)]
    #[tactic(auto, using(crate::proofs::Lines::pure_here))]
    fn expr_is_pure(&self, kind: ExprKind, found: &mut Seen) -> bool
        requires kind { (record_of self.now).details.kind ≡ Expr kind }
        requires found { AllPure (state self.now) found.old }
        ensures mark { Decides result (IsPure (state self.now) self.now.n) }
        ensures found { AllPure (state self.now) found.new }
    {
        expr_is_harmless(kind) && self.harmless_is_pure(found)
    }

    // Whether a node that does nothing by itself is pure: whether its counted children are. It is asked once, then marked.
    #[cycle(purity)]
    #[tactic(auto, using(crate::proofs::Lines::pure_from, crate::proofs::Lines::pure_not_below))]
    fn harmless_is_pure(&self, found: &mut Seen) -> bool
        requires harmless { harmless (state self.now) self.now.n ≡ true }
        requires found { AllPure (state self.now) found.old }
        ensures mark { Decides result (IsPure (state self.now) self.now.n) }
        ensures found { AllPure (state self.now) found.new }
    {
        if found.has(self.n) {
            return true;
        }
        for i in 0..self.counted_count() {
            if !self.counted_child(i).is_pure(found) {
                return false;
            }
        }
        found.mark(self.n);
        true
    }
}
