//! Whether an expression is constant.
ghost use Rattle.marks.specs.Asks.{state};
ghost use Rattle.marks.specs.Marks.{IsConstant, plain_kind};
ghost use Rattle.std.specs.Prelude.{◌≡◌, Decides};

use crate::asks::KnownNode;
use kind::kinds::{ExprKind, Kind};

// Whether a kind is constant or a list.
fn is_plain(kind: Kind) -> bool
    ensures { result ≡ plain_kind kind }
{
    matches!(
        kind,
        Kind::Expr(
            ExprKind::DynamicConstant
                | ExprKind::BoolConstant
                | ExprKind::IntegerConstant
                | ExprKind::FloatConstant
                | ExprKind::CharConstant
                | ExprKind::StringConstant
                | ExprKind::InterpolatedString
                | ExprKind::Array
                | ExprKind::Map
                | ExprKind::Unit
        )
    )
}

impl KnownNode<'_, '_> {
    /// Whether it is constant: it is of such a kind, and so are all below it.
    #[tactic(auto, using(crate::proofs::Lines::constant_from, crate::proofs::Lines::constant_not_here, crate::proofs::Lines::constant_not_below))]
    pub(crate) fn is_constant(&self) -> bool
        ensures { Decides result (IsConstant (state self.now) self.now.n) }
    {
        if !is_plain(self.record().details.kind) {
            return false;
        }
        for i in 0..self.child_count() {
            if !self.child(i).is_constant() {
                return false;
            }
        }
        true
    }
}
