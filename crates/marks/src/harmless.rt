//! Which nodes do nothing by themselves.
ghost use Rattle.marks.specs.Asks.{state};
ghost use Rattle.marks.specs.Marks.{bool_constant, condition_is, expr_harmless, stmt_harmless};
ghost use Rattle.std.specs.Prelude.{◌≡◌};

use crate::asks::KnownNode;
use kind::kinds::{ExprKind, Kind, StmtKind};
use node::records::{Constant, Details, Payload};

// Whether a node is the Boolean constant of this value.
fn is_bool_constant(details: &Details, value: bool) -> bool
    ensures { result ≡ bool_constant value details.now }
{
    details.kind == Kind::Expr(ExprKind::BoolConstant)
        && details.payload == Some(Payload::Constant(Constant::Bool(value)))
}

impl KnownNode<'_, '_> {
    // Whether its condition is the Boolean constant of this value.
    fn condition_is(&self, value: bool) -> bool
        ensures { result ≡ condition_is (state self.now) self.now.n value }
    {
        self.record().parts.head > 0 && is_bool_constant(&self.kid(0).record().details, value)
    }

    /// Whether a statement of this kind does nothing by itself.
    pub(crate) fn stmt_is_harmless(&self, kind: StmtKind) -> bool
        ensures { result ≡ stmt_harmless (state self.now) self.now.n kind }
    {
        match kind {
            StmtKind::Noop
            | StmtKind::Expr
            | StmtKind::If
            | StmtKind::For
            | StmtKind::Block
            | StmtKind::TryCatch => true,
            StmtKind::Switch => self.record().details.default_arm().is_some(),
            // A loop that ends at once does nothing, and any other may never end.
            StmtKind::While => self.condition_is(false),
            StmtKind::Do => self.condition_is(self.record().details.flags.is_negated()),
            StmtKind::Var
            | StmtKind::Assignment
            | StmtKind::FnCall
            | StmtKind::BreakLoop
            | StmtKind::Return
            | StmtKind::Import
            | StmtKind::Export
            | StmtKind::Share => false,
        }
    }
}

/// Whether an expression of this kind does nothing by itself.
pub(crate) fn expr_is_harmless(kind: ExprKind) -> bool
    ensures { result ≡ expr_harmless kind }
{
    match kind {
        ExprKind::And | ExprKind::Or | ExprKind::Coalesce | ExprKind::Stmt => true,
        ExprKind::DynamicConstant
        | ExprKind::BoolConstant
        | ExprKind::IntegerConstant
        | ExprKind::FloatConstant
        | ExprKind::CharConstant
        | ExprKind::StringConstant
        | ExprKind::InterpolatedString
        | ExprKind::Array
        | ExprKind::Map
        | ExprKind::Unit => true,
        ExprKind::Variable
        | ExprKind::ThisPtr
        | ExprKind::Property
        | ExprKind::MethodCall
        | ExprKind::FnCall
        | ExprKind::Dot
        | ExprKind::Index
        | ExprKind::Custom => false,
    }
}
