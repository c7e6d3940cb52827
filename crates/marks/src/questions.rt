//! What is asked of a node beside its marks.
ghost use Rattle.std.specs.Prelude.{◌≡◌, ℕ, Bool, Option, Result};
ghost use Rattle.marks.specs.Questions.{has_options, options_of, returns_value, table_options, table_returns_value};
ghost use Rattle.marks.specs.Names.{TableNames};
ghost use Rattle.marks.specs.Positions.{TableStands, TableStarts};
ghost use Rattle.node.specs.declared.faults.TableFault.{TableFault};
ghost use Rattle.node.specs.declared.flags.ASTFlags.{ASTFlags};
ghost use Rattle.kind.specs.declared.kinds.Kind.TheVariants.{Stmt};
ghost use Rattle.node.specs.declared.positions.Position.{Position};
ghost use Rattle.node.specs.declared.views.View.{View};

use crate::asks::KnownNode;
use kind::kinds::{ExprKind, Kind, StmtKind};
use node::faults::TableFault;
use node::flags::ASTFlags;
use node::positions::Position;
use node::records::Details;
use node::views::View;
use table::tables::Table;

// Whether a kind has options.
fn has_options(kind: Kind) -> bool
    ensures { result ≡ has_options kind }
{
    matches!(
        kind,
        Kind::Stmt(StmtKind::Do | StmtKind::Var | StmtKind::BreakLoop | StmtKind::Return)
            | Kind::Expr(ExprKind::Dot | ExprKind::Index)
    )
}

// The options of a node; none where its kind has none.
fn options_of(details: &Details) -> ASTFlags
    ensures { result ≡ options_of details.now }
{
    if has_options(details.kind) {
        details.flags
    } else {
        ASTFlags::NONE
    }
}

// Whether a statement of this kind returns a value.
fn returns_value(kind: StmtKind) -> bool
    ensures { result ≡ returns_value (Stmt kind) }
{
    matches!(
        kind,
        StmtKind::If | StmtKind::Switch | StmtKind::Block | StmtKind::Expr | StmtKind::FnCall
    )
}

/// What is asked of a node.
pub trait Questions {
    ghost optional: { Self → ℕ → Result ASTFlags TableFault };

    ghost valued: { Self → ℕ → Result Bool TableFault };

    ghost stands: { Self → ℕ → Result Position TableFault → Type 0 };

    ghost starts: { Self → ℕ → Result Position TableFault → Type 0 };

    ghost names: { Self → ℕ → Bool → Result (Option View) TableFault → Type 0 };

    /// The options of a node, none where its kind has none. Fault 2 at an unknown place.
    fn options(&self, n: usize) -> Result<ASTFlags, TableFault>
        ensures { result ≡ optional self.now n };

    /// Whether a statement returns a value. Fault 2 at an unknown place, fault 5 at an expression.
    fn returns_value(&self, n: usize) -> Result<bool, TableFault>
        ensures { result ≡ valued self.now n };

    /// The position of a node. Fault 2 at an unknown place.
    fn position(&self, n: usize) -> Result<Position, TableFault>
        ensures { stands self.now n result };

    /// Where an expression starts: at its left-most expression. Fault 2 at an unknown place, fault 5 at a statement.
    fn start_position(&self, n: usize) -> Result<Position, TableFault>
        ensures { starts self.now n result };

    /// The name of a variable, as a view of the text; none at any other expression, and at a qualified variable
    /// where only unqualified ones are asked for. Fault 2 at an unknown place, fault 5 at a statement, fault 4
    /// where the name ends beyond the text.
    fn get_variable_name(
        &self,
        n: usize,
        non_qualified: bool,
    ) -> Result<Option<View<'_>>, TableFault>
        ensures { names self.now n non_qualified result };
}

impl<'a> Questions for Table<'a> {
    ghost optional = { table_options };

    ghost valued = { table_returns_value };

    ghost stands = { TableStands };

    ghost starts = { TableStarts };

    ghost names = { TableNames };

    fn options(&self, n: usize) -> Result<ASTFlags, TableFault> {
        Ok(options_of(&self.node(n)?.details))
    }

    fn returns_value(&self, n: usize) -> Result<bool, TableFault> {
        match self.node(n)?.details.kind {
            Kind::Stmt(kind) => Ok(returns_value(kind)),
            Kind::Expr(_) => Err(TableFault::Misfit(n)),
        }
    }

    fn position(&self, n: usize) -> Result<Position, TableFault> {
        Ok(KnownNode::new(self, n)?.position())
    }

    fn start_position(&self, n: usize) -> Result<Position, TableFault> {
        Ok(KnownNode::expr(self, n)?.start())
    }

    fn get_variable_name(
        &self,
        n: usize,
        non_qualified: bool,
    ) -> Result<Option<View<'_>>, TableFault> {
        KnownNode::expr(self, n)?.variable_name(non_qualified)
    }
}
