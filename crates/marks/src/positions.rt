//! Where a node stands in the script, and where it starts.
ghost use Rattle.std.specs.Prelude.{◌≡◌, false};
ghost use Rattle.marks.specs.Asks.{record_of, state};
ghost use Rattle.marks.specs.Positions.{Stands, Starts, at_namespace, block_start, goes_left, has_left, is_block, one_expression, own_position, own_start, shares};

use crate::asks::KnownNode;
use kind::kinds::{ExprKind, Kind, StmtKind};
use node::positions::Position;
use node::records::{Node, Payload, Second};

// Where the first block begins.
fn block_start(payload: Option<Payload>) -> Position
    ensures { result ≡ block_start payload }
{
    match payload {
        Some(Payload::Spans(body, _)) => body.start(),
        Some(Payload::Constant(_)) | None => Position::NONE,
    }
}

fn is_block(kind: Kind) -> bool
    ensures { result ≡ is_block kind }
{
    matches!(
        kind,
        Kind::Stmt(StmtKind::Block) | Kind::Expr(ExprKind::Stmt)
    )
}

fn shares(node: &Node) -> bool
    ensures { result ≡ shares node.now }
{
    node.details.kind == Kind::Stmt(StmtKind::Share) && node.parts.shared > 0
}

fn goes_left(kind: Kind) -> bool
    ensures { result ≡ goes_left kind }
{
    matches!(
        kind,
        Kind::Expr(
            ExprKind::And | ExprKind::Or | ExprKind::Coalesce | ExprKind::Index | ExprKind::Dot
        )
    )
}

// Whether a node starts where its first expression starts.
fn has_left(node: &Node) -> bool
    ensures { result ≡ has_left node.now }
{
    goes_left(node.details.kind) && node.parts.head > 0
}

fn at_namespace(second: Option<Second>, position: Position) -> Position
    ensures { result ≡ at_namespace second position }
{
    match second {
        Some(Second::Namespace(namespace)) => namespace,
        Some(Second::Name(_) | Second::Default(_)) | None => position,
    }
}

fn one_expression(node: &Node) -> bool
    ensures { result ≡ one_expression node.now }
{
    node.details.kind == Kind::Stmt(StmtKind::Expr) && node.parts.head > 0
}

impl<'t, 'a> KnownNode<'t, 'a> {
    // The position of a node that is no statement Expr.
    fn own_position(&self) -> Position
        ensures { result ≡ own_position (state self.now) self.now.n }
    {
        let node = self.record();
        if is_block(node.details.kind) {
            block_start(node.details.payload)
        } else if shares(&node) {
            self.ident(node.parts.kids() + node.parts.references()).pos
        } else {
            node.details.position
        }
    }

    // Where a node starts that starts with nothing else.
    fn own_start(&self) -> Position
        ensures { result ≡ own_start (state self.now) self.now.n }
    {
        let details = self.record().details;
        if details.kind == Kind::Expr(ExprKind::Variable) {
            at_namespace(details.second, self.own_position())
        } else {
            self.own_position()
        }
    }

    // Its left-most expression.
    fn left_most(&self) -> KnownNode<'t, 'a>
        ensures table { result.table.now ≡ self.now.table.now }
        ensures ends { has_left (record_of result) ≡ false }
        ensures starts { (p : Position) → Starts (state result) result.n p → Starts (state self.now) self.now.n p }
    {
        let mut at = *self;
        while has_left(&at.record()) {
            at = at.kid(0);
        }
        at
    }

    /// Where it starts: at its left-most expression.
    pub(crate) fn start(&self) -> Position
        ensures { Starts (state self.now) self.now.n result }
    {
        self.left_most().own_start()
    }

    /// Where it stands.
    pub(crate) fn position(&self) -> Position
        ensures { Stands (state self.now) self.now.n result }
    {
        if one_expression(&self.record()) {
            let expression = self.kid(0);
            expression.start()
        } else {
            self.own_position()
        }
    }
}
