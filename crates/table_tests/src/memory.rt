//! Memory to lend to a table, and drafts that every test uses.
use kind::kinds::{Kind, StmtKind};
use makers::parts::Block;
use node::flags::ASTFlags;
use node::positions::{Position, RawPosition, RawSpan};
use node::records::{Details, Ident, Link, Node, Parts, Run};

pub const AT: RawPosition = RawPosition { line: 3, column: 1 };

pub const SPAN: RawSpan = RawSpan { start: AT, end: AT };

/// A list of so many statements.
pub fn list(statements: usize) -> Block {
    Block {
        statements,
        span: SPAN,
    }
}

/// A record for lent memory.
pub fn blank_node() -> Node {
    Node {
        details: Details {
            kind: Kind::Stmt(StmtKind::Noop),
            flags: ASTFlags::NONE,
            position: Position::NONE,
            payload: None,
            first: None,
            second: None,
        },
        parts: Parts {
            start: 0,
            head: 0,
            body: 0,
            branch: 0,
            arms: 0,
            values: 0,
            ranges: 0,
            shared: 0,
        },
        up: None,
        height: 0,
        lines: 0,
    }
}

/// A link for lent memory.
pub fn blank_link() -> Link {
    Link {
        place: 0,
        ident: Ident {
            name: Run { start: 0, len: 0 },
            pos: Position::NONE,
        },
    }
}
