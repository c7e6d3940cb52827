//! What a table keeps of a node, and of what it holds.
use crate::flags::ASTFlags;
use crate::positions::{Position, Span};
use kind::kinds::Kind;

/// A run of a table's text.
#[derive(Clone, Copy, PartialEq, Debug)]
pub struct Run {
    pub start: u16,
    pub len: u16,
}

/// A name, with its position where it has one.
#[derive(Clone, Copy, PartialEq, Debug)]
pub struct Ident {
    pub name: Run,
    pub pos: Position,
}

/// A constant: a value of the store by its place, or the content itself.
#[derive(Clone, Copy, PartialEq, Debug)]
pub enum Constant {
    Stored(u16),
    Bool(bool),
    Integer(i64),
    Float(f64),
    Char(char),
    Text(Run),
}

/// What only some kinds have: a constant, or the spans of blocks.
#[derive(Clone, Copy, PartialEq, Debug)]
pub enum Payload {
    Constant(Constant),
    Spans(Span, Span),
}

/// What only some kinds have behind a first name.
#[derive(Clone, Copy, PartialEq, Debug)]
pub enum Second {
    Name(Ident),
    Namespace(Position),
    Default(u16),
}

/// What a node is, beside its parts.
#[derive(Clone, Copy, PartialEq, Debug)]
pub struct Details {
    pub kind: Kind,
    pub flags: ASTFlags,
    pub position: Position,
    pub payload: Option<Payload>,
    pub first: Option<Ident>,
    pub second: Option<Second>,
}

/// Where a node's run of links begins, and how many of it belong to each part, in this order:
/// head, body, branch, arms (two links each), value references, range references, shared names.
#[derive(Clone, Copy, PartialEq, Debug)]
pub struct Parts {
    pub start: u16,
    pub head: u16,
    pub body: u16,
    pub branch: u16,
    pub arms: u16,
    pub values: u16,
    pub ranges: u16,
    pub shared: u16,
}

/// What a node stands under.
#[derive(Clone, Copy, PartialEq, Debug)]
pub enum Up {
    Node(u16),
    Script,
}

/// A node's record.
#[derive(Clone, Copy, PartialEq, Debug)]
pub struct Node {
    pub details: Details,
    pub parts: Parts,
    pub up: Option<Up>,
    pub height: u16,
    pub lines: u16,
}

/// A link: the place of a child or the number of an arm, with the key or the shared name that belongs to it.
#[derive(Clone, Copy, PartialEq, Debug)]
pub struct Link {
    pub place: u16,
    pub ident: Ident,
}
