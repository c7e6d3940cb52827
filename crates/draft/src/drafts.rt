//! What a put is handed: plain numbers throughout, so that each out of range is a refusal.
ghost use Rattle.draft.specs.Drafts.{constant_in_range, constant_within, flags_in_range, ident_in_range, ident_within, in_range, kind_in_range, numbered, plain, run_within, runs_within};
ghost use Rattle.node.specs.Positions.{if_given};
ghost use Rattle.std.specs.List.{list_all};
ghost use Rattle.std.specs.Prelude.{◌≡◌, ℕ, Bool};

use kind::kinds::{ExprKind, Kind, StmtKind};
use node::positions::{Ranged, RawPosition, RawSpan};

/// A kind by its number within its enum.
#[derive(Clone, Copy)]
pub enum RawKind {
    Stmt(u32),
    Expr(u32),
}

/// A set of flags by its number.
#[derive(Clone, Copy)]
pub struct RawFlags {
    pub bits: u32,
}

/// A run of the text by its start and length.
#[derive(Clone, Copy)]
pub struct RawRun {
    pub start: usize,
    pub len: usize,
}

/// A name by its run, and its position where it has one.
#[derive(Clone, Copy)]
pub struct RawIdent {
    pub name: RawRun,
    pub pos: Option<RawPosition>,
}

/// A constant by its content, or a stored value by its place.
#[derive(Clone, Copy)]
pub enum RawConstant {
    Stored(usize),
    Bool(u32),
    Integer(i64),
    Float(f64),
    Char(u32),
    Text(RawRun),
}

/// A node to be put, but for its children and the names in its links.
#[derive(Clone, Copy)]
pub struct Draft {
    pub kind: RawKind,
    pub flags: Option<RawFlags>,
    pub position: Option<RawPosition>,
    pub constant: Option<RawConstant>,
    pub body_span: Option<RawSpan>,
    pub branch_span: Option<RawSpan>,
    pub first: Option<RawIdent>,
    pub second: Option<RawIdent>,
    pub namespace: Option<RawPosition>,
    pub default: Option<usize>,
    pub head: usize,
    pub body: usize,
    pub branch: usize,
    pub arms: usize,
    pub values: usize,
    pub ranges: usize,
}

/// The number of a kind within its enum.
impl From<Kind> for RawKind {
    ghost from_gives = { λ kind r. r ≡ numbered kind };

    fn from(kind: Kind) -> RawKind {
        match kind {
            Kind::Stmt(kind) => RawKind::Stmt(kind.number()),
            Kind::Expr(kind) => RawKind::Expr(kind.number()),
        }
    }
}

/// A name without a position.
impl From<RawRun> for RawIdent {
    ghost from_gives = { λ name r. r ≡ plain name };

    fn from(name: RawRun) -> RawIdent {
        RawIdent { name, pos: None }
    }
}

/// There is a kind of this number.
impl Ranged for RawKind {
    ghost ranged = { kind_in_range };

    fn in_range(self) -> bool {
        match self {
            RawKind::Stmt(number) => number < StmtKind::COUNT,
            RawKind::Expr(number) => number < ExprKind::COUNT,
        }
    }
}

/// A set of flags is 0 to 15.
impl Ranged for RawFlags {
    ghost ranged = { flags_in_range };

    fn in_range(self) -> bool {
        self.bits <= 15
    }
}

/// A Boolean is 0 or 1, a character a Unicode scalar value.
impl Ranged for RawConstant {
    ghost ranged = { constant_in_range };

    fn in_range(self) -> bool {
        match self {
            RawConstant::Bool(b) => b <= 1,
            RawConstant::Char(c) => c < 0xD800 || (0xE000 <= c && c <= 0x10_FFFF),
            RawConstant::Stored(_)
            | RawConstant::Integer(_)
            | RawConstant::Float(_)
            | RawConstant::Text(_) => true,
        }
    }
}

/// Its position, if it has one, is in range.
impl Ranged for RawIdent {
    ghost ranged = { ident_in_range };

    fn in_range(self) -> bool {
        self.pos.in_range()
    }
}

/// What may lie in the text, and may end beyond it.
pub trait Lying {
    ghost lies: { ℕ → Self → Bool };

    /// Whether it ends within a text of this length.
    fn within(self, text: usize) -> bool
        ensures { result ≡ lies text self };
}

impl Lying for RawRun {
    ghost lies = { run_within };

    fn within(self, text: usize) -> bool {
        self.start <= text && self.len <= text - self.start
    }
}

impl Lying for RawIdent {
    ghost lies = { ident_within };

    fn within(self, text: usize) -> bool {
        self.name.within(text)
    }
}

/// A constant that is no text lies nowhere, and so within.
impl Lying for RawConstant {
    ghost lies = { constant_within };

    fn within(self, text: usize) -> bool {
        match self {
            RawConstant::Text(run) => run.within(text),
            RawConstant::Stored(_)
            | RawConstant::Bool(_)
            | RawConstant::Integer(_)
            | RawConstant::Float(_)
            | RawConstant::Char(_) => true,
        }
    }
}

/// What is not given lies nowhere, and so within.
impl<L: Lying> Lying for Option<L> {
    ghost lies = { λ text. if_given (L.lies text) };

    fn within(self, text: usize) -> bool {
        match self {
            Some(raw) => raw.within(text),
            None => true,
        }
    }
}

/// Every element ends within the text.
impl<'a, L: Lying + Copy> Lying for &'a [L] {
    ghost lies = { λ text raws. list_all (L.lies text) raws.now };

    fn within(self, text: usize) -> bool {
        self.iter().all(|raw| raw.within(text))
    }
}

impl Draft {
    /// Whether its kind, flags, constant and positions are in range.
    pub fn in_range(&self) -> bool
        ensures { result ≡ in_range self.now }
    {
        self.kind.in_range()
            & self.flags.in_range()
            & self.position.in_range()
            & self.constant.in_range()
            & self.body_span.in_range()
            & self.branch_span.in_range()
            & self.first.in_range()
            & self.second.in_range()
            & self.namespace.in_range()
    }

    /// Whether its runs end within a text of this length.
    pub fn within(&self, text: usize) -> bool
        ensures { result ≡ runs_within text self.now }
    {
        self.constant.within(text) & self.first.within(text) & self.second.within(text)
    }
}
