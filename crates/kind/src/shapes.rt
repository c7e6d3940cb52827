//! The table of shapes: what differs from kind to kind, in one place.
ghost use Rattle.kind.specs.Shapes.{expr_shape, flagged, of, shape_of, stmt_shape, unplaced, with_blocks, with_extra, with_names, with_value};
ghost use Rattle.std.specs.Prelude.{◌≡◌};

use crate::kinds::{ExprKind, Kind, StmtKind};

/// How many expressions a kind takes as its head.
#[derive(Clone, Copy, PartialEq, Eq, Debug)]
pub enum Head {
    /// None.
    None,
    /// None or one.
    Optional,
    /// One.
    One,
    /// Two.
    Two,
    /// Any number.
    Any,
    /// At least one.
    Some,
}

/// Which lists of statements a kind takes, and which of its parts are walked. At a kind without one the head is walked.
#[derive(Clone, Copy, PartialEq, Eq, Debug)]
pub enum Blocks {
    /// One list of statements, walked.
    List,
    /// A body and a branch, walked after the head.
    Walked,
    /// A body, walked after the head, and a branch that is held only.
    Held,
    /// A body and a branch, walked, behind a head that is held only.
    Catch,
}

/// What a kind has beside head and blocks.
#[derive(Clone, Copy, PartialEq, Eq, Debug)]
pub enum Extra {
    /// A key for each expression of its head.
    Keys,
    /// Arms, references to them and perhaps a default.
    Arms,
    /// At least one shared name.
    Shared,
}

/// Which constant a kind takes.
#[derive(Clone, Copy, PartialEq, Eq, Debug)]
pub enum Value {
    /// A value of the store.
    Stored,
    /// A Boolean.
    Bool,
    /// An integer.
    Integer,
    /// A floating-point number.
    Float,
    /// A character.
    Char,
    /// A run of the text.
    Text,
}

/// Which names a kind takes.
#[derive(Clone, Copy, PartialEq, Eq, Debug)]
pub enum Names {
    /// A name without a position of its own.
    Plain,
    /// The same, and perhaps the position of a namespace.
    Call,
    /// A name with its position.
    One,
    /// A name with its position, and perhaps a second one.
    Counter,
    /// Two names with their positions.
    Two,
}

/// The shape of a kind: which parts and which data it takes.
#[derive(Clone, Copy, PartialEq, Eq, Debug)]
pub struct Shape {
    pub head: Head,
    pub blocks: Option<Blocks>,
    pub extra: Option<Extra>,
    pub value: Option<Value>,
    pub names: Option<Names>,
    /// Whether it takes a set of flags.
    pub flags: bool,
    /// Whether it takes a position of its own.
    pub position: bool,
}

// Rows of the table, made column by column.
impl Shape {
    // So many expressions and a position, and nothing else.
    fn of(head: Head) -> Shape
        ensures { result ≡ of head }
    {
        Shape {
            head,
            blocks: None,
            extra: None,
            value: None,
            names: None,
            flags: false,
            position: true,
        }
    }

    fn blocks(self, blocks: Blocks) -> Shape
        ensures { result ≡ with_blocks blocks self }
    {
        Shape {
            blocks: Some(blocks),
            ..self
        }
    }

    fn extra(self, extra: Extra) -> Shape
        ensures { result ≡ with_extra extra self }
    {
        Shape {
            extra: Some(extra),
            ..self
        }
    }

    fn value(self, value: Value) -> Shape
        ensures { result ≡ with_value value self }
    {
        Shape {
            value: Some(value),
            ..self
        }
    }

    fn names(self, names: Names) -> Shape
        ensures { result ≡ with_names names self }
    {
        Shape {
            names: Some(names),
            ..self
        }
    }

    fn flagged(self) -> Shape
        ensures { result ≡ flagged self }
    {
        Shape {
            flags: true,
            ..self
        }
    }

    fn unplaced(self) -> Shape
        ensures { result ≡ unplaced self }
    {
        Shape {
            position: false,
            ..self
        }
    }
}

impl StmtKind {
    /// The shape of this kind.
    pub fn shape(self) -> Shape
        ensures { result ≡ stmt_shape self }
    {
        match self {
            StmtKind::Noop => Shape::of(Head::None),
            StmtKind::If => Shape::of(Head::One).blocks(Blocks::Walked),
            StmtKind::Switch => Shape::of(Head::One).extra(Extra::Arms),
            StmtKind::While => Shape::of(Head::One).blocks(Blocks::Held),
            StmtKind::Do => Shape::of(Head::One).blocks(Blocks::Held).flagged(),
            StmtKind::For => Shape::of(Head::One)
                .blocks(Blocks::Held)
                .names(Names::Counter),
            StmtKind::Var => Shape::of(Head::One).names(Names::One).flagged(),
            StmtKind::Assignment => Shape::of(Head::Two),
            StmtKind::FnCall => Shape::of(Head::Any).names(Names::Call),
            StmtKind::Block => Shape::of(Head::None).blocks(Blocks::List).unplaced(),
            StmtKind::TryCatch => Shape::of(Head::One).blocks(Blocks::Catch),
            StmtKind::Expr => Shape::of(Head::One).unplaced(),
            StmtKind::BreakLoop => Shape::of(Head::Optional).flagged(),
            StmtKind::Return => Shape::of(Head::Optional).flagged(),
            StmtKind::Import => Shape::of(Head::One).names(Names::One),
            StmtKind::Export => Shape::of(Head::None).names(Names::Two),
            StmtKind::Share => Shape::of(Head::None).extra(Extra::Shared).unplaced(),
        }
    }
}

impl ExprKind {
    /// The shape of this kind.
    pub fn shape(self) -> Shape
        ensures { result ≡ expr_shape self }
    {
        match self {
            ExprKind::DynamicConstant => Shape::of(Head::None).value(Value::Stored),
            ExprKind::BoolConstant => Shape::of(Head::None).value(Value::Bool),
            ExprKind::IntegerConstant => Shape::of(Head::None).value(Value::Integer),
            ExprKind::FloatConstant => Shape::of(Head::None).value(Value::Float),
            ExprKind::CharConstant => Shape::of(Head::None).value(Value::Char),
            ExprKind::StringConstant => Shape::of(Head::None).value(Value::Text),
            ExprKind::InterpolatedString => Shape::of(Head::Any),
            ExprKind::Array => Shape::of(Head::Any),
            ExprKind::Map => Shape::of(Head::Any).extra(Extra::Keys),
            ExprKind::Unit => Shape::of(Head::None),
            ExprKind::Variable => Shape::of(Head::None).names(Names::Call),
            ExprKind::ThisPtr => Shape::of(Head::None),
            ExprKind::Property => Shape::of(Head::None).names(Names::Plain),
            ExprKind::MethodCall => Shape::of(Head::Any).names(Names::Call),
            ExprKind::Stmt => Shape::of(Head::None).blocks(Blocks::List).unplaced(),
            ExprKind::FnCall => Shape::of(Head::Any).names(Names::Call),
            ExprKind::Dot => Shape::of(Head::Two).flagged(),
            ExprKind::Index => Shape::of(Head::Two).flagged(),
            ExprKind::And => Shape::of(Head::Some),
            ExprKind::Or => Shape::of(Head::Some),
            ExprKind::Coalesce => Shape::of(Head::Some),
            ExprKind::Custom => Shape::of(Head::Any),
        }
    }
}

impl Kind {
    /// The shape of this kind.
    pub fn shape(self) -> Shape
        ensures { result ≡ shape_of self }
    {
        match self {
            Kind::Stmt(kind) => kind.shape(),
            Kind::Expr(kind) => kind.shape(),
        }
    }
}
