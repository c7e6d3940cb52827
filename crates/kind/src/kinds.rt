//! The kinds of statements and expressions, numbered from 0 in the order of the Rust's enums.
ghost use Rattle.std.specs.Prelude.{◌≡◌, ℕ, List, if◌then◌else◌, Some, Ok, Err, nat_lt};
ghost use Rattle.kind.specs.Kinds.{expr_at, expr_name, expr_named, expr_number, is_stmt, kind_name, named, stmt_at, stmt_name, stmt_named, stmt_number};

use std::fmt;

/// A number that no kind of its enum has.
#[derive(Clone, Copy, PartialEq, Eq, Debug)]
pub struct NoKind {
    pub number: u32,
}

/// The kinds of statements.
#[derive(Clone, Copy, PartialEq, Eq, Debug)]
pub enum StmtKind {
    Noop,
    If,
    Switch,
    While,
    Do,
    For,
    Var,
    Assignment,
    FnCall,
    Block,
    TryCatch,
    Expr,
    BreakLoop,
    Return,
    Import,
    Export,
    Share,
}

impl StmtKind {
    /// How many kinds there are.
    pub const COUNT: u32 = 17;

    /// All kinds, in the order of their numbers.
    pub const ALL: [StmtKind; 17] = [
        StmtKind::Noop,
        StmtKind::If,
        StmtKind::Switch,
        StmtKind::While,
        StmtKind::Do,
        StmtKind::For,
        StmtKind::Var,
        StmtKind::Assignment,
        StmtKind::FnCall,
        StmtKind::Block,
        StmtKind::TryCatch,
        StmtKind::Expr,
        StmtKind::BreakLoop,
        StmtKind::Return,
        StmtKind::Import,
        StmtKind::Export,
        StmtKind::Share,
    ];

    /// Its number, counted from 0.
    pub fn number(self) -> u32
        ensures { result ≡ stmt_number self }
    {
        self as u32
    }

    /// Its name.
    pub fn name(self) -> &'static str
        ensures { result.now ≡ stmt_name self }
    {
        match self {
            StmtKind::Noop => "Noop",
            StmtKind::If => "If",
            StmtKind::Switch => "Switch",
            StmtKind::While => "While",
            StmtKind::Do => "Do",
            StmtKind::For => "For",
            StmtKind::Var => "Var",
            StmtKind::Assignment => "Assignment",
            StmtKind::FnCall => "FnCall",
            StmtKind::Block => "Block",
            StmtKind::TryCatch => "TryCatch",
            StmtKind::Expr => "Expr",
            StmtKind::BreakLoop => "BreakLoop",
            StmtKind::Return => "Return",
            StmtKind::Import => "Import",
            StmtKind::Export => "Export",
            StmtKind::Share => "Share",
        }
    }

    /// The kind of a name; none where there is no such kind.
    pub fn from_name(name: &[u8]) -> Option<StmtKind>
        ensures value { result ≡ stmt_named name.now }
        ensures finds { (k : StmtKind) → name.now ≡ stmt_name k → result ≡ Some k }
    {
        find(&StmtKind::ALL, name)
    }
}

/// The kind of a number.
impl TryFrom<u32> for StmtKind {
    type Error = NoKind;

    ghost try_from_gives = { λ number r. r ≡ (if nat_lt number 17 then Ok (stmt_at number) else Err (record { number = number })) };

    fn try_from(number: u32) -> Result<StmtKind, NoKind> {
        let kind = StmtKind::ALL.get(number as usize);
        kind.copied().ok_or(NoKind { number })
    }
}

impl Named for StmtKind {
    ghost label = { stmt_name };

    fn label(self) -> &'static str {
        self.name()
    }
}

impl fmt::Display for StmtKind {
    ghost output = { λ k. Some (stmt_name k) };

    fn fmt<W: fmt::Write>(&self, f: &mut fmt::Formatter<W>) -> fmt::Result {
        f.write_str(self.name())
    }
}

/// The kinds of expressions.
#[derive(Clone, Copy, PartialEq, Eq, Debug)]
pub enum ExprKind {
    DynamicConstant,
    BoolConstant,
    IntegerConstant,
    FloatConstant,
    CharConstant,
    StringConstant,
    InterpolatedString,
    Array,
    Map,
    Unit,
    Variable,
    ThisPtr,
    Property,
    MethodCall,
    Stmt,
    FnCall,
    Dot,
    Index,
    And,
    Or,
    Coalesce,
    Custom,
}

impl ExprKind {
    /// How many kinds there are.
    pub const COUNT: u32 = 22;

    /// All kinds, in the order of their numbers.
    pub const ALL: [ExprKind; 22] = [
        ExprKind::DynamicConstant,
        ExprKind::BoolConstant,
        ExprKind::IntegerConstant,
        ExprKind::FloatConstant,
        ExprKind::CharConstant,
        ExprKind::StringConstant,
        ExprKind::InterpolatedString,
        ExprKind::Array,
        ExprKind::Map,
        ExprKind::Unit,
        ExprKind::Variable,
        ExprKind::ThisPtr,
        ExprKind::Property,
        ExprKind::MethodCall,
        ExprKind::Stmt,
        ExprKind::FnCall,
        ExprKind::Dot,
        ExprKind::Index,
        ExprKind::And,
        ExprKind::Or,
        ExprKind::Coalesce,
        ExprKind::Custom,
    ];

    /// Its number, counted from 0.
    pub fn number(self) -> u32
        ensures { result ≡ expr_number self }
    {
        self as u32
    }

    /// Its name.
    pub fn name(self) -> &'static str
        ensures { result.now ≡ expr_name self }
    {
        match self {
            ExprKind::DynamicConstant => "DynamicConstant",
            ExprKind::BoolConstant => "BoolConstant",
            ExprKind::IntegerConstant => "IntegerConstant",
            ExprKind::FloatConstant => "FloatConstant",
            ExprKind::CharConstant => "CharConstant",
            ExprKind::StringConstant => "StringConstant",
            ExprKind::InterpolatedString => "InterpolatedString",
            ExprKind::Array => "Array",
            ExprKind::Map => "Map",
            ExprKind::Unit => "Unit",
            ExprKind::Variable => "Variable",
            ExprKind::ThisPtr => "ThisPtr",
            ExprKind::Property => "Property",
            ExprKind::MethodCall => "MethodCall",
            ExprKind::Stmt => "Stmt",
            ExprKind::FnCall => "FnCall",
            ExprKind::Dot => "Dot",
            ExprKind::Index => "Index",
            ExprKind::And => "And",
            ExprKind::Or => "Or",
            ExprKind::Coalesce => "Coalesce",
            ExprKind::Custom => "Custom",
        }
    }

    /// The kind of a name; none where there is no such kind.
    pub fn from_name(name: &[u8]) -> Option<ExprKind>
        ensures value { result ≡ expr_named name.now }
        ensures finds { (k : ExprKind) → name.now ≡ expr_name k → result ≡ Some k }
    {
        find(&ExprKind::ALL, name)
    }
}

/// The kind of a number.
impl TryFrom<u32> for ExprKind {
    type Error = NoKind;

    ghost try_from_gives = { λ number r. r ≡ (if nat_lt number 22 then Ok (expr_at number) else Err (record { number = number })) };

    fn try_from(number: u32) -> Result<ExprKind, NoKind> {
        let kind = ExprKind::ALL.get(number as usize);
        kind.copied().ok_or(NoKind { number })
    }
}

impl Named for ExprKind {
    ghost label = { expr_name };

    fn label(self) -> &'static str {
        self.name()
    }
}

impl fmt::Display for ExprKind {
    ghost output = { λ k. Some (expr_name k) };

    fn fmt<W: fmt::Write>(&self, f: &mut fmt::Formatter<W>) -> fmt::Result {
        f.write_str(self.name())
    }
}

/// The kind of a node: that of a statement or that of an expression.
#[derive(Clone, Copy, PartialEq, Eq, Debug)]
pub enum Kind {
    Stmt(StmtKind),
    Expr(ExprKind),
}

impl Kind {
    /// Whether it is the kind of a statement.
    pub fn is_stmt(self) -> bool
        ensures { result ≡ is_stmt self }
    {
        matches!(self, Kind::Stmt(_))
    }

    /// Its name within its enum.
    pub fn name(self) -> &'static str
        ensures { result.now ≡ kind_name self }
    {
        match self {
            Kind::Stmt(kind) => kind.name(),
            Kind::Expr(kind) => kind.name(),
        }
    }
}

impl fmt::Display for Kind {
    ghost output = { λ k. Some (kind_name k) };

    fn fmt<W: fmt::Write>(&self, f: &mut fmt::Formatter<W>) -> fmt::Result {
        f.write_str(self.name())
    }
}

// A kind that is looked for by its name.
trait Named {
    ghost label: { Self → List ℕ };

    fn label(self) -> &'static str
        ensures { result.now ≡ label self };
}

// The first of some kinds that has this name.
fn find<K: Named + Copy>(kinds: &[K], name: &[u8]) -> Option<K>
    ensures { result ≡ named K.label kinds.now name.now }
{
    let kind = kinds.iter().find(|kind| kind.label().as_bytes() == name);
    kind.copied()
}
