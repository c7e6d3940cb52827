//! Makers of statements.
ghost use Rattle.std.specs.Prelude.{◌≡◌, ℕ, ◌<◌, true, if◌then◌else◌, Some, nat_lt};
ghost use Rattle.node.specs.Positions.{if_given};
ghost use Rattle.makers.specs.Makers.{Armed, Blocked, Called, FitsStmt, Listed, PlacedAt, placed};
ghost use Rattle.std.specs.Option.{option_map};

use crate::bases::{base, called, with_blocks};
use crate::parts::{Arms, Block, Placed, Qualified};
use draft::drafts::{Draft, RawFlags, RawIdent};
use kind::kinds::{Kind, StmtKind};
use node::positions::RawPosition;

/// Nothing.
pub fn noop(position: RawPosition) -> Draft
    ensures fits { FitsStmt StmtKind.Noop 0 result }
    ensures holds { PlacedAt position result }
{
    base(Kind::Stmt(StmtKind::Noop), Some(position), 0)
}

/// `if`: over its condition, a body and a branch.
pub fn if_(body: Block, branch: Block, position: RawPosition) -> Draft
    ensures fits { FitsStmt StmtKind.If 0 result }
    ensures holds { Blocked body branch result × PlacedAt position result }
{
    with_blocks(Kind::Stmt(StmtKind::If), body, branch, position)
}

/// `while` and `loop`: over the condition, a body and a branch.
pub fn while_(body: Block, branch: Block, position: RawPosition) -> Draft
    ensures fits { FitsStmt StmtKind.While 0 result }
    ensures holds { Blocked body branch result × PlacedAt position result }
{
    with_blocks(Kind::Stmt(StmtKind::While), body, branch, position)
}

/// `try` and `catch`: over the catch expression, a body and a branch.
pub fn try_catch(body: Block, branch: Block, position: RawPosition) -> Draft
    ensures fits { FitsStmt StmtKind.TryCatch 0 result }
    ensures holds { Blocked body branch result × PlacedAt position result }
{
    with_blocks(Kind::Stmt(StmtKind::TryCatch), body, branch, position)
}

/// `do`: over the condition, a body and a branch.
pub fn do_(flags: RawFlags, body: Block, branch: Block, position: RawPosition) -> Draft
    ensures fits { FitsStmt StmtKind.Do 0 result }
    ensures holds { (result.flags ≡ Some flags) × Blocked body branch result × PlacedAt position result }
{
    Draft {
        flags: Some(flags),
        ..with_blocks(Kind::Stmt(StmtKind::Do), body, branch, position)
    }
}

/// `for`: over what is iterated, a body and a branch, with the variable and perhaps a counter.
pub fn for_(
    name: Placed,
    counter: Option<Placed>,
    body: Block,
    branch: Block,
    position: RawPosition,
) -> Draft
    ensures fits { FitsStmt StmtKind.For 0 result }
    ensures holds { (result.first ≡ Some (placed name)) × (result.second ≡ option_map placed counter) × Blocked body branch result × PlacedAt position result }
{
    Draft {
        first: Some(RawIdent::from(name)),
        second: counter.map(RawIdent::from),
        ..with_blocks(Kind::Stmt(StmtKind::For), body, branch, position)
    }
}

/// `switch`: over its subject and the condition and value of each arm.
pub fn switch(arms: Arms, position: RawPosition) -> Draft
    ensures fits { if_given (λ a. nat_lt a arms.arms) arms.default ≡ true → FitsStmt StmtKind.Switch 0 result }
    ensures holds { Armed arms result × PlacedAt position result }
{
    Draft {
        arms: arms.arms,
        values: arms.values,
        ranges: arms.ranges,
        default: arms.default,
        ..base(Kind::Stmt(StmtKind::Switch), Some(position), 1)
    }
}

/// `let` and `const`: over the value.
pub fn var(name: Placed, flags: RawFlags, position: RawPosition) -> Draft
    ensures fits { FitsStmt StmtKind.Var 0 result }
    ensures holds { (result.first ≡ Some (placed name)) × (result.flags ≡ Some flags) × PlacedAt position result }
{
    Draft {
        first: Some(RawIdent::from(name)),
        flags: Some(flags),
        ..base(Kind::Stmt(StmtKind::Var), Some(position), 1)
    }
}

/// An assignment: over left and right, at its operator's position.
pub fn assignment(position: RawPosition) -> Draft
    ensures fits { FitsStmt StmtKind.Assignment 0 result }
    ensures holds { PlacedAt position result }
{
    base(Kind::Stmt(StmtKind::Assignment), Some(position), 2)
}

/// A call: over its arguments.
pub fn call(name: Qualified, arguments: usize, position: RawPosition) -> Draft
    ensures fits { FitsStmt StmtKind.FnCall 0 result }
    ensures holds { Called name arguments result × PlacedAt position result }
{
    called(Kind::Stmt(StmtKind::FnCall), name, arguments, position)
}

/// A block: over its statements.
pub fn block(list: Block) -> Draft
    ensures fits { FitsStmt StmtKind.Block 0 result }
    ensures holds { Listed list result }
{
    Draft {
        body: list.statements,
        body_span: Some(list.span),
        ..base(Kind::Stmt(StmtKind::Block), None, 0)
    }
}

/// A statement over one expression.
pub fn expr() -> Draft
    ensures { FitsStmt StmtKind.Expr 0 result }
{
    base(Kind::Stmt(StmtKind::Expr), None, 1)
}

/// `continue` and `break`: over a value where there is one.
pub fn break_loop(value: bool, flags: RawFlags, position: RawPosition) -> Draft
    ensures fits { FitsStmt StmtKind.BreakLoop 0 result }
    ensures holds { (result.head ≡ (if value then 1 else 0)) × (result.flags ≡ Some flags) × PlacedAt position result }
{
    Draft {
        flags: Some(flags),
        ..base(
            Kind::Stmt(StmtKind::BreakLoop),
            Some(position),
            usize::from(value),
        )
    }
}

/// `return` and `throw`: over a value where there is one.
pub fn return_(value: bool, flags: RawFlags, position: RawPosition) -> Draft
    ensures fits { FitsStmt StmtKind.Return 0 result }
    ensures holds { (result.head ≡ (if value then 1 else 0)) × (result.flags ≡ Some flags) × PlacedAt position result }
{
    Draft {
        flags: Some(flags),
        ..base(
            Kind::Stmt(StmtKind::Return),
            Some(position),
            usize::from(value),
        )
    }
}

/// `import`: over what is imported, under a name.
pub fn import(name: Placed, position: RawPosition) -> Draft
    ensures fits { FitsStmt StmtKind.Import 0 result }
    ensures holds { (result.first ≡ Some (placed name)) × PlacedAt position result }
{
    Draft {
        first: Some(RawIdent::from(name)),
        ..base(Kind::Stmt(StmtKind::Import), Some(position), 1)
    }
}

/// `export` of a name under another.
pub fn export(name: Placed, alias: Placed, position: RawPosition) -> Draft
    ensures fits { FitsStmt StmtKind.Export 0 result }
    ensures holds { (result.first ≡ Some (placed name)) × (result.second ≡ Some (placed alias)) × PlacedAt position result }
{
    Draft {
        first: Some(RawIdent::from(name)),
        second: Some(RawIdent::from(alias)),
        ..base(Kind::Stmt(StmtKind::Export), Some(position), 0)
    }
}

/// Variables made shared: their names are handed in for the links, at least one.
pub fn share() -> Draft
    ensures { (names : ℕ) → 0 < names → FitsStmt StmtKind.Share names result }
{
    base(Kind::Stmt(StmtKind::Share), None, 0)
}
