//! Makers of expressions.
ghost use Rattle.std.specs.Prelude.{◌≡◌, ◌<◌, if◌then◌else◌, Some};
ghost use Rattle.draft.specs.Drafts.{plain};
ghost use Rattle.makers.specs.Makers.{Called, FitsExpr, Listed, PlacedAt, constant_kind};

use crate::bases::{base, called};
use crate::parts::{Block, Qualified};
use draft::drafts::{Draft, RawConstant, RawFlags, RawIdent, RawRun};
use kind::kinds::{ExprKind, Kind};
use node::positions::RawPosition;

// The kind of a constant.
fn constant_kind(value: RawConstant) -> ExprKind
    ensures { result ≡ constant_kind value }
{
    match value {
        RawConstant::Stored(_) => ExprKind::DynamicConstant,
        RawConstant::Bool(_) => ExprKind::BoolConstant,
        RawConstant::Integer(_) => ExprKind::IntegerConstant,
        RawConstant::Float(_) => ExprKind::FloatConstant,
        RawConstant::Char(_) => ExprKind::CharConstant,
        RawConstant::Text(_) => ExprKind::StringConstant,
    }
}

/// A constant, of the kind that its content has.
pub fn constant(value: RawConstant, position: RawPosition) -> Draft
    ensures fits { FitsExpr (constant_kind value) 0 result }
    ensures holds { (result.constant ≡ Some value) × PlacedAt position result }
{
    Draft {
        constant: Some(value),
        ..base(Kind::Expr(constant_kind(value)), Some(position), 0)
    }
}

/// A value of the store.
pub fn dynamic_constant(place: usize, position: RawPosition) -> Draft
    ensures fits { FitsExpr ExprKind.DynamicConstant 0 result }
    ensures holds { (result.constant ≡ Some (RawConstant.Stored place)) × PlacedAt position result }
{
    constant(RawConstant::Stored(place), position)
}

/// A Boolean.
pub fn bool_constant(value: bool, position: RawPosition) -> Draft
    ensures fits { FitsExpr ExprKind.BoolConstant 0 result }
    ensures holds { (result.constant ≡ Some (RawConstant.Bool (if value then 1 else 0))) × PlacedAt position result }
{
    constant(RawConstant::Bool(u32::from(value)), position)
}

/// An integer.
pub fn integer_constant(value: i64, position: RawPosition) -> Draft
    ensures fits { FitsExpr ExprKind.IntegerConstant 0 result }
    ensures holds { (result.constant ≡ Some (RawConstant.Integer value)) × PlacedAt position result }
{
    constant(RawConstant::Integer(value), position)
}

/// A floating-point number.
pub fn float_constant(value: f64, position: RawPosition) -> Draft
    ensures fits { FitsExpr ExprKind.FloatConstant 0 result }
    ensures holds { (result.constant ≡ Some (RawConstant.Float value)) × PlacedAt position result }
{
    constant(RawConstant::Float(value), position)
}

/// A character.
pub fn char_constant(value: char, position: RawPosition) -> Draft
    ensures fits { FitsExpr ExprKind.CharConstant 0 result }
    ensures holds { (result.constant ≡ Some (RawConstant.Char value)) × PlacedAt position result }
{
    constant(RawConstant::Char(u32::from(value)), position)
}

/// A text.
pub fn string_constant(run: RawRun, position: RawPosition) -> Draft
    ensures fits { FitsExpr ExprKind.StringConstant 0 result }
    ensures holds { (result.constant ≡ Some (RawConstant.Text run)) × PlacedAt position result }
{
    constant(RawConstant::Text(run), position)
}

/// An interpolated string: over its parts.
pub fn interpolated_string(items: usize, position: RawPosition) -> Draft
    ensures fits { FitsExpr ExprKind.InterpolatedString 0 result }
    ensures holds { (result.head ≡ items) × PlacedAt position result }
{
    base(
        Kind::Expr(ExprKind::InterpolatedString),
        Some(position),
        items,
    )
}

/// An array: over its items.
pub fn array(items: usize, position: RawPosition) -> Draft
    ensures fits { FitsExpr ExprKind.Array 0 result }
    ensures holds { (result.head ≡ items) × PlacedAt position result }
{
    base(Kind::Expr(ExprKind::Array), Some(position), items)
}

/// Custom syntax: over its items.
pub fn custom(items: usize, position: RawPosition) -> Draft
    ensures fits { FitsExpr ExprKind.Custom 0 result }
    ensures holds { (result.head ≡ items) × PlacedAt position result }
{
    base(Kind::Expr(ExprKind::Custom), Some(position), items)
}

/// A map: over its items, with a key for each handed in for the links.
pub fn map(items: usize, position: RawPosition) -> Draft
    ensures fits { FitsExpr ExprKind.Map items result }
    ensures holds { (result.head ≡ items) × PlacedAt position result }
{
    base(Kind::Expr(ExprKind::Map), Some(position), items)
}

/// `&&`: over its items, at least one.
pub fn and(items: usize, position: RawPosition) -> Draft
    ensures fits { 0 < items → FitsExpr ExprKind.And 0 result }
    ensures holds { (result.head ≡ items) × PlacedAt position result }
{
    base(Kind::Expr(ExprKind::And), Some(position), items)
}

/// `||`: over its items, at least one.
pub fn or(items: usize, position: RawPosition) -> Draft
    ensures fits { 0 < items → FitsExpr ExprKind.Or 0 result }
    ensures holds { (result.head ≡ items) × PlacedAt position result }
{
    base(Kind::Expr(ExprKind::Or), Some(position), items)
}

/// `??`: over its items, at least one.
pub fn coalesce(items: usize, position: RawPosition) -> Draft
    ensures fits { 0 < items → FitsExpr ExprKind.Coalesce 0 result }
    ensures holds { (result.head ≡ items) × PlacedAt position result }
{
    base(Kind::Expr(ExprKind::Coalesce), Some(position), items)
}

/// `()`.
pub fn unit(position: RawPosition) -> Draft
    ensures fits { FitsExpr ExprKind.Unit 0 result }
    ensures holds { PlacedAt position result }
{
    base(Kind::Expr(ExprKind::Unit), Some(position), 0)
}

/// `this`.
pub fn this_ptr(position: RawPosition) -> Draft
    ensures fits { FitsExpr ExprKind.ThisPtr 0 result }
    ensures holds { PlacedAt position result }
{
    base(Kind::Expr(ExprKind::ThisPtr), Some(position), 0)
}

/// A variable.
pub fn variable(name: Qualified, position: RawPosition) -> Draft
    ensures fits { FitsExpr ExprKind.Variable 0 result }
    ensures holds { Called name 0 result × PlacedAt position result }
{
    called(Kind::Expr(ExprKind::Variable), name, 0, position)
}

/// A property.
pub fn property(name: RawRun, position: RawPosition) -> Draft
    ensures fits { FitsExpr ExprKind.Property 0 result }
    ensures holds { (result.first ≡ Some (plain name)) × PlacedAt position result }
{
    Draft {
        first: Some(RawIdent::from(name)),
        ..base(Kind::Expr(ExprKind::Property), Some(position), 0)
    }
}

/// A method call: over its arguments.
pub fn method_call(name: Qualified, arguments: usize, position: RawPosition) -> Draft
    ensures fits { FitsExpr ExprKind.MethodCall 0 result }
    ensures holds { Called name arguments result × PlacedAt position result }
{
    called(Kind::Expr(ExprKind::MethodCall), name, arguments, position)
}

/// A call: over its arguments.
pub fn call(name: Qualified, arguments: usize, position: RawPosition) -> Draft
    ensures fits { FitsExpr ExprKind.FnCall 0 result }
    ensures holds { Called name arguments result × PlacedAt position result }
{
    called(Kind::Expr(ExprKind::FnCall), name, arguments, position)
}

/// A block as an expression: over its statements.
pub fn stmt(list: Block) -> Draft
    ensures fits { FitsExpr ExprKind.Stmt 0 result }
    ensures holds { Listed list result }
{
    Draft {
        body: list.statements,
        body_span: Some(list.span),
        ..base(Kind::Expr(ExprKind::Stmt), None, 0)
    }
}

/// `.` and `?.`: over left and right.
pub fn dot(flags: RawFlags, position: RawPosition) -> Draft
    ensures fits { FitsExpr ExprKind.Dot 0 result }
    ensures holds { (result.flags ≡ Some flags) × PlacedAt position result }
{
    Draft {
        flags: Some(flags),
        ..base(Kind::Expr(ExprKind::Dot), Some(position), 2)
    }
}

/// `[` and `?[`: over left and right.
pub fn index(flags: RawFlags, position: RawPosition) -> Draft
    ensures fits { FitsExpr ExprKind.Index 0 result }
    ensures holds { (result.flags ≡ Some flags) × PlacedAt position result }
{
    Draft {
        flags: Some(flags),
        ..base(Kind::Expr(ExprKind::Index), Some(position), 2)
    }
}
