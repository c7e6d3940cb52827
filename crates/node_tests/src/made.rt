//! The draft of every maker fits the shape of its kind.
use draft::drafts::{Draft, RawFlags, RawRun};
use kind::kinds::{ExprKind, Kind, StmtKind};
use makers::parts::{Arms, Block, Placed, Qualified};
use makers::{exprs, stmts};
use node::positions::{RawPosition, RawSpan};
use std::process::Abort;

const AT: RawPosition = RawPosition { line: 3, column: 1 };

const RUN: RawRun = RawRun { start: 0, len: 4 };

const NAME: Placed = Placed { name: RUN, pos: AT };

const CALLEE: Qualified = Qualified {
    name: RUN,
    namespace: None,
};

const FLAGS: RawFlags = RawFlags { bits: 4 };

const BODY: Block = Block {
    statements: 2,
    span: RawSpan { start: AT, end: AT },
};

const ARMS: Arms = Arms {
    arms: 2,
    values: 3,
    ranges: 1,
    default: Some(1),
};

// The draft is of this kind and fits it, with so many places and names handed in.
fn fits(rt: &impl Abort, kind: Kind, draft: Draft, places: usize, idents: usize) {
    assert!(rt; Kind::try_from(draft.kind) == Ok(kind), "{}", kind.name());
    assert!(rt; draft.fits(kind.shape(), places, idents), "{}", kind.name());
}

fn stmts_fit(rt: &impl Abort, table: &[(StmtKind, Draft, usize)]) {
    for (kind, draft, places) in table {
        fits(rt, Kind::Stmt(*kind), *draft, *places, 0);
    }
}

fn exprs_fit(rt: &impl Abort, table: &[(ExprKind, Draft, usize)]) {
    for (kind, draft, places) in table {
        fits(rt, Kind::Expr(*kind), *draft, *places, 0);
    }
}

#[test]
fn statements_fit(rt: HostRuntime) {
    stmts_fit(
        &rt,
        &[
            (StmtKind::Noop, stmts::noop(AT), 0),
            (StmtKind::If, stmts::if_(BODY, BODY, AT), 5),
            (StmtKind::Switch, stmts::switch(ARMS, AT), 9),
            (StmtKind::While, stmts::while_(BODY, BODY, AT), 5),
            (StmtKind::Do, stmts::do_(FLAGS, BODY, BODY, AT), 5),
            (
                StmtKind::For,
                stmts::for_(NAME, Some(NAME), BODY, BODY, AT),
                5,
            ),
            (StmtKind::Var, stmts::var(NAME, FLAGS, AT), 1),
            (StmtKind::Assignment, stmts::assignment(AT), 2),
            (StmtKind::FnCall, stmts::call(CALLEE, 3, AT), 3),
        ],
    );
}

#[test]
fn more_statements_fit(rt: HostRuntime) {
    stmts_fit(
        &rt,
        &[
            (StmtKind::Block, stmts::block(BODY), 2),
            (StmtKind::TryCatch, stmts::try_catch(BODY, BODY, AT), 5),
            (StmtKind::Expr, stmts::expr(), 1),
            (StmtKind::BreakLoop, stmts::break_loop(false, FLAGS, AT), 0),
            (StmtKind::Return, stmts::return_(true, FLAGS, AT), 1),
            (StmtKind::Import, stmts::import(NAME, AT), 1),
            (StmtKind::Export, stmts::export(NAME, NAME, AT), 0),
        ],
    );
    fits(&rt, Kind::Stmt(StmtKind::Share), stmts::share(), 0, 2);
}

#[test]
fn constants_fit(rt: HostRuntime) {
    exprs_fit(
        &rt,
        &[
            (ExprKind::DynamicConstant, exprs::dynamic_constant(7, AT), 0),
            (ExprKind::BoolConstant, exprs::bool_constant(true, AT), 0),
            (
                ExprKind::IntegerConstant,
                exprs::integer_constant(-1, AT),
                0,
            ),
            (ExprKind::FloatConstant, exprs::float_constant(0.5, AT), 0),
            (ExprKind::CharConstant, exprs::char_constant('x', AT), 0),
            (ExprKind::StringConstant, exprs::string_constant(RUN, AT), 0),
        ],
    );
}

#[test]
fn expressions_fit(rt: HostRuntime) {
    exprs_fit(
        &rt,
        &[
            (
                ExprKind::InterpolatedString,
                exprs::interpolated_string(2, AT),
                2,
            ),
            (ExprKind::Array, exprs::array(0, AT), 0),
            (ExprKind::Unit, exprs::unit(AT), 0),
            (ExprKind::Variable, exprs::variable(CALLEE, AT), 0),
            (ExprKind::ThisPtr, exprs::this_ptr(AT), 0),
            (ExprKind::Property, exprs::property(RUN, AT), 0),
            (ExprKind::MethodCall, exprs::method_call(CALLEE, 1, AT), 1),
            (ExprKind::Stmt, exprs::stmt(BODY), 2),
        ],
    );
    fits(&rt, Kind::Expr(ExprKind::Map), exprs::map(3, AT), 3, 3);
}

#[test]
fn more_expressions_fit(rt: HostRuntime) {
    exprs_fit(
        &rt,
        &[
            (ExprKind::FnCall, exprs::call(CALLEE, 2, AT), 2),
            (ExprKind::Dot, exprs::dot(FLAGS, AT), 2),
            (ExprKind::Index, exprs::index(FLAGS, AT), 2),
            (ExprKind::And, exprs::and(1, AT), 1),
            (ExprKind::Or, exprs::or(2, AT), 2),
            (ExprKind::Coalesce, exprs::coalesce(2, AT), 2),
            (ExprKind::Custom, exprs::custom(0, AT), 0),
        ],
    );
}

#[test]
fn empty_lists_do_not_fit(rt: HostRuntime) {
    assert!(rt; !exprs::and(0, AT).fits(ExprKind::And.shape(), 0, 0));
    assert!(rt; !stmts::share().fits(StmtKind::Share.shape(), 0, 0));
}
