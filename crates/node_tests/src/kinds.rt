//! Kinds by number and by name, and flags.
use kind::kinds::{ExprKind, NoKind, StmtKind};
use node::flags::ASTFlags;
use std::test::Fail;

#[test]
fn kinds_by_number(rt: HostRuntime) {
    assert_eq!(rt; StmtKind::try_from(16), Ok(StmtKind::Share));
    assert_eq!(rt; StmtKind::try_from(17), Err(NoKind { number: 17 }));
    assert_eq!(rt; ExprKind::try_from(21), Ok(ExprKind::Custom));
    assert_eq!(rt; ExprKind::try_from(22), Err(NoKind { number: 22 }));
}

#[test]
fn kinds_by_name(rt: HostRuntime) {
    assert_eq!(rt; StmtKind::from_name(b"TryCatch"), Some(StmtKind::TryCatch));
    assert_eq!(rt; ExprKind::from_name(b"FnCall"), Some(ExprKind::FnCall));
    assert_eq!(rt; StmtKind::from_name(b"noop"), None);
}

#[test]
fn sets_of_flags(rt: HostRuntime) -> Result<(), Fail> {
    for bits in 0..16 {
        let flags = ASTFlags::from_bits(bits).ok_or("a set")?;
        assert_eq!(rt; flags.is_constant(), bits & 1 != 0);
        assert_eq!(rt; flags.is_exported(), bits & 2 != 0);
        assert_eq!(rt; flags.is_negated(), bits & 4 != 0);
        assert_eq!(rt; flags.is_break(), bits & 8 != 0);
        assert_eq!(rt; flags.is_empty(), bits == 0);
    }
    assert_eq!(rt; ASTFlags::from_bits(16), None);
    Ok(())
}

#[test]
fn sets_contain(rt: HostRuntime) -> Result<(), Fail> {
    let two = ASTFlags::from_bits(12).ok_or("a set")?;
    assert_eq!(rt; two.contains(ASTFlags::NEGATED), true);
    assert_eq!(rt; ASTFlags::NEGATED.contains(two), false);
    Ok(())
}
