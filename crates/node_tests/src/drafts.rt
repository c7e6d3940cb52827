//! Numbers of a draft at the edges of their ranges.
use draft::drafts::{RawConstant, RawFlags, RawKind};
use node::positions::Ranged;

#[test]
fn characters_in_range(rt: HostRuntime) {
    let table = [
        (0, true),
        (0xD7FF, true),
        (0xD800, false),
        (0xDFFF, false),
        (0xE000, true),
        (0x10_FFFF, true),
        (0x11_0000, false),
    ];
    for (code, within) in table {
        assert_eq!(rt; RawConstant::Char(code).in_range(), within);
    }
}

#[test]
fn kinds_flags_and_booleans_in_range(rt: HostRuntime) {
    assert!(rt; RawKind::Stmt(16).in_range() && !RawKind::Stmt(17).in_range());
    assert!(rt; RawKind::Expr(21).in_range() && !RawKind::Expr(22).in_range());
    assert!(rt; RawFlags { bits: 15 }.in_range() && !RawFlags { bits: 16 }.in_range());
    assert!(rt; RawConstant::Bool(1).in_range() && !RawConstant::Bool(2).in_range());
}
