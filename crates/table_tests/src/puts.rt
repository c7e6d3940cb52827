//! What a put answers, and what the table tells of it.
use crate::memory::{AT, blank_link, blank_node, list};
use draft::drafts::RawRun;
use makers::parts::Qualified;
use makers::{exprs, stmts};
use marks::marks::Marks;
use node::faults::{TableFault, TextFault};
use node::positions::RawPosition;
use table::tables::Table;
use tree::trees::Tree;

const CALLEE: Qualified = Qualified {
    name: RawRun { start: 0, len: 5 },
    namespace: None,
};

#[test]
fn a_script_is_a_tree(rt: HostRuntime) {
    let mut nodes = [blank_node(); 8];
    let mut links = [blank_link(); 8];
    let mut table = Table::new(&mut nodes, &mut links, b"motor");
    assert_eq!(rt;
        table.put(&exprs::integer_constant(7, AT), &[], &[], 0),
        Ok(0)
    );
    assert_eq!(rt; table.put(&stmts::call(CALLEE, 1, AT), &[0], &[], 0), Ok(1));
    assert_eq!(rt; table.put(&stmts::noop(AT), &[], &[], 0), Ok(2));
    assert_eq!(rt; table.put(&stmts::block(list(2)), &[2, 1], &[], 0), Ok(3));
    assert_eq!(rt; table.len(), 4);
    assert!(rt; table.lines(3) == Ok(4) && table.height_of(3) == Ok(3));
    assert!(rt;
        table.child_count(3) == Ok(2) && table.child(3, 0) == Ok(2) && table.child(3, 1) == Ok(1)
    );
    assert!(rt; table.child(3, 2).is_err() && table.child_count(4).is_err());
    assert!(rt; table.is_pure(3) == Ok(false) && table.is_pure(2) == Ok(true));
    assert!(rt; table.is_constant(0) == Ok(true) && table.is_constant(1).is_err());
}

#[test]
fn the_first_refusal_is_given(rt: HostRuntime) {
    let mut nodes = [blank_node(); 4];
    let mut links = [blank_link(); 4];
    let mut table = Table::new(&mut nodes, &mut links, b"motor");
    assert_eq!(rt; table.put(&exprs::unit(AT), &[], &[], 0), Ok(0));
    assert_eq!(rt; table.put(&stmts::noop(AT), &[], &[], 0), Ok(1));
    assert_eq!(rt; table.put(&stmts::block(list(1)), &[1], &[], 0), Ok(2));
    let nowhere = RawPosition { line: 0, column: 1 };
    let beyond = RawRun { start: 1, len: 5 };
    let refused = [
        (stmts::block(list(2)), [0, 9], TableFault::Missing(9)),
        (exprs::array(2, nowhere), [0, 1], TableFault::Range(0)),
        (
            exprs::call(
                Qualified {
                    name: beyond,
                    ..CALLEE
                },
                2,
                AT,
            ),
            [0, 1],
            TableFault::Text(TextFault { place: 0 }, 0),
        ),
        (exprs::array(1, AT), [0, 1], TableFault::Misfit(0)),
        (exprs::array(2, AT), [0, 1], TableFault::Misfit(1)),
        (exprs::array(2, AT), [0, 0], TableFault::Held(0)),
        (stmts::block(list(2)), [2, 1], TableFault::Held(1)),
    ];
    for (draft, places, fault) in refused {
        assert_eq!(rt; table.put(&draft, &places, &[], 0), Err(fault));
    }
    assert_eq!(rt; table.len(), 3);
}

#[test]
fn the_last_node_and_the_last_link(rt: HostRuntime) {
    let mut nodes = [blank_node(); 3];
    let mut links = [blank_link(); 1];
    let mut table = Table::new(&mut nodes, &mut links, b"");
    assert_eq!(rt; table.put(&stmts::noop(AT), &[], &[], 0), Ok(0));
    assert_eq!(rt; table.put(&stmts::noop(AT), &[], &[], 0), Ok(1));
    assert_eq!(rt;
        table.put(&stmts::block(list(2)), &[0, 1], &[], 0),
        Err(TableFault::Full(0))
    );
    assert_eq!(rt; table.put(&stmts::block(list(1)), &[0], &[], 0), Ok(2));
    assert_eq!(rt;
        table.put(&stmts::noop(AT), &[], &[], 0),
        Err(TableFault::Full(0))
    );
    assert_eq!(rt; table.len(), 3);
}
