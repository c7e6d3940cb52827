//! The greatest height, the most lines, and a question that goes deeper than any walk.
use crate::memory::{AT, blank_link, blank_node, list};
use draft::drafts::{Draft, RawRun};
use makers::parts::{Arms, Qualified};
use makers::{exprs, stmts};
use marks::marks::Marks;
use node::faults::TableFault;
use table::tables::Table;

#[test]
fn the_greatest_height(rt: HostRuntime) {
    let mut nodes = [blank_node(); 65];
    let mut links = [blank_link(); 65];
    let mut table = Table::new(&mut nodes, &mut links, b"");
    assert_eq!(rt; table.put(&stmts::noop(AT), &[], &[], 0), Ok(0));
    for below in 0..63 {
        assert_eq!(rt;
            table.put(&stmts::block(list(1)), &[below], &[], 0),
            Ok(below + 1)
        );
    }
    assert_eq!(rt; table.height_of(63), Ok(64));
    assert_eq!(rt;
        table.put(&stmts::block(list(1)), &[63], &[], 0),
        Err(TableFault::Size(0))
    );
}

// One arm, and so many references to it.
fn one_arm(references: usize) -> Draft {
    let arms = Arms {
        arms: 1,
        values: references,
        ranges: 0,
        default: None,
    };
    stmts::switch(arms, AT)
}

// A switch of 4,000 references has 8,002 lines, the expression over it 8,003, and a switch of eight references to
// that one 64,034; a switch of 749 references has 1,500. So a block of the last two has 65,535.
#[test]
fn the_most_lines(rt: HostRuntime) {
    let mut nodes = [blank_node(); 16];
    let mut links = [blank_link(); 5000];
    let mut table = Table::new(&mut nodes, &mut links, b"");
    for n in 0..8 {
        assert_eq!(rt; table.put(&exprs::unit(AT), &[], &[], 0), Ok(n));
    }
    let mut inner = [0; 4003];
    inner[1] = 1;
    inner[2] = 2;
    assert_eq!(rt; table.put(&one_arm(4000), &inner, &[], 0), Ok(8));
    assert_eq!(rt; table.put(&exprs::stmt(list(1)), &[8], &[], 0), Ok(9));
    assert_eq!(rt;
        table.put(&one_arm(8), &[3, 4, 9, 0, 0, 0, 0, 0, 0, 0, 0], &[], 0),
        Ok(10)
    );
    let mut other = [0; 752];
    other[0] = 5;
    other[1] = 6;
    other[2] = 7;
    assert_eq!(rt; table.put(&one_arm(749), &other, &[], 0), Ok(11));
    assert_eq!(rt; table.put(&stmts::noop(AT), &[], &[], 0), Ok(12));
    assert_eq!(rt;
        table.put(&stmts::block(list(3)), &[10, 11, 12], &[], 0),
        Err(TableFault::Size(0))
    );
    assert_eq!(rt;
        table.put(&stmts::block(list(2)), &[10, 11], &[], 0),
        Ok(13)
    );
    assert_eq!(rt; table.lines(13), Ok(65535));
}

// Whether a node is pure that holds this one under 600 catch expressions.
fn is_pure_under_catches(bottom: &Draft) -> Result<bool, TableFault> {
    let mut nodes = [blank_node(); 1202];
    let mut links = [blank_link(); 1202];
    let mut table = Table::new(&mut nodes, &mut links, b"motor");
    let mut top = table.put(bottom, &[], &[], 0)?;
    for _ in 0..600 {
        let tried = table.put(&stmts::try_catch(list(0), list(0), AT), &[top], &[], 0)?;
        top = table.put(&exprs::stmt(list(1)), &[tried], &[], 0)?;
    }
    table.is_pure(top)
}

#[test]
fn deeper_than_a_walk(rt: HostRuntime) {
    let callee = Qualified {
        name: RawRun { start: 0, len: 5 },
        namespace: None,
    };
    assert_eq!(rt; is_pure_under_catches(&exprs::unit(AT)), Ok(true));
    assert_eq!(rt;
        is_pure_under_catches(&exprs::call(callee, 0, AT)),
        Ok(false)
    );
}
