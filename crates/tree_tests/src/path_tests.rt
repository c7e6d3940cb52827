//! Memory for paths, and names on and off them.
use crate::ladders::*;
use std::process::Abort;
use std::test::Fail;
use tree::faults::*;
use tree::limits::*;
use tree::paths::*;
use tree::stacks::*;

const ONE: Rung = Rung { height: 1 };

const TWO: Rung = Rung { height: 2 };

const SIX: Rung = Rung { height: 6 };

// Puts names on a path in turn.
pub(crate) fn push_all(path: &mut PathStack<'_, Rung>, names: &[Rung]) -> Result<(), Fail> {
    for n in names {
        path.push(*n)?;
    }
    Ok(())
}

// A memory takes its limit, and one place more is fault 1.
fn holds(rt: &impl Abort, memory: Memory, limit: usize, beyond: usize) {
    assert_eq!(rt; memory.limit(), limit);
    assert_eq!(rt; memory.check(limit), Ok(()));
    assert_eq!(rt; memory.check(beyond), Err(MemoryFault { memory }));
}

#[test]
fn limits(rt: HostRuntime) {
    holds(&rt, Memory::Nodes, 4096, 4097);
    holds(&rt, Memory::Links, 8192, 8193);
    holds(&rt, Memory::Values, 4096, 4097);
    holds(&rt, Memory::Items, 8192, 8193);
    holds(&rt, Memory::Path, 128, 129);
    holds(&rt, Memory::Text, 65535, 65536);
}

#[test]
fn memory_of_a_path(rt: HostRuntime) {
    assert_eq!(rt; check_memory(&[ONE; 128]), Ok(()));
    let fault = MemoryFault {
        memory: Memory::Path,
    };
    assert_eq!(rt; check_memory(&[ONE; 129]), Err(fault));
    assert_eq!(rt; fault.number(), 1);
    assert_eq!(rt; fault.layer(), Layer::Memory);
}

#[test]
fn memory_beyond_the_limit(rt: HostRuntime) -> Result<(), Fail> {
    let mut places = [ONE; 129];
    let mut path = PathStack::new(&mut places);
    assert_eq!(rt; path.capacity(), 128);
    push_all(&mut path, &[TWO; 128])?;
    assert_eq!(rt; path.push(SIX), Err(PathFault { place: SIX }));
    assert_eq!(rt; path.len(), 128);
    assert_eq!(rt; places[128], ONE);
    Ok(())
}

#[test]
fn full_path(rt: HostRuntime) -> Result<(), Fail> {
    let mut places = [ONE; 2];
    let mut path = PathStack::new(&mut places);
    push_all(&mut path, &[TWO, SIX])?;
    let fault = PathFault { place: ONE };
    assert_eq!(rt; path.push(ONE), Err(fault));
    assert_eq!(rt; fault.number(), 9);
    assert_eq!(rt; fault.layer(), Layer::Path);
    assert_eq!(rt; path.names(), [TWO, SIX].as_slice());
    assert_eq!(rt; places, [TWO, SIX]);
    Ok(())
}

#[test]
fn names_off_the_path(rt: HostRuntime) -> Result<(), Fail> {
    let mut places = [ONE; 4];
    let mut path = PathStack::new(&mut places);
    assert_eq!(rt; path.pop(), None);
    push_all(&mut path, &[ONE, TWO, TWO, SIX])?;
    path.truncate(5);
    assert_eq!(rt; path.pop(), Some(SIX));
    path.truncate(2);
    assert_eq!(rt; path.names(), [ONE, TWO].as_slice());
    Ok(())
}
