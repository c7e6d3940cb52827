//! Walks over several names in turn: finished, stopped and refused.
use crate::halts::*;
use crate::ladders::*;
use std::process::Abort;
use std::test::Fail;
use tree::forests::walk_each;
use tree::paths::*;
use tree::stacks::*;
use tree::walks::*;

const ONE: Rung = Rung { height: 1 };

const TWO: Rung = Rung { height: 2 };

const THREE: Rung = Rung { height: 3 };

const SIX: Rung = Rung { height: 6 };

const SEVEN: Rung = Rung { height: 7 };

const LADDER: Ladder = Ladder { rungs: 3, fan: 2 };

// A walk over all names shows so many lines; what was on the path is taken off, and nothing is left on it.
fn finishes(rt: &impl Abort, roots: &[Rung], lines: u16) -> Result<(), Fail> {
    let mut places = [SIX; 3];
    let mut path = PathStack::new(&mut places);
    path.push(ONE)?;
    let mut halt = Halt::new(0);
    let outcome = walk_each(&LADDER, roots, &mut path, &mut halt);
    assert_eq!(rt; outcome, Ok(Outcome::Finished));
    assert_eq!(rt; halt.shown(), lines);
    assert_eq!(rt; path.len(), 0);
    Ok(())
}

#[test]
fn each_in_turn(rt: HostRuntime) -> Result<(), Fail> {
    finishes(&rt, &[], 0)?;
    finishes(&rt, &[ONE], 1)?;
    finishes(&rt, &[ONE, ONE, ONE], 3)?;
    finishes(&rt, &[TWO, THREE, TWO], 13)
}

// A walk that gets a no at a line leaves the path of that line, from its own name on, and shows none after it.
fn stops(rt: &impl Abort, at: u16, left: &[Rung]) -> Result<(), Fail> {
    let mut places = [SIX; 3];
    let mut path = PathStack::new(&mut places);
    path.push(ONE)?;
    let mut halt = Halt::new(at);
    let outcome = walk_each(&LADDER, &[TWO, THREE, TWO], &mut path, &mut halt);
    assert_eq!(rt; outcome, Ok(Outcome::Stopped));
    assert_eq!(rt; halt.shown(), at);
    assert_eq!(rt; path.names(), left);
    Ok(())
}

#[test]
fn stopped_within_each(rt: HostRuntime) -> Result<(), Fail> {
    stops(&rt, 1, &[TWO])?;
    stops(&rt, 3, &[TWO, ONE])?;
    stops(&rt, 4, &[THREE])?;
    stops(&rt, 6, &[THREE, TWO, ONE])?;
    stops(&rt, 11, &[TWO])?;
    stops(&rt, 13, &[TWO, ONE])
}

// A walk over names in two places is refused, and path, memory and visitor are what they were.
fn refuses(rt: &impl Abort, roots: &[Rung], fault: WalkFault<Rung, NoRung>) -> Result<(), Fail> {
    let mut places = [SIX; 2];
    let mut path = PathStack::new(&mut places);
    path.push(ONE)?;
    let mut halt = Halt::new(1);
    assert_eq!(rt; walk_each(&LADDER, roots, &mut path, &mut halt), Err(fault));
    assert_eq!(rt; path.names(), [ONE].as_slice());
    assert_eq!(rt; halt, Halt::new(1));
    assert_eq!(rt; places, [ONE, SIX]);
    Ok(())
}

#[test]
fn refused_over_several(rt: HostRuntime) -> Result<(), Fail> {
    let missing = WalkFault::Tree(NoRung { rung: SEVEN });
    refuses(&rt, &[TWO, SEVEN, SIX], missing)?;
    refuses(&rt, &[THREE, SEVEN], missing)?;
    let short = WalkFault::Path(PathFault { place: THREE });
    refuses(&rt, &[TWO, THREE, THREE], short)
}
