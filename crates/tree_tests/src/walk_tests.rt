//! Walks that finish, walks that are stopped, and walks that are refused.
use crate::halts::*;
use crate::ladders::*;
use crate::path_tests::push_all;
use std::process::Abort;
use std::test::Fail;
use tree::faults::*;
use tree::paths::*;
use tree::stacks::*;
use tree::walks::*;

const ONE: Rung = Rung { height: 1 };

const TWO: Rung = Rung { height: 2 };

const THREE: Rung = Rung { height: 3 };

const SIX: Rung = Rung { height: 6 };

const SEVEN: Rung = Rung { height: 7 };

// A walk of the whole ladder finishes, has shown so many lines, and leaves the initial path.
fn finishes(rt: &impl Abort, rungs: u8, fan: usize, lines: u16) -> Result<(), Fail> {
    let mut places = [SIX; 65];
    let mut path = PathStack::new(&mut places);
    path.push(ONE)?;
    let mut halt = Halt::new(0);
    let start = Rung { height: rungs };
    let outcome = walk(&Ladder { rungs, fan }, start, &mut path, &mut halt);
    assert_eq!(rt; outcome, Ok(Outcome::Finished));
    assert_eq!(rt; halt.shown(), lines);
    assert_eq!(rt; path.names(), [ONE].as_slice());
    Ok(())
}

#[test]
fn finished(rt: HostRuntime) -> Result<(), Fail> {
    finishes(&rt, 1, 7, 1)?;
    finishes(&rt, 2, 0, 1)?;
    finishes(&rt, 2, 5, 6)?;
    finishes(&rt, 3, 2, 7)?;
    finishes(&rt, 4, 3, 40)?;
    finishes(&rt, 10, 2, 1023)?;
    finishes(&rt, 64, 1, 64)
}

// A walk that gets a no at a line leaves the path of that line, and shows none after it.
fn stops(rt: &impl Abort, at: u16, left: &[Rung]) -> Result<(), Fail> {
    let mut places = [SIX; 5];
    let mut path = PathStack::new(&mut places);
    path.push(ONE)?;
    let mut halt = Halt::new(at);
    let ladder = Ladder { rungs: 3, fan: 2 };
    let outcome = walk(&ladder, THREE, &mut path, &mut halt);
    assert_eq!(rt; outcome, Ok(Outcome::Stopped));
    assert_eq!(rt; halt.shown(), at);
    assert_eq!(rt; path.names(), left);
    Ok(())
}

#[test]
fn stopped(rt: HostRuntime) -> Result<(), Fail> {
    stops(&rt, 1, &[ONE, THREE])?;
    stops(&rt, 2, &[ONE, THREE, TWO])?;
    stops(&rt, 3, &[ONE, THREE, TWO, ONE])?;
    stops(&rt, 4, &[ONE, THREE, TWO, ONE])?;
    stops(&rt, 5, &[ONE, THREE, TWO])?;
    stops(&rt, 6, &[ONE, THREE, TWO, ONE])?;
    stops(&rt, 7, &[ONE, THREE, TWO, ONE])
}

// A walk behind three names in five places is refused, and path, memory and visitor are what they were.
fn refuses(
    rt: &impl Abort,
    initial: [Rung; 3],
    start: Rung,
    fault: WalkFault<Rung, NoRung>,
) -> Result<(), Fail> {
    let mut places = [SIX; 5];
    let mut path = PathStack::new(&mut places);
    push_all(&mut path, &initial)?;
    let mut halt = Halt::new(1);
    let ladder = Ladder { rungs: 3, fan: 2 };
    assert_eq!(rt; walk(&ladder, start, &mut path, &mut halt), Err(fault));
    assert_eq!(rt; path.names(), initial.as_slice());
    assert_eq!(rt; halt, Halt::new(1));
    let [a, b, c] = initial;
    assert_eq!(rt; places, [a, b, c, SIX, SIX]);
    Ok(())
}

#[test]
fn refused_at_an_unknown_name(rt: HostRuntime) -> Result<(), Fail> {
    let start = WalkFault::Tree(NoRung { rung: SEVEN });
    refuses(&rt, [ONE, SIX, ONE], SEVEN, start)?;
    refuses(
        &rt,
        [ONE, SIX, SEVEN],
        THREE,
        WalkFault::Tree(NoRung { rung: SIX }),
    )?;
    refuses(&rt, [ONE, SEVEN, SIX], THREE, start)?;
    assert_eq!(rt; start.number(), 2);
    assert_eq!(rt; start.layer(), Layer::Table);
    Ok(())
}

#[test]
fn refused_for_want_of_room(rt: HostRuntime) -> Result<(), Fail> {
    let short = WalkFault::Path(PathFault { place: THREE });
    refuses(&rt, [THREE, TWO, ONE], THREE, short)?;
    assert_eq!(rt; short.number(), 9);
    assert_eq!(rt; short.layer(), Layer::Path);
    Ok(())
}

#[test]
fn room_that_is_just_enough(rt: HostRuntime) -> Result<(), Fail> {
    let mut places = [SIX; 5];
    let mut path = PathStack::new(&mut places);
    push_all(&mut path, &[THREE, TWO, ONE])?;
    let mut halt = Halt::new(0);
    let ladder = Ladder { rungs: 3, fan: 2 };
    let outcome = walk(&ladder, TWO, &mut path, &mut halt);
    assert_eq!(rt; outcome, Ok(Outcome::Finished));
    assert_eq!(rt; halt.shown(), 3);
    Ok(())
}
