//! The number of lines, exact up to 65,535 and then that.
use crate::ladders::*;
use std::process::Abort;
use tree::paths::*;
use tree::stacks::*;
use tree::tallies::*;
use tree::walks::*;

const SEVEN: Rung = Rung { height: 7 };

// So many lines are counted from the highest rung.
fn counts(rt: &impl Abort, rungs: u8, fan: usize, lines: u16) {
    let mut places = [SEVEN; 64];
    let mut path = PathStack::new(&mut places);
    let start = Rung { height: rungs };
    let count = count_lines(&Ladder { rungs, fan }, start, &mut path);
    assert_eq!(rt; count, Ok(lines));
}

#[test]
fn counted(rt: HostRuntime) {
    assert_eq!(rt; Tally::new().count(), 0);
    counts(&rt, 1, 9, 1);
    counts(&rt, 15, 2, 32767);
    counts(&rt, 16, 2, 65535);
    counts(&rt, 17, 2, 65535);
    counts(&rt, 3, 255, 65281);
    counts(&rt, 3, 256, 65535);
    counts(&rt, 64, 1, 64);
}

#[test]
fn refused(rt: HostRuntime) {
    let mut places = [SEVEN; 64];
    let mut path = PathStack::new(&mut places);
    let ladder = Ladder { rungs: 3, fan: 2 };
    let fault = WalkFault::Tree(NoRung { rung: SEVEN });
    assert_eq!(rt; count_lines(&ladder, SEVEN, &mut path), Err(fault));
}
