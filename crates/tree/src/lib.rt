//! Trees, lines of descent and the walk over them.
//!
//! Everything above stands on the traits of this crate alone: a tree is what answers the four
//! questions of `Tree`, and a visitor what follows the rule that it states.
#![tactic(auto)]

pub mod faults;
pub mod forests;
pub mod limits;
pub mod paths;
pub mod stacks;
pub mod tallies;
pub mod trees;
pub mod visitors;
pub mod walks;
