//! Tests of paths, walks and the tally, on a tree that is computed and stored nowhere.
#![tactic(auto)]

#[cfg(test)]
mod each_tests;
pub mod halts;
pub mod ladders;
#[cfg(test)]
mod path_tests;
#[cfg(test)]
mod tally_tests;
#[cfg(test)]
mod walk_tests;
