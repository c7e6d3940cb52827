//! Marks: whether an expression is constant, and whether a node is pure.
#![tactic(auto)]

mod asks;
mod constants;
mod counts;
mod harmless;
pub mod marks;
mod names;
mod positions;
mod purity;
pub mod questions;
