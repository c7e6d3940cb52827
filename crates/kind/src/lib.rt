//! The kinds of nodes of a script's tree, and what differs from kind to kind.
#![tactic(auto)]

pub mod kinds;
pub mod shapes;
