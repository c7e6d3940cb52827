//! What a node of a script's tree is made of: plain data and pure functions.
#![tactic(auto)]

pub mod faults;
pub mod flags;
pub mod parts;
pub mod positions;
pub mod records;
pub mod texts;
pub mod views;
