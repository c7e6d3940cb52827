//! The script table: nodes of a script's tree in lent memory.
#![tactic(auto)]

mod accepts;
mod checks;
mod children;
mod grows;
mod links;
pub mod making;
mod measures;
pub mod memory;
mod offers;
pub mod reads;
pub mod seen;
mod sizes;
pub mod tables;
pub mod trees;
